//! A server that grants every request, and what it and a peer send.

use crate::fixture::Place;
use crate::server::{ALLOCATE, Answer, CHANNEL_BIND, CREATE_PERMISSION, Often, REFRESH, Rule};

/// 10.0.0.4:40000.
pub(crate) const RELAYED: Place = Place(4, 40_000);

pub(crate) const PEER: Place = Place(3, 9_000);

pub(crate) const OTHER: Place = Place(5, 9_000);

/// Error 401 with the realm `realm` and the nonce `nonce`.
const UNAUTHENTICATED: &[u8] = &[
    0x00, 0x09, 0x00, 0x04, 0x00, 0x00, 0x04, 0x01, 0x00, 0x14, 0x00, 0x05, 0x72, 0x65, 0x61, 0x6c,
    0x6d, 0x00, 0x00, 0x00, 0x00, 0x15, 0x00, 0x05, 0x6e, 0x6f, 0x6e, 0x63, 0x65, 0x00, 0x00, 0x00,
];

/// LIFETIME of 1000 seconds.
const LIFETIME: &[u8] = &[0x00, 0x0d, 0x00, 0x04, 0x00, 0x00, 0x03, 0xe8];

/// LIFETIME of 300 seconds.
const SHORT_LIFETIME: &[u8] = &[0x00, 0x0d, 0x00, 0x04, 0x00, 0x00, 0x01, 0x2c];

/// XOR-RELAYED-ADDRESS of 10.0.0.4:40000.
const RELAYED4: &[u8] = &[
    0x00, 0x16, 0x00, 0x08, 0x00, 0x01, 0xbd, 0x52, 0x2b, 0x12, 0xa4, 0x46,
];

/// The first ALLOCATE is challenged.
pub(crate) const CHALLENGES: Rule<'static> = (
    ALLOCATE,
    Often::After(0),
    Answer::Error(UNAUTHENTICATED),
);

/// 10.0.0.4:40000 for 1000 seconds.
pub(crate) const ALLOCATES: Rule<'static> = (
    ALLOCATE,
    Often::Always,
    Answer::Success(&[LIFETIME, RELAYED4]),
);

pub(crate) const REFRESHES: Rule<'static> = (REFRESH, Often::Always, Answer::Success(&[LIFETIME]));

pub(crate) const PERMITS: Rule<'static> = (CREATE_PERMISSION, Often::Always, Answer::Success(&[]));

const BINDS: Rule<'static> = (CHANNEL_BIND, Often::Always, Answer::Success(&[]));

/// A server that grants every request.
pub(crate) const GENEROUS: &[Rule<'static>] = &[CHALLENGES, ALLOCATES, REFRESHES, PERMITS, BINDS];

/// A server that grants every request, and the allocation for 300 seconds at first.
pub(crate) const SHORT: &[Rule<'static>] = &[
    CHALLENGES,
    (
        ALLOCATE,
        Often::Always,
        Answer::Success(&[SHORT_LIFETIME, RELAYED4]),
    ),
    REFRESHES,
    PERMITS,
    BINDS,
];

/// `hello` of 10.0.0.3:9000.
pub(crate) const DATA: &[u8] = &[
    0x00, 0x17, 0x00, 0x18, 0x21, 0x12, 0xa4, 0x42, 0x00, 0x00, 0x00, 0x00, 0x00, 0x00, 0x00, 0x00,
    0x00, 0x00, 0x00, 0x01, 0x00, 0x12, 0x00, 0x08, 0x00, 0x01, 0x02, 0x3a, 0x2b, 0x12, 0xa4, 0x41,
    0x00, 0x13, 0x00, 0x05, 0x68, 0x65, 0x6c, 0x6c, 0x6f, 0x00, 0x00, 0x00,
];

/// The attributes of a Send indication of `hello` to 10.0.0.3:9000.
pub(crate) const SEND: &[u8] = &[
    0x00, 0x12, 0x00, 0x08, 0x00, 0x01, 0x02, 0x3a, 0x2b, 0x12, 0xa4, 0x41, 0x00, 0x13, 0x00, 0x05,
    0x68, 0x65, 0x6c, 0x6c, 0x6f, 0x00, 0x00, 0x00,
];
