//! A client that answers more challenges in a row than by default: stale nonces (error 438) over a slow link, in which many
//! requests are on their way at once (RFC 8489, section 9.2.5).
//!
//! The same with the default limit is a transcript.

use crate::caller::Caller;
use crate::fixture::{Place, at, check, client_over_slow_link};
use crate::messages::{ALLOCATES, CHALLENGES, PERMITS, REFRESHES, RELAYED};
use crate::server::{Answer, CREATE_PERMISSION, Often, Rule};
use std::alloc::{AllocError, Global};
use std::num::NonZeroU16;
use std::process::Abort;
use std::test::Fail;
use turn_auth::credentials::CredentialsError;
use turn_client_api::{TurnClientApi, TurnEvent};
use turn_stun::transport::TransportType;

/// Error 438 with the realm `realm` and the nonce `fresh`.
pub(crate) const STALE: &[u8] = &[
    0x00, 0x09, 0x00, 0x04, 0x00, 0x00, 0x04, 0x26, 0x00, 0x14, 0x00, 0x05, 0x72, 0x65, 0x61, 0x6c,
    0x6d, 0x00, 0x00, 0x00, 0x00, 0x15, 0x00, 0x05, 0x66, 0x72, 0x65, 0x73, 0x68, 0x00, 0x00, 0x00,
];

/// After thirty permissions, the nonce `nonce` is stale.
const FORGETS_LATER: &[Rule<'static>] = &[
    CHALLENGES,
    (
        CREATE_PERMISSION,
        Often::StaleFrom(30),
        Answer::Error(STALE),
    ),
    ALLOCATES,
    PERMITS,
    REFRESHES,
];

/// How many peers are permitted.
const PEERS: u8 = 30;

/// A time in milliseconds, how many packets the client has sent by then, and whether each peer has a permission.
type Row = (u32, u32, bool);

// At a round trip of 700 ms the address is granted at 1.4 s. Thirty permissions are requested 50 ms apart from 2 s on,
// granted from 2.7 s on, and requested again from 242.7 s on. The first of these is challenged at 243.4 s, when thirteen
// others have left with its nonce. All fourteen are answered, nine of them by default: thirty requests, and these again.
const ROWS: &[Row] = &[
    (3_450, 32, false),
    (4_149, 32, false),
    (4_150, 32, true),
    (242_699, 32, true),
    (243_350, 46, true),
    (243_849, 55, true),
    (243_850, 56, true),
    (260_000, 76, true),
    (400_000, 76, true),
];

/// The peer of this number.
fn peer(number: u8) -> Place {
    Place(number.saturating_add(100), 9_000)
}

/// Whether a permission is requested for each of so many peers.
pub(crate) fn are_requested<C: TurnClientApi>(client: &mut C, peers: u8, now: u32) -> bool {
    let mut all = true;
    for number in 0..peers {
        let answer = client.create_permission(TransportType::Udp, peer(number).ip(), at(now));
        all = answer.is_ok() && all;
    }
    all
}

/// Whether each of so many peers has a permission.
pub(crate) fn are_permitted<C: TurnClientApi>(client: &C, peers: u8) -> bool {
    let mut all = true;
    for number in 0..peers {
        all = client.have_permission(TransportType::Udp, peer(number).ip()) && all;
    }
    all
}

/// Whether the client has this relayed address alone.
fn relays<C: TurnClientApi>(client: &C) -> bool {
    let mut left = client.relayed_addresses();
    left.next() == Some((TransportType::Udp, RELAYED.address())) && left.next().is_none()
}

/// Whether the row holds for a client that goes on.
fn holds<C: TurnClientApi>(client: &C, caller: &Caller, row: &Row) -> bool {
    let (_, sent, is_permitted) = *row;
    !caller.has_ended && caller.sent == sent && are_permitted(client, PEERS) == is_permitted
}

/// Asserts that the address is granted at 1.4 s, and that each row holds at its time.
fn follows<C: TurnClientApi>(
    rt: &impl Abort,
    client: &mut C,
    caller: &mut Caller,
) -> Result<(), AllocError> {
    caller.wait(client, FORGETS_LATER, 2_000)?;
    let granted = TurnEvent::AllocationCreated(TransportType::Udp, RELAYED.address());
    check(rt, caller.first_event == Some((1_400, granted)), 1_400);
    check(rt, are_requested(client, PEERS, 2_000), 2_000);
    for row in ROWS {
        caller.wait(client, FORGETS_LATER, row.0)?;
        check(rt, holds(client, caller, row), row.0);
    }
    Ok(())
}

/// Asserts that a client goes on, and keeps its relayed address.
fn goes_on<C: TurnClientApi>(
    rt: &impl Abort,
    alloc: Global,
    client: Result<C, CredentialsError>,
) -> Result<(), Fail> {
    let mut client = client?;
    let mut caller = Caller::over_slow_link(alloc, 700);
    follows(rt, &mut client, &mut caller)?;
    check(rt, relays(&client), 400_000);
    check(
        rt,
        caller.server.unsigned == 1 && caller.ignored == 0,
        400_000,
    );
    Ok(())
}

#[test]
fn thirty_peers_over_a_slow_link_are_kept_by_a_higher_limit(rt: HostRuntime) -> Result<(), Fail> {
    let limit = NonZeroU16::new(256).ok_or("zero")?;
    goes_on(&rt, rt.alloc(), client_over_slow_link(rt.alloc(), limit))
}
