//! Values as text.

use crate::fixture::{FIRST_ID, same};
use crate::stun::fixture::parsed;
use crate::stun::messages::{ALLOCATE_REQUEST, BEHIND_INTEGRITY};
use std::alloc::Global;
use std::fmt::Display;
use std::process::Abort;
use std::time::Duration;
use turn_stun::instant::Instant;
use turn_stun::transaction::TransactionId;
use turn_stun::transport::TransportType;

fn assert_printed<T: Display + Drop>(rt: &impl Abort, alloc: Global, value: T, expected: &str) {
    let text = format!(in alloc; "{value}").expect(rt, "memory");
    same(rt, text.as_str(), expected);
}

#[test]
fn times_are_printed_in_seconds(rt: HostRuntime) {
    let quarter_hour = Instant::ZERO.plus(Duration::from_secs(900));
    assert_printed(&rt, rt.alloc(), quarter_hour, "900.000000000s");
    let later = Instant::from_nanos(1_000_000_005);
    assert_printed(&rt, rt.alloc(), later, "1.000000005s");
}

#[test]
fn ids_are_printed_in_hexadecimal(rt: HostRuntime) {
    let id = TransactionId::from_bytes(FIRST_ID);
    assert_printed(&rt, rt.alloc(), id, "0x76b8e0ada0f13d90405d6ae5");
    let zeros = TransactionId::from_bytes(*b"\x00\x00\x00\x0c\x00\x00\x00\x00\x00\x00\x0a\xbc");
    assert_printed(&rt, rt.alloc(), zeros, "0x0000000c0000000000000abc");
}

#[test]
fn transports_are_printed_by_their_names(rt: HostRuntime) {
    assert_printed(&rt, rt.alloc(), TransportType::Udp, "UDP");
    assert_printed(&rt, rt.alloc(), TransportType::Tcp, "TCP");
}

/// An ALLOCATE with LIFETIME, REQUESTED-TRANSPORT and DONT-FRAGMENT.
const ALLOCATE_TEXT: &str =
    "Message(class: Request, method: 3, transaction: 0x76b8e0ada0f13d90405d6ae5, \
    attributes: [0x000d (4 bytes), 0x0019 (4 bytes), 0x001a (0 bytes)])";

/// The attributes at the offsets 20, 28, 52, 68 and 76: those between them follow an integrity attribute, and are to be ignored.
const SEEN_TEXT: &str =
    "Message(class: Request, method: 1, transaction: 0x76b8e0ada0f13d90405d6ae5, \
    attributes: [0x0014 (1 bytes), 0x0008 (1 bytes), 0x001c (1 bytes), 0x8028 (1 bytes), 0x8028 (1 bytes)])";

#[test]
fn messages_are_printed_without_values(rt: HostRuntime) {
    assert_printed(
        &rt,
        rt.alloc(),
        parsed(&rt, ALLOCATE_REQUEST),
        ALLOCATE_TEXT,
    );
    assert_printed(&rt, rt.alloc(), parsed(&rt, BEHIND_INTEGRITY), SEEN_TEXT);
}
