//! All numbers that channels may have (RFC 8656, section 12).

use crate::fixture::same;
use crate::grants::is_asked;
use std::alloc::{AllocError, Global};
use std::net::{IpAddr, Ipv4Addr, SocketAddr};
use std::test::Fail;
use turn_client_api::{Grant, Progress};
use turn_client_grants::{GrantLedger, Purposes};
use turn_stun::instant::Instant;
use turn_stun::transaction::TransactionId;
use turn_stun::transport::TransportType;

/// Adds a channel with the least free number, to a peer with this port. Returns none if no number
/// is free.
fn take_number(ledger: &mut GrantLedger, port: u16) -> Result<Option<u16>, AllocError> {
    let request = TransactionId::from_bytes([7; 12]);
    ledger.reserve(1, 2, 0, 0)?;
    if is_asked(ledger, request) {
        return Ok(None);
    }
    let Some(number) = ledger.table().free_number() else {
        return Ok(None);
    };
    let peer = SocketAddr::new(IpAddr::V4(Ipv4Addr::new(192, 0, 2, 7)), port);
    let until = Progress::Reserved(Instant::from_nanos(0));
    ledger.ask(
        request,
        &[Grant::Channel(number, peer, until)],
        &Purposes::none(),
    );
    Ok(Some(number))
}

/// The first number that is not the next one from 4000 on, if there is one, and how many were
/// taken.
fn take_all(ledger: &mut GrantLedger) -> Result<(Option<u16>, u16), AllocError> {
    for count in 0..0x2000 {
        let number = take_number(ledger, count)?;
        if number != Some(0x4000 + count) {
            return Ok((number, count));
        }
    }
    Ok((None, 0))
}

fn all_taken(alloc: Global) -> Result<(Option<u16>, u16), AllocError> {
    let mut ledger = GrantLedger::new(TransportType::Udp, alloc);
    take_all(&mut ledger)
}

#[test]
fn numbers_go_up_until_none_is_left(rt: HostRuntime) -> Result<(), Fail> {
    same(&rt, all_taken(rt.alloc())?, (None, 0x1000));
    Ok(())
}
