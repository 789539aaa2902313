//! What is looked up by an address.

use crate::fixture::same;
use crate::grants::plain::{Plain, TRANSPORT, address, family};
use std::net::SocketAddr;
use std::process::Abort;
use turn_client_grants::{GrantLedger, GrantTable};
use turn_stun::transport::TransportType;

/// Each of the eight addresses, and the same ones with a port that no row has.
pub(crate) fn are_same(rt: &impl Abort, ledger: &GrantLedger, plain: &Plain) {
    for n in 0..8u8 {
        allocations(rt, ledger, plain, n);
        permissions(rt, ledger, plain, n);
        channels(rt, ledger.table(), plain, n);
        connections(rt, ledger.table(), plain, n);
        offers(rt, ledger.table(), plain, n);
        has_none(rt, ledger.table(), SocketAddr::new(address(n).ip(), 4_001));
    }
}

fn allocations(rt: &impl Abort, ledger: &GrantLedger, plain: &Plain, n: u8) {
    let relayed = address(n);
    let is_in_use = plain.has_relayed(n);
    same(rt, ledger.has_relayed(TRANSPORT, relayed), is_in_use);
    same(rt, ledger.has_relayed(TransportType::Udp, relayed), false);
    same(rt, ledger.table().has_relayed(relayed), is_in_use);
    let found = ledger.find_allocation_to(TRANSPORT, relayed.ip());
    same(rt, found, plain.relay(n));
    let same_family = ledger.table().find_allocation(family(n));
    same(rt, same_family, plain.relay(n));
}

fn permissions(rt: &impl Abort, ledger: &GrantLedger, plain: &Plain, n: u8) {
    let ip = address(n).ip();
    let table = ledger.table();
    same(rt, table.permission_state(ip), plain.permission(n));
    same(
        rt,
        table.has_active_permission(ip),
        plain.has_active_permission(n),
    );
    same(rt, ledger.can_send_to(TRANSPORT, ip), plain.may_send(n));
}

fn channels(rt: &impl Abort, table: &GrantTable, plain: &Plain, n: u8) {
    same(rt, table.has_channel(address(n)), plain.has_channel(n));
    let active = table.active_channel(address(n));
    same(rt, active, plain.active_channel(n));
}

fn connections(rt: &impl Abort, table: &GrantTable, plain: &Plain, n: u8) {
    let peer = address(n);
    same(rt, table.connection_at(peer), plain.connection(n));
    same(rt, table.bound_connection(peer), plain.bound_connection(n));
    same(rt, table.is_connected(peer), plain.is_connected(n));
    same(rt, table.is_connecting(peer), plain.is_connecting(n));
}

/// Each connection ID, and one that no offer has.
fn offers(rt: &impl Abort, table: &GrantTable, plain: &Plain, n: u8) {
    for id in 0..4u32 {
        let origin = table.offer_origin(id, address(n));
        same(rt, origin, plain.origin(id, n));
    }
}

/// No row has this address.
fn has_none(rt: &impl Abort, table: &GrantTable, other: SocketAddr) {
    same(rt, table.has_relayed(other), false);
    same(rt, table.has_channel(other), false);
    same(rt, table.active_channel(other), None);
    same(rt, table.connection_at(other), None);
    same(rt, table.is_connected(other), false);
    same(rt, table.is_connecting(other), false);
}
