//! What is looked up by the ID of a request.

use crate::fixture::same;
use crate::grants::plain::{Plain, address, id};
use std::process::Abort;
use turn_client_grants::GrantTable;
use turn_stun::transaction::TransactionId;

/// Each of the 16 IDs, and one that no request has.
pub(crate) fn are_same(rt: &impl Abort, table: &GrantTable, plain: &Plain) {
    for n in 0..16u8 {
        listings(rt, table, plain, n);
        binds(rt, table, plain, n);
    }
    let other = TransactionId::from_bytes([16; 12]);
    same(rt, table.is_listed(other), false);
    same(rt, table.purposes_of(other).first, None);
}

fn listings(rt: &impl Abort, table: &GrantTable, plain: &Plain, n: u8) {
    let purposes = table.purposes_of(id(n));
    same(rt, purposes.first, plain.purpose(n, 0));
    same(rt, purposes.second, plain.purpose(n, 1));
    same(rt, purposes.has_some(), plain.is_asked(n));
    same(rt, table.is_listed(id(n)), plain.is_listed(n));
}

fn binds(rt: &impl Abort, table: &GrantTable, plain: &Plain, n: u8) {
    for local in 0..8u8 {
        let purpose = table.bind_purpose(id(n), address(local));
        same(rt, purpose, plain.bind_purpose(n, local));
    }
}
