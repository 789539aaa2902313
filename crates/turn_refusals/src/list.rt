//! The calls that list addresses. Each lists them without a copy, for which it would need memory.

use crate::signal::signal;
use std::io::Write;
use std::net::SocketAddr;
use turn_client_api::TurnClientApi;
use turn_stun::transport::TransportType;

/// Lists the relayed addresses.
pub fn relayed_addresses<C: TurnClientApi, W: Write>(client: &C, writer: &mut W) {
    signal(writer);
    for _ in client.relayed_addresses() {}
    signal(writer);
}

/// Lists the peer IP addresses with a permission in the allocation with this relayed address.
pub fn permissions<C: TurnClientApi, W: Write>(
    client: &C,
    transport: TransportType,
    relayed: SocketAddr,
    writer: &mut W,
) {
    signal(writer);
    for _ in client.permissions(transport, relayed) {}
    signal(writer);
}
