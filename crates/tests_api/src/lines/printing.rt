//! Answers that no client gives to the calls of a trace.

use crate::fixture::same_bytes;
use std::net::{Ipv6Addr, SocketAddr, SocketAddrV6};
use std::test::Fail;
use turn_client_calls::{PeerData, RelayedAddresses, Reply};
use turn_lines::print::answers_text;
use turn_stun::data::Data;
use turn_types::TransportType;

/// An address with a flow information and a scope, which no line has.
fn peer_with_scope() -> SocketAddr {
    let ip = Ipv6Addr::new(0x2001, 0xdb8, 0, 0, 0, 0, 0, 1);
    SocketAddr::V6(SocketAddrV6::new(ip, 5, 6, 7))
}

#[test]
fn an_address_is_printed_without_its_scope(rt: HostRuntime) -> Result<(), Fail> {
    let relayed = Vec::from_slice(rt.alloc(), &[(TransportType::Tcp, peer_with_scope())])?;
    let replies = [Reply::RelayedAddresses(RelayedAddresses::from(relayed))];
    let text = answers_text(rt.alloc(), &replies)?;
    let want = "list 1 tcp [20010db8000000000000000000000001]:5\n";
    same_bytes(&rt, text.as_bytes(), want.as_bytes());
    Ok(())
}

#[test]
fn empty_data_over_tcp_is_a_hyphen(rt: HostRuntime) -> Result<(), Fail> {
    let replies = [Reply::PeerData(PeerData {
        transport: TransportType::Tcp,
        peer: peer_with_scope(),
        data: Data::from(Vec::new(rt.alloc())),
    })];
    let text = answers_text(rt.alloc(), &replies)?;
    let want = "data tcp [20010db8000000000000000000000001]:5 -\n";
    same_bytes(&rt, text.as_bytes(), want.as_bytes());
    Ok(())
}
