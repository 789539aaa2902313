//! The paths by which the original crate's own sources and tests import items name the same items here.
//!
//! Each function before the test compiles only if the types of its argument, by the paths of the crates that define
//! them, are those of its result, by the original paths.

use crate::fixture::{same, same_bytes};
use crate::proto::fixture::FIRST_ALLOCATE;
use std::test::Fail;
use turn_client_proto::prelude::{DelayedTransmitBuild, TurnClientApi};
use turn_client_proto::types::message::{
    ALLOCATE, CHANNEL_BIND, CONNECT, CONNECTION_ATTEMPT, CONNECTION_BIND, CREATE_PERMISSION, DATA,
    REFRESH, SEND,
};
use turn_client_proto::types::stun::attribute::{ErrorCode, Nonce, Realm};
use turn_client_proto::types::stun::message::{
    MessageClass, MessageHeader, MessageType, MessageWriteVec,
};
use turn_client_proto::types::stun::prelude::AttributeFromRaw;
use turn_client_proto::{api, client, stun, tcp, types, udp};

fn agents(
    items: (
        turn_agent::StunAgent,
        turn_agent::StunAgentBuilder,
        turn_agent::StunAgentPollRet,
        turn_auth::LongTermClientAuth,
        turn_auth::Feature,
    ),
) -> (
    stun::agent::StunAgent,
    stun::agent::StunAgentBuilder,
    stun::agent::StunAgentPollRet,
    stun::auth::LongTermClientAuth,
    stun::auth::Feature,
) {
    items
}

fn packets(
    items: (
        turn_stun::Transmit<turn_stun::Data>,
        turn_stun::Transmit<turn_stun::Data>,
        turn_stun::TransportType,
        turn_stun::TransportType,
        turn_stun::Instant,
        turn_stun::Instant,
        turn_stun::Instant,
    ),
) -> (
    stun::agent::Transmit<stun::types::data::Data>,
    api::Transmit<api::Data>,
    stun::types::TransportType,
    types::TransportType,
    stun::Instant,
    stun::instant::Instant,
    types::Instant,
) {
    items
}

fn messages<'a>(
    items: (
        turn_stun::Message<'a>,
        turn_stun::MessageClass,
        turn_stun::TransactionId,
        turn_stun::TransactionId,
        turn_auth::IntegrityAlgorithm,
        turn_stun::Method,
    ),
) -> (
    stun::types::message::Message<'a>,
    stun::types::message::MessageClass,
    stun::types::message::TransactionId,
    types::stun::message::TransactionId,
    types::stun::message::IntegrityAlgorithm,
    types::stun::message::Method,
) {
    items
}

fn stun_attributes<'a>(
    items: (
        turn_stun::ErrorCode<'a>,
        turn_stun::Userhash,
        turn_stun::Userhash,
        turn_stun::Username<'a>,
        turn_stun::XorSocketAddr,
    ),
) -> (
    stun::types::attribute::ErrorCode<'a>,
    stun::types::attribute::Userhash,
    types::stun::attribute::Userhash,
    types::stun::attribute::Username<'a>,
    types::stun::attribute::XorSocketAddr,
) {
    items
}

fn turn_attributes<'a>(
    items: (
        turn_types::attribute::AdditionalAddressFamily,
        turn_types::attribute::ChannelNumber,
        turn_types::attribute::ConnectionId,
        turn_types::attribute::Data<'a>,
        turn_types::attribute::DontFragment,
        turn_types::attribute::Icmp,
    ),
) -> (
    types::attribute::AdditionalAddressFamily,
    types::attribute::ChannelNumber,
    types::attribute::ConnectionId,
    types::attribute::Data<'a>,
    types::attribute::DontFragment,
    types::attribute::Icmp,
) {
    items
}

fn more_turn_attributes(
    items: (
        turn_types::attribute::Lifetime,
        turn_types::attribute::RequestedAddressFamily,
        turn_types::attribute::RequestedTransport,
        turn_types::attribute::XorPeerAddress,
        turn_types::attribute::XorRelayedAddress,
    ),
) -> (
    types::attribute::Lifetime,
    types::attribute::RequestedAddressFamily,
    types::attribute::RequestedTransport,
    types::attribute::XorPeerAddress,
    types::attribute::XorRelayedAddress,
) {
    items
}

fn frames<'a>(
    items: (
        turn_types::channel::ChannelData<'a>,
        turn_types::tcp::TurnTcpBuffer,
        turn_types::tcp::IncomingTcp<Vec<u8>>,
        turn_types::tcp::StoredTcp,
    ),
) -> (
    types::channel::ChannelData<'a>,
    types::tcp::TurnTcpBuffer,
    types::tcp::IncomingTcp<Vec<u8>>,
    types::tcp::StoredTcp,
) {
    items
}

fn delayed(
    items: (
        turn_types::transmit::DelayedChannel<Vec<u8>>,
        turn_types::transmit::DelayedMessage<Vec<u8>>,
        turn_types::transmit::TransmitBuild<types::transmit::DelayedChannel<Vec<u8>>>,
    ),
) -> (
    types::transmit::DelayedChannel<Vec<u8>>,
    types::transmit::DelayedMessage<Vec<u8>>,
    types::transmit::TransmitBuild<types::transmit::DelayedChannel<Vec<u8>>>,
) {
    items
}

fn configuration(
    items: (
        turn_auth::TurnCredentials,
        turn_types::AddressFamily,
        turn_client_api::TurnConfig,
        turn_client_api::Socket5Tuple,
        turn_client_api::DataRangeOrOwned<Vec<u8>>,
        turn_client_api::TurnPeerData<Vec<u8>>,
    ),
) -> (
    types::TurnCredentials,
    types::AddressFamily,
    api::TurnConfig,
    api::Socket5Tuple,
    api::DataRangeOrOwned<Vec<u8>>,
    api::TurnPeerData<Vec<u8>>,
) {
    items
}

fn results(
    items: (
        turn_client_api::TcpAllocateError,
        turn_client_api::TcpConnectError,
        turn_client_api::TurnRecvRet<Vec<u8>>,
        turn_client_api::DelayedMessageOrChannelSend<Vec<u8>>,
        turn_client_api::TurnEvent,
        turn_client_api::TurnPollRet,
    ),
) -> (
    api::TcpAllocateError,
    api::TcpConnectError,
    api::TurnRecvRet<Vec<u8>>,
    api::DelayedMessageOrChannelSend<Vec<u8>>,
    api::TurnEvent,
    api::TurnPollRet,
) {
    items
}

fn refusals_by_udp(
    items: (
        turn_client_api::BindChannelError,
        turn_client_api::CreatePermissionError,
        turn_client_api::DeleteError,
        turn_client_api::SendError,
        turn_client_api::TurnEvent,
        turn_client_api::TurnPollRet,
        turn_client_api::TurnRecvRet<Vec<u8>>,
    ),
) -> (
    udp::BindChannelError,
    udp::CreatePermissionError,
    udp::DeleteError,
    udp::SendError,
    udp::TurnEvent,
    udp::TurnPollRet,
    udp::TurnRecvRet<Vec<u8>>,
) {
    items
}

fn refusals_by_tcp(
    items: (
        turn_client_api::BindChannelError,
        turn_client_api::CreatePermissionError,
        turn_client_api::DeleteError,
        turn_client_api::SendError,
        turn_client_api::TurnEvent,
        turn_client_api::TurnPollRet,
        turn_client_api::TurnRecvRet<Vec<u8>>,
    ),
) -> (
    tcp::BindChannelError,
    tcp::CreatePermissionError,
    tcp::DeleteError,
    tcp::SendError,
    tcp::TurnEvent,
    tcp::TurnPollRet,
    tcp::TurnRecvRet<Vec<u8>>,
) {
    items
}

fn refusals_by_client(
    items: (
        turn_client_api::BindChannelError,
        turn_client_api::CreatePermissionError,
        turn_client_api::DeleteError,
        turn_client_api::SendError,
        turn_client_api::TurnEvent,
        turn_client_api::TurnPollRet,
        turn_client_api::TurnRecvRet<Vec<u8>>,
    ),
) -> (
    client::BindChannelError,
    client::CreatePermissionError,
    client::DeleteError,
    client::SendError,
    client::TurnEvent,
    client::TurnPollRet,
    client::TurnRecvRet<Vec<u8>>,
) {
    items
}

/// The error response to the first ALLOCATE that makes the client sign (RFC 8489, section 9.2.4): 401 with the realm
/// `realm` and the nonce `nonce`, and no reason.
const CHALLENGE: &[u8] = &[
    0x01, 0x13, 0x00, 0x20, 0x21, 0x12, 0xa4, 0x42, 0x76, 0xb8, 0xe0, 0xad, 0xa0, 0xf1, 0x3d, 0x90,
    0x40, 0x5d, 0x6a, 0xe5, 0x00, 0x09, 0x00, 0x04, 0x00, 0x00, 0x04, 0x01, 0x00, 0x14, 0x00, 0x05,
    0x72, 0x65, 0x61, 0x6c, 0x6d, 0x00, 0x00, 0x00, 0x00, 0x15, 0x00, 0x05, 0x6e, 0x6f, 0x6e, 0x63,
    0x65, 0x00, 0x00, 0x00,
];

fn carrier<C: TurnClientApi>(client: &C) -> types::TransportType {
    client.transport()
}

fn length<P: DelayedTransmitBuild>(packet: &P) -> usize {
    packet.len()
}

fn read<'a, A: AttributeFromRaw<'a> + Drop>(message: &types::stun::message::Message<'a>) -> bool {
    message.attribute::<A>().is_ok()
}

fn clients<'a>(
    udp: &'a udp::TurnClientUdp,
    tcp: &'a tcp::TurnClientTcp,
) -> (types::TransportType, types::TransportType) {
    (carrier(udp), carrier(tcp))
}

#[test]
fn a_challenge_is_written_by_the_original_paths(rt: HostRuntime) -> Result<(), Fail> {
    let request = MessageHeader::from_bytes(FIRST_ALLOCATE)?;
    let method = request.message_type.method;
    let class = MessageClass::Error;
    let mut message = MessageWriteVec::builder(
        rt.alloc(),
        MessageType { method, class },
        request.transaction_id,
    )?;
    message.add_attribute(&ErrorCode::new(401, b""))?;
    message.add_attribute(&Realm::new(b"realm"))?;
    message.add_attribute(&Nonce::new(b"nonce"))?;
    same_bytes(&rt, message.as_bytes(), CHALLENGE);
    Ok(())
}

/// RFC 8656, section 17, and RFC 6062, section 6.1.
#[test]
fn methods_have_their_numbers(rt: HostRuntime) {
    let numbers = [
        ALLOCATE,
        REFRESH,
        SEND,
        DATA,
        CREATE_PERMISSION,
        CHANNEL_BIND,
    ];
    same(&rt, numbers.map(|method| method.value), [3, 4, 6, 7, 8, 9]);
    let numbers = [CONNECT, CONNECTION_BIND, CONNECTION_ATTEMPT];
    same(&rt, numbers.map(|method| method.value), [10, 11, 12]);
}
