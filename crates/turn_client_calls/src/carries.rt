//! The replies of the calls that carry data to and from peers.

ghost use Rattle.std.specs.Prelude.{◌≡◌, ◌≤◌, ◌^◌, IfOk, OnErr, option_map};
ghost use Rattle.turn_client_api.specs.Answers.{given_payload, outcome_of};
ghost use Rattle.turn_client_api.specs.Calls.{FitsDatagram};
ghost use Rattle.turn_client_calls.specs.Run.{poll_recv_reply, recv_reply, step};
ghost use Rattle.turn_client_calls.specs.Wanted.{FailsForMemory, IsCopied};

use crate::{Call, PeerData, Reply};
use std::alloc::{AllocError, Global};
use std::convert::AsSlice;
use std::net::SocketAddr;
use turn_client_api::{TurnClientApi, TurnPeerData, TurnRecvRet};
use turn_stun::data::Data;
use turn_stun::instant::Instant;
use turn_stun::transport::{Transmit, TransportType};

/// Sends data to a peer: the packet is built at once.
pub(crate) fn send_to<C: TurnClientApi>(
    alloc: Global,
    client: &mut C,
    transport: TransportType,
    to: SocketAddr,
    payload: &Data,
    now: Instant,
) -> Result<Reply, AllocError>
    requires now_in_range { now ≤ 2 ^ 62 }
    requires short { FitsDatagram (C.state client.old).config.allocation_transport payload.now }
    ensures ok { IfOk result (λ reply. (reply, C.state client.new) ≡ step (C.state client.old) (Call.SendTo transport to payload.now now)) }
    ensures no_memory { OnErr result (FailsForMemory (Call.SendTo transport to payload.now now) (C.state client.old) (C.state client.new)) }
{
    match client.send_to(transport, to, payload.as_bytes(), now) {
        Ok(Some(packet)) => Ok(Reply::SendTo(Ok(packet.build(alloc)?))),
        Ok(None) => unreachable!(),
        Err(refusal) => Ok(Reply::SendTo(Err(refusal))),
    }
}

/// Processes a received packet, of which the caller keeps the bytes.
pub(crate) fn recv<C: TurnClientApi>(
    alloc: Global,
    client: &mut C,
    transmit: &Transmit<Data>,
    now: Instant,
) -> Result<Reply, AllocError>
    requires { now ≤ 2 ^ 62 }
    ensures ok { IfOk result (λ reply. (reply, C.state client.new) ≡ step (C.state client.old) (Call.Recv transmit.now now)) }
    ensures no_memory { OnErr result (FailsForMemory (Call.Recv transmit.now now) (C.state client.old) (C.state client.new)) }
{
    let bytes = transmit.payload.as_bytes();
    let packet = Transmit::new(bytes, transmit.transport, transmit.from, transmit.to);
    let returned = client.recv(packet, now)?;
    received(alloc, returned)
}

/// The reply of a `recv` that returned this, with a copy of a peer's data.
///
/// # Errors
///
/// If memory allocation for the copy fails, which is not empty.
pub fn received<T: AsSlice<u8> + Drop>(
    alloc: Global,
    returned: TurnRecvRet<T>,
) -> Result<Reply, AllocError>
    ensures reply { IfOk result (λ reply. reply ≡ recv_reply (outcome_of returned)) }
    ensures copied { OnErr result (IsCopied (recv_reply (outcome_of returned))) }
{
    match returned {
        TurnRecvRet::Handled => Ok(Reply::Handled),
        TurnRecvRet::Ignored(_) => Ok(Reply::Ignored),
        TurnRecvRet::PeerData(given) => Ok(Reply::PeerData(PeerData::copy_of(alloc, &given)?)),
        TurnRecvRet::PeerIcmp {
            transport,
            peer,
            icmp_type,
            icmp_code,
            icmp_data,
        } => Ok(Reply::PeerIcmp {
            transport,
            peer,
            icmp_type,
            icmp_code,
            icmp_data,
        }),
    }
}

/// Returns the next data of a peer that the streams hold.
pub(crate) fn poll_recv<C: TurnClientApi>(
    alloc: Global,
    client: &mut C,
    now: Instant,
) -> Result<Reply, AllocError>
    requires { now ≤ 2 ^ 62 }
    ensures ok { IfOk result (λ reply. (reply, C.state client.new) ≡ step (C.state client.old) (Call.PollRecv now)) }
    ensures no_memory { OnErr result (FailsForMemory (Call.PollRecv now) (C.state client.old) (C.state client.new)) }
{
    let returned = client.poll_recv(now)?;
    drained(alloc, returned)
}

/// The reply of a `poll_recv` that returned this, with a copy of a peer's data.
///
/// # Errors
///
/// If memory allocation for the copy fails, which is not empty.
pub fn drained(alloc: Global, returned: Option<TurnPeerData<Vec<u8>>>) -> Result<Reply, AllocError>
    ensures reply { IfOk result (λ reply. reply ≡ poll_recv_reply (option_map given_payload returned)) }
    ensures copied { OnErr result (IsCopied (poll_recv_reply (option_map given_payload returned))) }
{
    match returned {
        Some(given) => Ok(Reply::PeerData(PeerData::copy_of(alloc, &given)?)),
        None => Ok(Reply::NoData),
    }
}
