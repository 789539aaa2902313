//! One call of a gatherer, of any kind.

ghost use Rattle.std.specs.Prelude.{◌≡◌, ◌⊎◌, ◌≤◌, ◌^◌, true, is_ok, IfOk, Ok, OnErr};
ghost use Rattle.turn_gather.specs.Drive.{IsCopied, IsGatherCallable, gather_reply_of, gather_step, gathered_reply};
ghost use Rattle.turn_gather.specs.Received.{gathered_of};
ghost use Rattle.turn_client_api.specs.Answers.{EndsAfterSteps, RecvEnds};
ghost use Rattle.turn_client_api.specs.Calls.{FitsDatagram, create_permission_step, send_to_step};

use crate::calls::{GatherCall, GatherReply};
use crate::error::GatherError;
use crate::gatherer::Gatherer;
use crate::receive::GatherRecv;
use std::alloc::{AllocError, Global};
use std::convert::AsSlice;
use std::fmt::Debug;
use std::net::{IpAddr, SocketAddr};
use turn_client_api::{CreatePermissionError, TurnClientApi};
use turn_client_calls::{PeerData, RelayedAddresses};
use turn_stun::data::Data;
use turn_stun::instant::Instant;
use turn_stun::transport::{Transmit, TransportType};

/// Makes this call and returns its answer. If memory allocation fails, for the call or for its answer,
/// the gatherer is not used any more.
pub(crate) fn reply_to<C: TurnClientApi>(
    alloc: Global,
    gatherer: &mut Gatherer<C>,
    call: &GatherCall,
) -> Result<GatherReply, AllocError>
    requires { IsGatherCallable gatherer.old.client.config.allocation_transport call.now }
    ensures { IfOk result (λ reply. (reply, gatherer.new) ≡ gather_step gatherer.old call.now) }
{
    match call {
        GatherCall::Candidates => candidates(alloc, gatherer),
        GatherCall::IsChecked { transport, peer } => Ok(GatherReply::IsChecked(gatherer.is_checked(
            *transport, *peer,
        ))),
        GatherCall::Check { transport, peer } => check(gatherer, *transport, *peer),
        GatherCall::Recv { transmit, now } => recv(alloc, gatherer, transmit, *now),
        GatherCall::PollRecv { now } => poll_recv(alloc, gatherer, *now),
        GatherCall::CreatePermission {
            transport,
            peer_addr,
            now,
        } => create_permission(gatherer, *transport, *peer_addr, *now),
        GatherCall::SendTo {
            transport,
            to,
            data,
            now,
        } => send_to(alloc, gatherer, *transport, *to, data, *now),
        GatherCall::Poll { now } => Ok(GatherReply::Poll(gatherer.poll(*now)?)),
        GatherCall::PollTransmit { now } => Ok(GatherReply::Transmit(gatherer.poll_transmit(
            *now,
        )?)),
        GatherCall::PollEvent => Ok(GatherReply::Event(gatherer.poll_event())),
    }
}

/// The candidates.
fn candidates<C: TurnClientApi>(
    alloc: Global,
    gatherer: &Gatherer<C>,
) -> Result<GatherReply, AllocError>
    ensures { IfOk result (λ reply. (reply, gatherer.now) ≡ gather_step gatherer.now GatherCall.Candidates) }
{
    Ok(GatherReply::Candidates(RelayedAddresses::from(gatherer.candidates(alloc)?)))
}

/// Marks the pair as checked.
fn check<C: TurnClientApi>(
    gatherer: &mut Gatherer<C>,
    transport: TransportType,
    peer: SocketAddr,
) -> Result<GatherReply, AllocError>
    ensures { IfOk result (λ reply. (reply, gatherer.new) ≡ gather_step gatherer.old (GatherCall.Check transport peer)) }
{
    match gatherer.check(transport, peer) {
        Err(GatherError::OutOfMemory) => Err(AllocError),
        answer => Ok(GatherReply::Check(answer)),
    }
}

/// Passes a packet to the gatherer; the caller keeps the bytes.
fn recv<C: TurnClientApi>(
    alloc: Global,
    gatherer: &mut Gatherer<C>,
    transmit: &Transmit<Data>,
    now: Instant,
) -> Result<GatherReply, AllocError>
    requires { now ≤ 2 ^ 62 }
    ensures answer { IfOk result (λ reply. (reply, gatherer.new) ≡ gather_step gatherer.old (GatherCall.Recv transmit.now now)) }
    ensures wanted { OnErr result (RecvEnds transmit.now.to transmit.now.payload now gatherer.old.client gatherer.new.client
        ⊎ IsCopied (gather_reply_of (GatherCall.Recv transmit.now now) gatherer.old)) }
{
    let bytes = transmit.payload.as_bytes();
    let packet = Transmit::new(bytes, transmit.transport, transmit.from, transmit.to);
    let given = gatherer.recv(packet, now)?;
    as_reply(alloc, &given)
}

/// Polls for the next payload of a peer in the streams.
fn poll_recv<C: TurnClientApi>(
    alloc: Global,
    gatherer: &mut Gatherer<C>,
    now: Instant,
) -> Result<GatherReply, AllocError>
    requires { now ≤ 2 ^ 62 }
    ensures answer { IfOk result (λ reply. (reply, gatherer.new) ≡ gather_step gatherer.old (GatherCall.PollRecv now)) }
    ensures wanted { OnErr result (EndsAfterSteps now gatherer.old.client gatherer.new.client
        ⊎ IsCopied (gather_reply_of (GatherCall.PollRecv now) gatherer.old)) }
{
    match gatherer.poll_recv(now)? {
        Some(given) => as_reply(alloc, &given),
        None => Ok(GatherReply::NoPayload),
    }
}

/// The answer of `recv` and `poll_recv`, with its own copy of the bytes.
fn as_reply<T: AsSlice<u8> + Debug + Drop>(
    alloc: Global,
    given: &GatherRecv<T>,
) -> Result<GatherReply, AllocError>
    ensures answer { IfOk result (λ reply. reply ≡ gathered_reply (gathered_of given.now)) }
    ensures copied { OnErr result (IsCopied (gathered_reply (gathered_of given.now))) }
{
    match given {
        GatherRecv::Handled => Ok(GatherReply::Handled),
        GatherRecv::Ignored(_) => Ok(GatherReply::Ignored),
        GatherRecv::Payload(given) => Ok(GatherReply::Payload(PeerData::copy_of(alloc, given)?)),
        GatherRecv::Dropped => Ok(GatherReply::Dropped),
    }
}

/// Requests a permission.
fn create_permission<C: TurnClientApi>(
    gatherer: &mut Gatherer<C>,
    transport: TransportType,
    peer_addr: IpAddr,
    now: Instant,
) -> Result<GatherReply, AllocError>
    requires { now ≤ 2 ^ 62 }
    ensures answer { IfOk result (λ reply. (reply, gatherer.new) ≡ gather_step gatherer.old (GatherCall.CreatePermission transport peer_addr now)) }
    ensures wanted { OnErr result ((create_permission_step transport peer_addr now gatherer.old.client).0 ≡ Ok tt) }
{
    match gatherer.create_permission(transport, peer_addr, now) {
        Err(CreatePermissionError::OutOfMemory) => Err(AllocError),
        answer => Ok(GatherReply::CreatePermission(answer)),
    }
}

/// Sends data to a peer: the packet is built at once, and memory is wanted for nothing else.
fn send_to<C: TurnClientApi>(
    alloc: Global,
    gatherer: &mut Gatherer<C>,
    transport: TransportType,
    to: SocketAddr,
    payload: &Data,
    now: Instant,
) -> Result<GatherReply, AllocError>
    requires now_in_range { now ≤ 2 ^ 62 }
    requires short { FitsDatagram gatherer.old.client.config.allocation_transport payload.now }
    ensures answer { IfOk result (λ reply. (reply, gatherer.new) ≡ gather_step gatherer.old (GatherCall.SendTo transport to payload.now now)) }
    ensures wanted { OnErr result (is_ok (send_to_step transport to payload.now now gatherer.old.client).0 ≡ true) }
{
    match gatherer.send_to(transport, to, payload.as_bytes(), now) {
        Ok(Some(packet)) => Ok(GatherReply::SendTo(Ok(packet.build(alloc)?))),
        Ok(None) => unreachable!(),
        Err(refusal) => Ok(GatherReply::SendTo(Err(refusal))),
    }
}
