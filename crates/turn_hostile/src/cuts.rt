//! A run over TCP with its streams in other pieces: the same payloads.

ghost use Rattle.std.specs.Prelude.{◌≤◌, ◌^◌};
ghost use Rattle.turn_stun.specs.declared.transport.TransportType.TheVariants.{Udp};
ghost use Rattle.turn_client_calls.specs.Run.{IsCallable};

use crate::session::{call_of, head_of};
use std::alloc::Global;
use turn_client_api::{Call, TurnClientApi, TurnRecvRet};
use turn_client_calls::reply_to;
use turn_hostile_net::cuts::{Cut, Cuts, Payloads};
use turn_hostile_net::fault::{Fault, expect};
use turn_hostile_net::world::Kind;
use turn_line_client::client::new_client;
use turn_stun::data::Data;
use turn_stun::instant::Instant;
use turn_stun::transport::Transmit;
use turn_types::TransportType;

/// More pieces, and more payloads, than there are at once here.
const MANY: u32 = 4_096;

/// How streams are cut, and what payloads a client then returns.
#[derive(Drop)]
struct Pieces {
    cuts: Cuts,
    payloads: Payloads,
}

/// The same payloads come, however the streams of this trace are cut.
///
/// # Errors
///
/// `Wrong` if other payloads come, and `OutOfMemory` if memory allocation fails.
pub fn same_payloads(alloc: Global, kind: Kind, seed: u64, trace: &str) -> Result<(), Fault> {
    let whole = payloads_of(alloc, kind, seed, trace, Cut::Whole)?;
    let bytes = payloads_of(alloc, kind, seed, trace, Cut::Bytes)?;
    expect(bytes == whole, "a stream byte by byte has other payloads")?;
    let drawn = payloads_of(alloc, kind, seed, trace, Cut::Drawn)?;
    expect(drawn == whole, "a stream in pieces has other payloads")
}

/// The payloads that a new client returns for the calls of this trace with its streams cut so.
fn payloads_of(
    alloc: Global,
    kind: Kind,
    seed: u64,
    trace: &str,
    cut: Cut,
) -> Result<Vec<u8>, Fault> {
    let is_stream = kind.relays == TransportType::Tcp;
    let pieces = Pieces {
        cuts: Cuts::new(cut, seed),
        payloads: Payloads::new(alloc, is_stream),
    };
    let head = head_of(alloc, kind, seed)?;
    let mut client = new_client(alloc, head)?;
    let payloads = payloads_through(alloc, &mut client, trace, pieces);
    drop(client);
    payloads
}

fn payloads_through<C: TurnClientApi>(
    alloc: Global,
    client: &mut C,
    trace: &str,
    mut pieces: Pieces,
) -> Result<Vec<u8>, Fault> {
    for line in trace.lines() {
        let call = call_of(alloc, line.as_bytes())?;
        pieces.call(alloc, client, &call)?;
    }
    Ok(pieces.payloads.bytes)
}

/// Makes a call whose reply is of no interest.
fn make_only<C: TurnClientApi>(alloc: Global, client: &mut C, call: &Call) -> Result<(), Fault>
    requires { IsCallable Udp call.now }
{
    reply_to(alloc, client, call)?;
    Ok(())
}

impl Pieces {
    /// Makes a call, in pieces if it passes bytes in.
    fn call<C: TurnClientApi>(
        &mut self,
        alloc: Global,
        client: &mut C,
        call: &Call,
    ) -> Result<(), Fault>
        requires { IsCallable Udp call.now }
    {
        match call {
            Call::Recv { transmit, now } => self.pass_in(client, transmit, *now),
            Call::PollRecv { .. } => Ok(()),
            _ => make_only(alloc, client, call),
        }
    }

    /// Passes bytes in, piece by piece.
    fn pass_in<C: TurnClientApi>(
        &mut self,
        client: &mut C,
        packet: &Transmit<Data>,
        now: Instant,
    ) -> Result<(), Fault>
        requires { now ≤ 2 ^ 62 }
    {
        let mut rest = packet.payload.as_bytes();
        for _ in 0..MANY {
            let (piece, after) = rest.split_at(self.cuts.next(rest.len()));
            let piece = Transmit::new(piece, packet.transport, packet.from, packet.to);
            self.pass_piece(client, piece, now)?;
            if after.is_empty() {
                break;
            }
            rest = after;
        }
        Ok(())
    }

    /// Passes a piece in, and takes all payloads that the client then holds.
    fn pass_piece<C: TurnClientApi>(
        &mut self,
        client: &mut C,
        piece: Transmit<&[u8]>,
        now: Instant,
    ) -> Result<(), Fault>
        requires { now ≤ 2 ^ 62 }
    {
        if let TurnRecvRet::PeerData(given) = client.recv(piece, now)? {
            self.payloads.note(given.peer, given.data())?;
        }
        for _ in 0..MANY {
            match client.poll_recv(now)? {
                Some(given) => self.payloads.note(given.peer, given.data())?,
                None => break,
            }
        }
        Ok(())
    }
}
