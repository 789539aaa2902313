//! The list of a client's streams.

ghost use Rattle.std.specs.Prelude.{◌≡◌, ◌<◌, OnOk, IfOk, IsOk, Some, option_copied, option_map};
ghost use Rattle.std.specs.List.{position};
ghost use Rattle.turn_agent.specs.Agent.{same_address};
ghost use Rattle.turn_stun.specs.declared.transport.TransportType.TheVariants.{Udp};
ghost use Rattle.turn_client_api.specs.Calls.{with_stream};
ghost use Rattle.turn_client_api.specs.Connections.{with_mode};
ghost use Rattle.turn_client_api.specs.State.{State, first_streams};
ghost use Rattle.turn_client_api.specs.Streams.{broken_at, stream_at, without_stream};
ghost use Rattle.turn_client_streams.specs.Held.{control_passed, control_stream, with_streams};
ghost use Rattle.turn_types.specs.Frames.{frame_len};

mod put;
mod take;

use crate::buffered::BufferedStream;
use std::alloc::{AllocError, Global};
use std::marker::Model;
use std::net::SocketAddr;
use turn_client_api::Mode;
use turn_stun::transport::TransportType;

/// The streams of a client, in the order in which they were opened, which is that in which they are
/// processed. No two have one local address. A client over UDP has none.
///
/// To process a frame, its stream is taken out, and put back without that frame: meanwhile the list has
/// it with no bytes, and another call may change its mode.
#[derive(Debug, Drop)]
pub struct Streams {
    alloc: Global,
    list: Vec<BufferedStream>,
}

impl Model for Streams {
    ghost use Rattle.std.specs.Prelude.{◌-◌, vec_capacity, vec_len};
    ghost use Rattle.turn_client_streams.specs.Held.{HasOwnEnds, Held};

    ghost Value = { Held };

    ghost view = { λ s. record { list = s.list.items; room = vec_capacity s.list - vec_len s.list } };

    ghost invariant = { λ s. HasOwnEnds s.list.items };
}

/// The place of the stream at this local address.
fn place_at(list: &[BufferedStream], local: SocketAddr) -> Option<usize>
    ensures { result ≡ position (λ stream. same_address stream.local local) list.now }
{
    list.iter().position(|stream| stream.local() == local)
}

impl Streams {
    /// The streams of a new client: over TCP that of its control connection, and over UDP none.
    ///
    /// # Errors
    ///
    /// `AllocError` if memory allocation fails. Over UDP none is needed.
    pub fn new(
        alloc: Global,
        transport: TransportType,
        local: SocketAddr,
    ) -> Result<Streams, AllocError>
        ensures first { IfOk result (λ streams. streams.list ≡ first_streams transport local) }
        ensures udp { transport ≡ Udp → IsOk result }
    {
        let mut list = Vec::new(alloc);
        if transport == TransportType::Tcp {
            list.push(BufferedStream::new(alloc, local, Mode::Control))?;
        }
        Ok(Streams { alloc, list })
    }

    /// The stream at this local address.
    pub fn get(&self, local: SocketAddr) -> Option<&BufferedStream>
        ensures { (s : State) → option_copied result ≡ stream_at local (with_streams self.now.list s) }
    {
        let Some(place) = place_at(self.list.as_slice(), local) else {
            return None;
        };
        Some(&self.list[place])
    }

    /// The stream of the control connection, if it is the first one and not broken. If it can be processed, it
    /// is the first one that can.
    pub fn control(&self) -> Option<&BufferedStream>
        ensures { option_copied result ≡ control_stream self.now.list }
    {
        let Some(first) = self.list.first() else {
            return None;
        };
        if first.is_control() {
            return Some(first);
        }
        None
    }

    /// Drops the first frame of that stream, which is whole and has so many bytes. Allocates no memory.
    pub fn pass_control(&mut self, len: usize)
        requires { option_map (λ stream. frame_len stream.bytes) (control_stream self.old.list) ≡ Some (Some len) }
        ensures { (s : State) → with_streams self.new.list s ≡ control_passed (with_streams self.old.list s) }
    {
        self.list[0].pass(len);
    }

    /// Breaks the stream at this local address: its buffered bytes are dropped, and nothing more is read
    /// from it.
    pub fn break_at(&mut self, local: SocketAddr)
        ensures { (s : State) → with_streams self.new.list s ≡ broken_at local (with_streams self.old.list s) }
    {
        if let Some(place) = place_at(self.list.as_slice(), local) {
            self.list[place].break_off();
        }
    }

    /// From now on the bytes of the stream at this local address have this mode, also the buffered ones:
    /// once the server has bound a data connection, they are its peer's (RFC 6062, section 4.3).
    pub fn set_mode(&mut self, local: SocketAddr, mode: Mode)
        ensures { (s : State) → with_streams self.new.list s ≡ with_mode local mode (with_streams self.old.list s) }
    {
        if let Some(place) = place_at(self.list.as_slice(), local) {
            self.list[place].set_mode(mode);
        }
    }

    /// Removes the stream at this local address, with its buffered bytes.
    pub fn remove(&mut self, local: SocketAddr)
        ensures { (s : State) → with_streams self.new.list s ≡ without_stream local (with_streams self.old.list s) }
    {
        self.list.retain(|stream| stream.local() != local);
    }

    /// Makes room for one more stream.
    ///
    /// # Errors
    ///
    /// `AllocError` if memory allocation fails. Only the room may change then.
    pub fn reserve(&mut self) -> Result<(), AllocError>
        ensures list { self.new.list ≡ self.old.list }
        ensures room { OnOk result (0 < self.new.room) }
    {
        self.list.reserve(1)
    }

    /// Opens the stream of a data connection that waits to be bound, after all others and in place of any
    /// at this local address (RFC 6062, section 4.3). `reserve` makes room.
    pub fn open(&mut self, local: SocketAddr)
        requires { 0 < self.old.room }
        ensures { (s : State) → with_streams self.new.list s ≡ with_stream local (with_streams self.old.list s) }
    {
        self.list.retain(|stream| stream.local() != local);
        self.list
            .push_reserved(BufferedStream::new(self.alloc, local, Mode::Waiting));
    }
}
