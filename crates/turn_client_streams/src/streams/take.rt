//! Streams that are taken out of the list, to be processed.

ghost use Rattle.std.specs.Prelude.{◌≡◌, All, [], find, IfSome, IsNone};
ghost use Rattle.std.specs.List.{position};
ghost use Rattle.turn_client_api.specs.State.{State};
ghost use Rattle.turn_client_api.specs.Streams.{HoldsLittle, is_ready, stream_at, with_bytes};
ghost use Rattle.turn_client_streams.specs.Buffered.{with_content};
ghost use Rattle.turn_client_streams.specs.Held.{taken_out, with_streams};

use crate::buffered::BufferedStream;
use crate::streams::{Streams, place_at};
use std::mem;
use std::net::SocketAddr;
use turn_types::tcp::TurnTcpBuffer;

/// The place of the first stream that can be processed.
fn ready_place(list: &[BufferedStream]) -> Option<usize>
    ensures exact { result ≡ position is_ready list.now }
    ensures little { IsNone result → All HoldsLittle list.now }
{
    list.iter().position(|stream| stream.is_ready())
}

impl Streams {
    /// Takes out the first stream that can be processed.
    pub fn take_ready(&mut self) -> Option<BufferedStream>
        ensures stream { result ≡ find is_ready self.old.list }
        ensures little { IsNone result → All HoldsLittle self.new.list }
        ensures after { (s : State) → with_streams self.new.list s ≡ taken_out result (with_streams self.old.list s) }
    {
        let Some(place) = ready_place(self.list.as_slice()) else {
            return None;
        };
        Some(self.list[place].take_out())
    }

    /// Takes out the stream at this local address. If it is put back as it is, all is as before.
    pub fn take_at(&mut self, local: SocketAddr) -> Option<BufferedStream>
        ensures stream { (s : State) → result ≡ stream_at local (with_streams self.old.list s) }
        ensures after { (s : State) → with_streams self.new.list s ≡ taken_out result (with_streams self.old.list s) }
        ensures back { (s : State) → IfSome result (λ stream.
            with_bytes stream.local stream.bytes (with_streams self.new.list s) ≡ with_streams self.old.list s) }
    {
        let Some(place) = place_at(self.list.as_slice(), local) else {
            return None;
        };
        Some(self.list[place].take_out())
    }
}

impl BufferedStream {
    /// The stream with its bytes; none of them remains here.
    pub(crate) fn take_out(&mut self) -> BufferedStream
        ensures stream { result ≡ self.old }
        ensures after { self.new ≡ with_content [] self.old }
    {
        BufferedStream {
            alloc: self.alloc,
            local: self.local,
            mode: self.mode,
            buffer: mem::replace(&mut self.buffer, TurnTcpBuffer::new(self.alloc)),
        }
    }
}
