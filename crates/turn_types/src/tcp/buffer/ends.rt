//! A buffer that has not begun, and what is left of one in the end.

ghost use Rattle.std.specs.Prelude.{◌≡◌, []};
ghost use Rattle.turn_types.specs.Streams.{framed};

use crate::tcp::buffer::TurnTcpBuffer;
use crate::tcp::counts::TcpCounts;
use std::alloc::Global;

impl TurnTcpBuffer {
    /// The buffer of a stream that has not begun. Allocates no memory.
    pub fn new(alloc: Global) -> TurnTcpBuffer
        ensures stream { result.stream ≡ framed [] }
        ensures start { result.start ≡ 0 }
        ensures counts { result.counts ≡ record { taken = 0; moved = 0 } }
    {
        TurnTcpBuffer {
            bytes: Vec::new(alloc),
            start: 0,
            is_broken: false,
            counts: TcpCounts::NONE,
        }
    }

    /// The buffered bytes, none of a broken stream. They are moved at most once, and no memory is
    /// allocated.
    pub fn into_inner(self) -> Vec<u8>
        ensures { result.items ≡ self.stream.bytes }
    {
        let TurnTcpBuffer {
            mut bytes,
            start,
            ..
        } = self;
        let rest = bytes.len() - start;
        bytes.rotate_left(start);
        bytes.truncate(rest);
        bytes
    }
}
