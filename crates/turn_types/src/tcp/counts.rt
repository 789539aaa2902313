//! What a buffer counts.

ghost use Rattle.std.specs.Prelude.{◌≡◌};
ghost use Rattle.turn_types.specs.Buffers.{with_taken, with_moved};

/// How many bytes passed through a buffer, and how many of them it had to move. Both stop at 2^64 - 1.
#[derive(Clone, Copy, Debug, PartialEq, Eq)]
pub struct TcpCounts {
    /// Bytes of the frames that were returned, and bytes that were dropped when the stream broke.
    pub taken: u64,
    /// Bytes that were moved to the front of the buffer.
    pub moved: u64,
}

impl TcpCounts {
    /// Nothing yet.
    pub(super) const NONE: TcpCounts = TcpCounts { taken: 0, moved: 0 };

    /// Counts bytes that were returned or dropped.
    pub(super) fn add_taken(&mut self, len: usize)
        ensures { self.new ≡ with_taken len self.old }
    {
        self.taken = self.taken.saturating_add(len as u64);
    }

    /// Counts bytes that were moved to the front.
    pub(super) fn add_moved(&mut self, len: usize)
        ensures { self.new ≡ with_moved len self.old }
    {
        self.moved = self.moved.saturating_add(len as u64);
    }
}
