//! What a buffer holds, and how it changes.

ghost use Rattle.std.specs.Prelude.{◌≡◌, ◌+◌, ◌-◌, ◌≤◌, false, [], length, take, drop, OnOk, OnErr, IsOk, IfOk};
ghost use Rattle.turn_types.specs.Buffers.{UpdatesCounts, IsKept, broken_off, stored, cut_off, left_of};
ghost use Rattle.turn_types.specs.Streams.{broken_stream, framed};

use crate::tcp::buffer::TurnTcpBuffer;
use std::alloc::AllocError;

/// Moves the bytes from `start` on to the front, if they are no more than those before it. They are
/// copied once, and no memory is allocated.
fn move_to_front(bytes: &mut Vec<u8>, start: usize)
    requires start { start ≤ length bytes.old.items }
    requires few { length bytes.old.items - start ≤ start }
    ensures { bytes.new.items ≡ drop start bytes.old.items }
{
    let rest = bytes.len() - start;
    let (front, back) = bytes.split_at_mut(start);
    front[..rest].copy_from_slice(back);
    bytes.truncate(rest);
}

impl TurnTcpBuffer {
    /// The buffered bytes.
    pub(super) fn rest(&self) -> &[u8]
        ensures bytes { result.now ≡ self.now.stream.bytes }
        ensures kept { IsKept self.now }
    {
        &self.bytes[self.start..]
    }

    /// Breaks the stream: the buffered bytes are dropped, with `more` received bytes.
    pub(super) fn break_off(&mut self, more: usize)
        ensures after { self.new ≡ broken_off more self.old }
        ensures kept { IsKept self.new }
    {
        // What follows is lost too (our choice): it is unknown where the next frame begins.
        let rest = self.rest().len();
        self.counts.add_taken(rest);
        self.counts.add_taken(more);
        self.bytes.clear();
        self.start = 0;
        self.is_broken = true;
    }

    /// Appends a piece to the buffered bytes. If memory allocation fails, all is as before.
    pub(super) fn store(&mut self, piece: &[u8]) -> Result<(), AllocError>
        requires { self.old.stream.is_broken ≡ false }
        ensures ok { OnOk result (self.new ≡ stored piece.now self.old) }
        ensures err { OnErr result (self.new ≡ self.old) }
        ensures nothing { length piece.now ≡ 0 → IsOk result }
    {
        self.bytes.extend_from_slice(piece)
    }

    /// Drops the next frame, which has so many bytes, as the one that `front` returned. Allocates no memory.
    ///
    /// It does the same as `pass`, and does not read the header of the frame again. The rest moves to the front
    /// if it is shorter than all that was taken before it, so that no more is moved than taken (our choice).
    pub fn pass_front(&mut self, len: usize)
        requires { len ≤ length self.old.stream.bytes }
        ensures after { self.new ≡ cut_off len self.old }
        ensures kept { IsKept self.new }
    {
        self.counts.add_taken(len);
        self.start += len;
        let rest = self.bytes.len() - self.start;
        if rest < self.start {
            move_to_front(&mut self.bytes, self.start);
            self.start = 0;
            self.counts.add_moved(rest);
        }
    }

    /// Returns a copy of the first frame, of so many bytes. An allocation failure breaks the stream.
    pub(super) fn take_front(&mut self, len: usize) -> Result<Vec<u8>, AllocError>
        requires { len ≤ length self.old.stream.bytes }
        ensures frame { IfOk result (λ frame. frame.items ≡ take len self.old.stream.bytes) }
        ensures ok { OnOk result (self.new ≡ cut_off len self.old) }
        ensures err { OnErr result (self.new ≡ broken_off 0 self.old) }
        ensures kept { IsKept self.new }
        ensures counted { UpdatesCounts self.old self.new (left_of self.old.stream.bytes self.new) (self.old.start + left_of self.old.stream.bytes self.new) }
    {
        let alloc = *self.bytes.allocator();
        match Vec::from_slice(alloc, &self.rest()[..len]) {
            Ok(frame) => {
                self.pass_front(len);
                Ok(frame)
            }
            Err(error) => {
                self.break_off(0);
                Err(error)
            }
        }
    }

    /// Keeps the bytes after a frame of so many bytes at the start of a piece, if the buffer is empty. An
    /// allocation failure breaks the stream.
    pub(super) fn keep_behind(&mut self, piece: &[u8], len: usize) -> Result<(), AllocError>
        requires nothing { self.old.stream ≡ framed [] }
        requires start { self.old.start ≡ 0 }
        requires len { len ≤ length piece.now }
        ensures ok { OnOk result (self.new.stream ≡ framed (drop len piece.now)) }
        ensures err { OnErr result (self.new.stream ≡ broken_stream) }
        ensures whole { len ≡ length piece.now → IsOk result }
        ensures kept { IsKept self.new }
        ensures counted { UpdatesCounts self.old self.new (left_of piece.now self.new) 0 }
    {
        match self.store(&piece[len..]) {
            Ok(()) => {
                // A frame that is returned was never buffered.
                self.counts.add_taken(len);
                Ok(())
            }
            Err(error) => {
                self.break_off(piece.len());
                Err(error)
            }
        }
    }
}
