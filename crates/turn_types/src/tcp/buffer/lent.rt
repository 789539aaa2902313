//! Frames that are read where they are buffered.

ghost use Rattle.std.specs.Prelude.{◌≡◌, ◌+◌, ◌<◌, true, length, None, OnOk, OnErr, IsOk, IsNone, IfSome};
ghost use Rattle.std.specs.Option.{option_copied};
ghost use Rattle.turn_types.specs.Buffers.{UpdatesCounts, IsKept, left_of};
ghost use Rattle.turn_types.specs.Frames.{IsFrame, begins_no_frame};
ghost use Rattle.turn_types.specs.Streams.{next_frame_after, broken_stream, with_piece};
ghost use Rattle.turn_types.specs.Streams.Call.{Feed, Poll};

use crate::tcp::buffer::TurnTcpBuffer;
use crate::tcp::head::{Head, begins_no_frame, head_of};
use std::alloc::AllocError;

impl TurnTcpBuffer {
    /// Takes a piece of the stream, and returns nothing: `front` and `pass` do, or `poll_recv`.
    ///
    /// # Errors
    ///
    /// `AllocError` if memory allocation for the piece fails. The stream is then broken.
    pub fn feed(&mut self, piece: &[u8]) -> Result<(), AllocError>
        // The piece is appended to the buffered bytes.
        ensures ok { OnOk result (self.new.stream ≡ (next_frame_after self.old.stream (Feed piece.now)).after) }
        ensures err { OnErr result (self.new.stream ≡ broken_stream) }
        ensures broken { self.old.stream.is_broken ≡ true → IsOk result × (self.new ≡ self.old) }

        // The bytes that are held, and those that were moved.
        ensures kept { IsKept self.new }
        ensures counted { let left = left_of (with_piece self.old.stream piece.now).bytes self.new in
            UpdatesCounts self.old self.new left (self.old.start + left) }
    {
        if self.is_broken {
            return Ok(());
        }
        if let Err(error) = self.store(piece) {
            self.break_off(piece.len());
            return Err(error);
        }
        Ok(())
    }

    /// The next frame, if it is whole, borrowed from the buffer. It stays the next one until `pass`.
    pub fn front(&self) -> Option<&[u8]>
        // It is what `poll_recv` would return.
        ensures frame { option_copied result ≡ (next_frame_after self.now.stream Poll).frame }
        ensures named { IfSome result (λ frame. IsFrame frame.now) }

        // Without a whole first frame, `pass` leaves little.
        ensures drained { IsNone result → length (next_frame_after self.now.stream Poll).after.bytes < 65556 }
    {
        let rest = self.rest();
        match head_of(rest) {
            Head::Partial | Head::NoFrame => None,
            Head::Message(len) | Head::Channel(len) => Some(&rest[..len]),
        }
    }

    /// Drops the next frame, if it is whole. Allocates no memory.
    ///
    /// It does the same to the stream as `poll_recv`: less than a frame stays buffered, and bytes that no
    /// frame begins with break the stream.
    pub fn pass(&mut self)
        ensures after { self.new.stream ≡ (next_frame_after self.old.stream Poll).after }

        // The bytes that are held, and those that were moved.
        ensures drained { (next_frame_after self.old.stream Poll).frame ≡ None → length self.new.stream.bytes < 65556 }
        ensures kept { IsKept self.new }
        ensures counted { let left = left_of self.old.stream.bytes self.new in UpdatesCounts self.old self.new left (self.old.start + left) }
    {
        match head_of(self.rest()) {
            Head::Partial => {}
            Head::NoFrame => self.break_off(0),
            Head::Message(len) | Head::Channel(len) => self.pass_front(len),
        }
    }

    /// Whether the buffered bytes begin with the bits 10 or 11, as no frame does (RFC 8656, section 12).
    /// The next `pass` or `poll_recv` then breaks the stream.
    pub fn is_stuck(&self) -> bool
        ensures { result ≡ begins_no_frame self.now.stream.bytes }
    {
        begins_no_frame(self.rest())
    }
}
