//! A buffer between the pieces of a stream and its frames.

ghost use Rattle.std.specs.Prelude.{◌≡◌, ◌+◌, ◌<◌, ◌↔◌, true, false, [], length, IsTrue, OnOk, OnErr, IsOk, IsErr, IfOk, IsNone, IsSome, IfSome, Some, None};
ghost use Rattle.std.specs.Prelude.{Ok};
ghost use Rattle.std.specs.Option.{option_map};
ghost use Rattle.turn_types.specs.Buffers.{UpdatesCounts, IsKept, front_offset, left_of};
ghost use Rattle.turn_types.specs.Frames.{frame_len};
ghost use Rattle.turn_types.specs.Incoming.{stored_bytes, incoming_bytes, IsNamedStored, IsNamedIncoming, ComesWith};
ghost use Rattle.turn_types.specs.Streams.{next_frame_after, broken_stream, framed, with_piece};
ghost use Rattle.turn_types.specs.Streams.Call.{Piece, Poll};

mod ends;
mod held;
mod lent;

use crate::tcp::counts::TcpCounts;
use crate::tcp::head::{Head, head_of};
use crate::tcp::incoming::{IncomingTcp, StoredTcp};
use std::alloc::AllocError;
use std::convert::AsSlice;
use std::marker::Model;
use turn_stun::transport::Transmit;

/// The buffered bytes of a stream that lack the rest of their frame (RFC 8656, section 12.5).
///
/// `incoming_tcp` takes a piece of the stream, and returns its first frame. Then `poll_recv` returns the
/// others, until there is none: fewer than 65,556 bytes remain, the start of the next frame. A stream
/// whose next frame begins with the bits 10 or 11 is broken, since no frame does; and so is one for whose
/// bytes a memory allocation failed. It drops its buffered bytes, and returns nothing from then on.
///
/// Or `feed` takes a piece, and each frame is read where it is buffered: `front` borrows it, and `pass`
/// drops it. So no frame is copied.
///
/// Taking a frame moves no byte. At the end of a call the rest moves to the front if it is shorter than
/// the bytes taken before it: so at most twice the buffered bytes are held, and over any calls no more
/// bytes are moved than were taken.
#[derive(Debug, Drop)]
pub struct TurnTcpBuffer {
    /// The bytes that were taken and not yet written over, and after them the buffered bytes.
    bytes: Vec<u8>,
    /// How many bytes at the start were taken.
    start: usize,
    is_broken: bool,
    counts: TcpCounts,
}

impl Model for TurnTcpBuffer {
    ghost use Rattle.std.specs.Prelude.{drop};
    ghost use Rattle.turn_types.specs.Buffers.{Buffered, IsBufferValid};

    ghost Value = { Buffered };

    ghost view = { λ b. record { stream = record { bytes = drop b.start b.bytes.items; is_broken = b.is_broken }; start = b.start; counts = b.counts } };

    ghost invariant = { λ b. IsBufferValid b.bytes.items b.start b.is_broken b.counts };
}

impl TurnTcpBuffer {
    /// Takes a piece of the stream, and returns the first frame, if it is now whole.
    ///
    /// If the buffer was empty, the frame is a range of the piece: it is not copied, and a piece that is
    /// one whole frame allocates no memory. Else it is owned. The bytes after it are kept for
    /// `poll_recv`. A piece without a frame to return is dropped.
    ///
    /// # Errors
    ///
    /// `AllocError` if memory allocation fails. The stream is then broken.
    pub fn incoming_tcp<T: AsSlice<u8> + Drop>(
        &mut self,
        transmit: Transmit<T>,
    ) -> Result<Option<IncomingTcp<T>>, AllocError>
        // The piece is appended to the buffered bytes, and then the next frame is taken.
        ensures frame { IfOk result (λ given. (next_frame_after self.old.stream (Piece (T.items transmit.payload))).frame
            ≡ option_map (incoming_bytes T.items) given) }
        ensures named { IfOk result (λ given. IfSome given (IsNamedIncoming T.items)) }
        ensures place { IfOk result (λ given. IfSome given (ComesWith T.items self.old.stream.bytes transmit)) }
        ensures after { OnOk result (self.new.stream ≡ (next_frame_after self.old.stream (Piece (T.items transmit.payload))).after) }

        // An allocation failure breaks the stream. One whole frame allocates none if the buffer is empty.
        ensures err { OnErr result (self.new.stream ≡ broken_stream) }
        ensures whole { self.old.stream.bytes ≡ [] → frame_len (T.items transmit.payload) ≡ Some (length (T.items transmit.payload)) → IsOk result }
        ensures broken { self.old.stream.is_broken ≡ true → (result ≡ Ok None) × (self.new ≡ self.old) }

        // The bytes that are held, and those that were moved.
        ensures drained { IfOk result (λ given. IsNone given → length self.new.stream.bytes < 65556) }
        ensures kept { IsKept self.new }
        ensures counted { let left = left_of (with_piece self.old.stream (T.items transmit.payload)).bytes self.new in
            UpdatesCounts self.old self.new left (front_offset self.old left) }
    {
        if self.is_broken {
            return Ok(None);
        }
        if self.rest().is_empty() {
            self.first_of(transmit)
        } else {
            self.next_of(transmit)
        }
    }

    /// `incoming_tcp` with an empty buffer: a frame at the start of the piece is a range of it.
    fn first_of<T: AsSlice<u8> + Drop>(
        &mut self,
        transmit: Transmit<T>,
    ) -> Result<Option<IncomingTcp<T>>, AllocError>
        requires nothing { self.old.stream ≡ framed [] }
        requires start { self.old.start ≡ 0 }
        ensures frame { IfOk result (λ given. (next_frame_after self.old.stream (Piece (T.items transmit.payload))).frame
            ≡ option_map (incoming_bytes T.items) given) }
        ensures named { IfOk result (λ given. IfSome given (IsNamedIncoming T.items)) }
        ensures place { IfOk result (λ given. IfSome given (ComesWith T.items self.old.stream.bytes transmit)) }
        ensures after { OnOk result (self.new.stream ≡ (next_frame_after self.old.stream (Piece (T.items transmit.payload))).after) }
        ensures err { OnErr result (self.new.stream ≡ broken_stream) }
        ensures whole { frame_len (T.items transmit.payload) ≡ Some (length (T.items transmit.payload)) → IsOk result }
        ensures drained { IfOk result (λ given. IsNone given → length self.new.stream.bytes < 65556) }
        ensures kept { IsKept self.new }
        ensures counted { UpdatesCounts self.old self.new (left_of (T.items transmit.payload) self.new) 0 }
    {
        let piece = transmit.payload.as_slice();
        match head_of(piece) {
            Head::Partial => {
                self.keep_behind(piece, 0)?;
                Ok(None)
            }
            Head::NoFrame => {
                self.break_off(piece.len());
                Ok(None)
            }
            Head::Message(len) => {
                self.keep_behind(piece, len)?;
                Ok(Some(IncomingTcp::CompleteMessage(transmit, 0..len)))
            }
            Head::Channel(len) => {
                self.keep_behind(piece, len)?;
                Ok(Some(IncomingTcp::CompleteChannel(transmit, 0..len)))
            }
        }
    }

    /// `incoming_tcp` after buffered bytes: the piece is kept, and the first frame is copied out.
    fn next_of<T: AsSlice<u8> + Drop>(
        &mut self,
        transmit: Transmit<T>,
    ) -> Result<Option<IncomingTcp<T>>, AllocError>
        requires unbroken { self.old.stream.is_broken ≡ false }
        requires waiting { 0 < length self.old.stream.bytes }
        ensures frame { IfOk result (λ given. (next_frame_after self.old.stream (Piece (T.items transmit.payload))).frame
            ≡ option_map (incoming_bytes T.items) given) }
        ensures named { IfOk result (λ given. IfSome given (IsNamedIncoming T.items)) }
        ensures place { IfOk result (λ given. IfSome given (ComesWith T.items self.old.stream.bytes transmit)) }
        ensures after { OnOk result (self.new.stream ≡ (next_frame_after self.old.stream (Piece (T.items transmit.payload))).after) }
        ensures err { OnErr result (self.new.stream ≡ broken_stream) }
        ensures drained { IfOk result (λ given. IsNone given → length self.new.stream.bytes < 65556) }
        ensures kept { IsKept self.new }
        ensures counted { let left = left_of (with_piece self.old.stream (T.items transmit.payload)).bytes self.new in
            UpdatesCounts self.old self.new left (self.old.start + left) }
    {
        let piece = transmit.payload.as_slice();
        if let Err(error) = self.store(piece) {
            self.break_off(piece.len());
            return Err(error);
        }
        match self.poll_recv()? {
            None => Ok(None),
            Some(StoredTcp::Message(frame)) => {
                let incoming = IncomingTcp::StoredMessage(frame, transmit);
                Ok(Some(incoming))
            }
            Some(StoredTcp::Channel(frame)) => {
                let incoming = IncomingTcp::StoredChannel(frame, transmit);
                Ok(Some(incoming))
            }
        }
    }

    /// Returns the next buffered frame, if it is whole.
    ///
    /// # Errors
    ///
    /// `AllocError` if memory allocation for the frame fails. The stream is then broken.
    pub fn poll_recv(&mut self) -> Result<Option<StoredTcp>, AllocError>
        // The next frame is taken.
        ensures frame { IfOk result (λ given. (next_frame_after self.old.stream Poll).frame ≡ option_map stored_bytes given) }
        ensures named { IfOk result (λ given. IfSome given IsNamedStored) }
        ensures after { OnOk result (self.new.stream ≡ (next_frame_after self.old.stream Poll).after) }

        // An allocation failure breaks the stream. Only a frame needs an allocation.
        ensures err { OnErr result (self.new.stream ≡ broken_stream) }
        ensures memory { IsErr result → IsSome (next_frame_after self.old.stream Poll).frame }

        // The bytes that are held, and those that were moved.
        ensures drained { IfOk result (λ given. IsNone given → length self.new.stream.bytes < 65556) }
        ensures kept { IsKept self.new }
        ensures counted { let left = left_of self.old.stream.bytes self.new in UpdatesCounts self.old self.new left (self.old.start + left) }
    {
        match head_of(self.rest()) {
            Head::Partial => Ok(None),
            Head::NoFrame => {
                self.break_off(0);
                Ok(None)
            }
            Head::Message(len) => {
                let frame = self.take_front(len)?;
                Ok(Some(StoredTcp::Message(frame)))
            }
            Head::Channel(len) => {
                let frame = self.take_front(len)?;
                Ok(Some(StoredTcp::Channel(frame)))
            }
        }
    }

    /// Whether no bytes are buffered.
    pub fn is_empty(&self) -> bool
        ensures { IsTrue result ↔ (self.now.stream.bytes ≡ []) }
    {
        self.rest().is_empty()
    }

    /// How many bytes were taken, and how many were moved for it.
    pub fn counts(&self) -> TcpCounts
        ensures counts { result ≡ self.now.counts }
        ensures kept { IsKept self.now }
    {
        self.counts
    }
}
