//! A piece whose first frame is read in place.

ghost use Rattle.std.specs.Prelude.{◌≡◌, ◌<◌, [], length, option_map, Some, IfOk, IfSome, IsOk, OnOk, OnErr};
ghost use Rattle.turn_types.specs.Frames.{frame_len};
ghost use Rattle.turn_types.specs.Incoming.{ComesWith, IsNamedIncoming, incoming_bytes};
ghost use Rattle.turn_client_api.specs.Streams.{stream_with_piece};
ghost use Rattle.turn_client_streams.specs.Buffered.{broken, front_frame, without_front};

use crate::buffered::BufferedStream;
use std::alloc::AllocError;
use std::convert::AsSlice;
use turn_client_api::Mode;
use turn_stun::transport::Transmit;
use turn_types::tcp::{IncomingTcp, TurnTcpBuffer};

impl BufferedStream {
    /// Takes a piece of the stream, after the buffered bytes, and returns the first frame, if it is now
    /// whole. The bytes after it are buffered. Bytes that no frame begins with break the stream.
    ///
    /// If the buffer was empty, the frame is a range of the piece: it is not copied, and a piece that is
    /// one whole frame allocates no memory. Else it is owned. A piece without a frame to return is
    /// dropped.
    ///
    /// # Errors
    ///
    /// `AllocError` if memory allocation fails. The stream is then broken.
    pub fn incoming_tcp<T: AsSlice<u8> + Drop>(
        &mut self,
        transmit: Transmit<T>,
    ) -> Result<Option<IncomingTcp<T>>, AllocError>
        // An empty piece is no part of a stream: it reports that the server closed it.
        requires { 0 < length (T.items transmit.payload) }

        ensures frame { IfOk result (λ given. option_map (incoming_bytes T.items) given ≡ front_frame (stream_with_piece self.old (T.items transmit.payload))) }
        ensures named { IfOk result (λ given. IfSome given (IsNamedIncoming T.items)) }
        ensures place { IfOk result (λ given. IfSome given (ComesWith T.items self.old.bytes transmit)) }
        ensures after { OnOk result (self.new ≡ without_front (stream_with_piece self.old (T.items transmit.payload))) }

        // One whole frame needs no memory if the buffer is empty.
        ensures err { OnErr result (self.new ≡ broken self.old) }
        ensures whole { self.old.bytes ≡ [] → frame_len (T.items transmit.payload) ≡ Some (length (T.items transmit.payload)) → IsOk result }
    {
        match self.buffer.incoming_tcp(transmit) {
            Ok(Some(frame)) => Ok(Some(frame)),
            Ok(None) => {
                // The piece is buffered, unless no frame begins with its bytes.
                if self.buffer.is_empty() {
                    self.mode = Mode::Broken;
                    self.buffer = TurnTcpBuffer::new(self.alloc);
                }
                Ok(None)
            }
            Err(error) => {
                self.mode = Mode::Broken;
                self.buffer = TurnTcpBuffer::new(self.alloc);
                Err(error)
            }
        }
    }
}
