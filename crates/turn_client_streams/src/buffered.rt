//! One stream, and the buffer of its bytes.

ghost use Rattle.std.specs.Prelude.{◌≡◌, ◌↔◌, ◌++◌, [], IsTrue, OnOk, OnErr, Some};
ghost use Rattle.turn_types.specs.Frames.{frame_len};
ghost use Rattle.turn_client_streams.specs.Buffered.{broken, is_broken_mode, is_control_mode, with_content, meant, passed};

mod incoming;

use std::alloc::{AllocError, Global};
use std::marker::Model;
use std::net::SocketAddr;
use turn_client_api::Mode;
use turn_types::tcp::TurnTcpBuffer;

/// A stream of a client: the local address of its connection, what its bytes are, and its buffered bytes.
///
/// It holds at most twice the buffered bytes, as `TurnTcpBuffer` does.
#[derive(Debug, Drop)]
pub struct BufferedStream {
    pub(crate) alloc: Global,
    pub(crate) local: SocketAddr,
    pub(crate) mode: Mode,
    pub(crate) buffer: TurnTcpBuffer,
}

impl Model for BufferedStream {
    ghost use Rattle.std.specs.Prelude.{◌≡◌, false};
    ghost use Rattle.turn_client_api.specs.declared.state.Stream.{Stream};

    ghost Value = { Stream };

    ghost view = { λ s. record { local = s.local; mode = s.mode; bytes = s.buffer.stream.bytes } };

    // A stream is broken only by its mode, and then has a buffer that has not begun.
    ghost invariant = { λ s. s.buffer.stream.is_broken ≡ false };
}

impl BufferedStream {
    /// A stream of which nothing was received. Allocates no memory.
    pub(crate) fn new(alloc: Global, local: SocketAddr, mode: Mode) -> BufferedStream
        ensures { result ≡ record { local = local; mode = mode; bytes = [] } }
    {
        BufferedStream {
            alloc,
            local,
            mode,
            buffer: TurnTcpBuffer::new(alloc),
        }
    }

    /// The local address of its connection.
    pub fn local(&self) -> SocketAddr
        ensures { result ≡ self.now.local }
    {
        self.local
    }

    /// What its bytes are: frames, data of the bound peer, or nothing.
    pub fn mode(&self) -> Mode
        ensures { result ≡ self.now.mode }
    {
        self.mode
    }

    /// Whether its bytes are frames of the control connection.
    pub(crate) fn is_control(&self) -> bool
        ensures { result ≡ is_control_mode self.now.mode }
    {
        matches!(self.mode, Mode::Control)
    }

    /// Whether no byte is buffered.
    pub fn is_empty(&self) -> bool
        ensures { IsTrue result ↔ (self.now.bytes ≡ []) }
    {
        self.buffer.is_empty()
    }

    /// Whether nothing more is read from it.
    pub fn is_broken(&self) -> bool
        ensures { result ≡ is_broken_mode self.now.mode }
    {
        matches!(self.mode, Mode::Broken)
    }

    /// Drops the first frame, which is whole and has so many bytes, as the one in front. Allocates no memory.
    pub fn pass(&mut self, len: usize)
        requires { frame_len self.old.bytes ≡ Some len }
        ensures { self.new ≡ passed self.old }
    {
        self.buffer.pass_front(len);
    }

    /// The buffered bytes. Allocates no memory.
    pub fn into_bytes(self) -> Vec<u8>
        ensures { result.items ≡ self.bytes }
    {
        let BufferedStream { buffer, .. } = self;
        buffer.into_inner()
    }

    /// Appends a piece of the stream to the buffered bytes.
    ///
    /// # Errors
    ///
    /// `AllocError` if memory allocation for the piece fails. The stream is then broken, since bytes of
    /// it are lost.
    pub fn feed(&mut self, piece: &[u8]) -> Result<(), AllocError>
        ensures ok { OnOk result (self.new ≡ with_content (self.old.bytes ++ piece.now) self.old) }
        ensures err { OnErr result (self.new ≡ broken self.old) }
    {
        match self.buffer.feed(piece) {
            Ok(()) => Ok(()),
            Err(error) => {
                self.mode = Mode::Broken;
                self.buffer = TurnTcpBuffer::new(self.alloc);
                Err(error)
            }
        }
    }
}

impl BufferedStream {
    /// Drops the buffered bytes. Nothing more is read from the stream.
    pub(crate) fn break_off(&mut self)
        ensures { self.new ≡ broken self.old }
    {
        self.mode = Mode::Broken;
        self.buffer = TurnTcpBuffer::new(self.alloc);
    }

    /// From now on its bytes have this mode, also the buffered ones.
    pub(crate) fn set_mode(&mut self, mode: Mode)
        ensures { self.new ≡ meant mode self.old }
    {
        self.mode = mode;
    }
}
