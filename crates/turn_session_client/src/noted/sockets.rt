//! Data connections, which the caller opens and closes (RFC 6062, section 4.3).

ghost use Rattle.std.specs.Prelude.{◌≡◌, ◌≤◌, ◌^◌, OnErr, OnOk};
ghost use Rattle.turn_session_client.specs.Sockets.{FailsSocket, TakesSocket, after_writing, closed_socket, settled_socket};

use crate::noted::NotedClient;
use std::alloc::AllocError;
use std::net::SocketAddr;
use turn_client_api::{Socket5Tuple, TcpAllocateError, TurnClientApi};
use turn_session_book::keys::Key;
use turn_session_book::tags::Tag;
use turn_session_life::life::Phase;
use turn_stun::instant::Instant;

impl<C: TurnClientApi> NotedClient<C> {
    /// The caller has opened the data connection for which `poll` has asked by these three values, from this local address. The
    /// client binds it, and an event reports whether it could, also if the server closes it before. No event reports one that the
    /// peer has requested: it is none of the caller's requests.
    ///
    /// # Errors
    ///
    /// Those of the client's call, and `NoAllocation` after the end. Nothing changes then.
    pub fn data_opened(
        &mut self,
        id: u32,
        socket: Socket5Tuple,
        peer: SocketAddr,
        local: SocketAddr,
        now: Instant,
    ) -> Result<(), TcpAllocateError>
        requires now_in_range { now ≤ 2 ^ 62 }
        ensures { TakesSocket id socket peer (Some local) now result self.old self.new }
    {
        if matches!(self.life.phase, Phase::Over(_)) {
            return Err(TcpAllocateError::NoAllocation);
        }
        self.client
            .allocated_tcp_socket(id, socket, peer, Some(local), now)?;
        self.notes.book.open(Key::Connect(peer), local);
        Ok(())
    }

    /// The caller could not open the data connection for which `poll` has asked by these three values: that is the outcome of a
    /// request for this peer.
    ///
    /// # Errors
    ///
    /// `NoAllocation` if the client has not asked for it, or after the end. A request that the client was asked for has its
    /// outcome all the same. `OutOfMemory`: call it again.
    pub fn data_failed(
        &mut self,
        id: u32,
        socket: Socket5Tuple,
        peer: SocketAddr,
        tag: Tag,
        now: Instant,
    ) -> Result<(), TcpAllocateError>
        requires now_in_range { now ≤ 2 ^ 62 }
        ensures { FailsSocket id socket peer tag now result self.old self.new }
    {
        if self.settle_socket(peer, tag).is_err() {
            return Err(TcpAllocateError::OutOfMemory);
        }
        if matches!(self.life.phase, Phase::Over(_)) {
            return Err(TcpAllocateError::NoAllocation);
        }
        self.client
            .allocated_tcp_socket(id, socket, peer, None, now)
    }

    /// The data connection to this peer was closed, by the server, by the caller, or since `poll` has asked for it. A request for it
    /// that has no outcome has this one: it was closed before the server had bound it.
    ///
    /// # Errors
    ///
    /// If memory allocation fails. Nothing changes then.
    pub fn data_closed(
        &mut self,
        local: SocketAddr,
        peer: SocketAddr,
        tag: Tag,
        now: Instant,
    ) -> Result<(), AllocError>
        requires now_in_range { now ≤ 2 ^ 62 }
        ensures ok { OnOk result (self.new ≡ closed_socket local peer tag self.old) }
        ensures err { OnErr result (self.new ≡ self.old) }
    {
        self.settle_socket(peer, tag)?;
        let server = self.client.remote_addr();
        self.client.tcp_closed(local, server, now);
        Ok(())
    }

    /// Bytes of a data connection have left: the caller has written the last that it had now. If it leaves, the deletion of the
    /// allocation waits for them. After the end nothing changes.
    pub fn data_written(&mut self, now: Instant)
        ensures { self.new ≡ after_writing now self.old }
    {
        if !matches!(self.life.phase, Phase::Over(_)) {
            self.written = Some(now);
        }
    }

    /// The outcome of a request for a data connection to this peer, if the client was asked for it.
    ///
    /// # Errors
    ///
    /// If memory allocation fails. Nothing changes then.
    fn settle_socket(&mut self, peer: SocketAddr, tag: Tag) -> Result<(), AllocError>
        ensures ok { OnOk result (self.new ≡ settled_socket peer tag self.old) }
        ensures err { OnErr result (self.new ≡ self.old) }
    {
        self.notes.book.not_opened(Key::Connect(peer), tag)
    }
}
