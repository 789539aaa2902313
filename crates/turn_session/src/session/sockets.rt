//! Data connections, which the caller opens and closes (RFC 6062, section 4.3).

ghost use Rattle.std.specs.Prelude.{◌≡◌, ◌≤◌, ◌^◌, OnErr, OnOk};
ghost use Rattle.turn_session.specs.SessionState.{NotesAlone, with_noted};
ghost use Rattle.turn_session_client.specs.Sockets.{FailsSocket, TakesSocket, after_writing, closed_socket};

use crate::session::Session;
use std::alloc::AllocError;
use std::net::SocketAddr;
use turn_client_api::{Socket5Tuple, TcpAllocateError, TurnClientApi};
use turn_session_book::tags::Tag;
use turn_stun::instant::Instant;

impl<C: TurnClientApi> Session<C> {
    /// The caller has opened the data connection for which `poll` has asked by these three values, from this local address. The client
    /// binds it, and an event reports whether it could.
    ///
    /// # Errors
    ///
    /// Those of the client's call, and `NoAllocation` after the end. Nothing changes then.
    pub fn data_opened(
        &mut self,
        id: u32,
        socket: Socket5Tuple,
        peer: SocketAddr,
        local: SocketAddr,
        now: Instant,
    ) -> Result<(), TcpAllocateError>
        requires now_in_range { now ≤ 2 ^ 62 }
        ensures answer { TakesSocket id socket peer (Some local) now result self.old.noted self.new.noted }
        ensures rest { NotesAlone self.old self.new }
    {
        self.noted.data_opened(id, socket, peer, local, now)
    }

    /// The caller could not open the data connection for which `poll` has asked by these three values: that is the outcome of a
    /// request for this peer.
    ///
    /// # Errors
    ///
    /// `NoAllocation` if the client has not asked for it, or after the end. A request has its outcome all the same. `OutOfMemory`:
    /// call it again.
    pub fn data_failed(
        &mut self,
        id: u32,
        socket: Socket5Tuple,
        peer: SocketAddr,
        tag: Tag,
        now: Instant,
    ) -> Result<(), TcpAllocateError>
        requires now_in_range { now ≤ 2 ^ 62 }
        ensures answer { FailsSocket id socket peer tag now result self.old.noted self.new.noted }
        ensures rest { NotesAlone self.old self.new }
    {
        self.noted.data_failed(id, socket, peer, tag, now)
    }

    /// The data connection to this peer was closed, by the server, by the caller, or since `poll` has asked for it. A request for it
    /// that has no outcome has this one: it was closed before the server had bound it.
    ///
    /// # Errors
    ///
    /// If memory allocation fails. Nothing changes then.
    pub fn data_closed(
        &mut self,
        local: SocketAddr,
        peer: SocketAddr,
        tag: Tag,
        now: Instant,
    ) -> Result<(), AllocError>
        requires now_in_range { now ≤ 2 ^ 62 }
        ensures ok { OnOk result (self.new ≡ with_noted (closed_socket local peer tag self.old.noted) self.old) }
        ensures err { OnErr result (self.new ≡ self.old) }
    {
        self.noted.data_closed(local, peer, tag, now)
    }

    /// Bytes of a data connection have left: the caller has written the last that it had now. If it leaves, the deletion of the
    /// allocation waits for them (`leave`). After the end nothing changes.
    pub fn data_written(&mut self, now: Instant)
        ensures { self.new ≡ with_noted (after_writing now self.old.noted) self.old }
    {
        self.noted.data_written(now);
    }
}
