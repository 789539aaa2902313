//! What ends a session, as its caller reports it.

ghost use Rattle.std.specs.Prelude.{◌≡◌, ◌≤◌, ◌^◌, IfOk, IsOk, OnErr, OnOk};
ghost use Rattle.turn_session_client.specs.Ending.{abandon_result, abandon_state, after_socket_error, ended, left, left_for};
ghost use Rattle.turn_session_client.specs.Ending.{left_unopened, may_be_kept_until};

use crate::noted::NotedClient;
use std::alloc::AllocError;
use turn_client_api::{Data, Transmit, TurnClientApi};
use turn_session_book::causes::Why;
use turn_session_book::tags::Tag;
use turn_session_life::life::Phase;
use turn_stun::instant::Instant;

impl<C: TurnClientApi> NotedClient<C> {
    /// The caller leaves: the allocation is deleted, now or when the server grants it, and the session ends when the server has
    /// confirmed that, or after the wait of its settings. It ends at once if the server can't have granted an allocation: before it
    /// has challenged, and after it has refused by an error that is not signed. Call `poll` then, as after any call.
    ///
    /// The deletion waits until 1 s after bytes of a data connection have left (`data_written`), but at most half of that wait: a server
    /// drops what it has not passed on to the peer.
    ///
    /// A session that leaves or has ended goes on with that.
    pub fn leave(&mut self, now: Instant)
        ensures { self.new ≡ left now self.old }
    {
        match self.life.phase {
            Phase::Open => self.life.leave(self.leave_wait, now),
            Phase::Opening => self.leave_unopened(now),
            _ => {}
        }
    }

    /// Until when the server may keep the allocation of this session, also after the end: for its lifetime, as the server said
    /// last, from the last response to a request. A deletion may end it sooner. `None` if the server has granted none, or no
    /// longer knows it.
    pub fn may_be_kept_until(&self) -> Option<Instant>
        ensures { result ≡ may_be_kept_until self.now }
    {
        match self.life.cause() {
            Some(Why::Forgotten(_)) => None,
            _ => self.heard.kept_until(),
        }
    }

    /// The caller leaves while the allocation is requested.
    fn leave_unopened(&mut self, now: Instant)
        ensures { self.new ≡ left_unopened now self.old }
    {
        if self.heard.is_challenged && !self.heard.has_hint() {
            self.life.leave(self.leave_wait, now);
        } else {
            self.life.end(Why::Closed);
        }
    }

    /// Ends the session for a caller that closes its socket at once. Returns the REFRESH that deletes its allocation (RFC 8656, section
    /// 8.1), or none if there is no allocation or the session has ended. Nobody awaits its response, so it is to be sent once.
    ///
    /// # Errors
    ///
    /// If memory allocation fails, which only a session with an allocation can meet. Nothing changes then.
    pub fn abandon(&mut self, now: Instant) -> Result<Option<Transmit<Data>>, AllocError>
        requires now_in_range { now ≤ 2 ^ 62 }
        ensures answer { IfOk result (λ packet. packet ≡ abandon_result now self.old) }
        ensures after { OnOk result (self.new ≡ abandon_state now self.old) }
        ensures no_memory { OnErr result (self.new ≡ self.old) }
    {
        if matches!(self.life.phase, Phase::Over(_)) {
            return Ok(None);
        }
        let packet = self.client.abandon(now)?;
        self.life.end(Why::Closed);
        Ok(packet)
    }

    /// The stream to the server was closed by the server, or with this error. Pass in first what was read from it.
    pub fn socket_ended(&mut self, tag: Option<Tag>)
        ensures { self.new ≡ ended (Why.SocketEnded tag) self.old }
    {
        self.life.end(Why::SocketEnded(tag));
    }

    /// The system has no route to the server any more.
    pub fn no_route(&mut self, tag: Tag)
        ensures { self.new ≡ ended (Why.NoRoute tag) self.old }
    {
        self.life.end(Why::NoRoute(tag));
    }

    /// This host no longer has the address of the socket. The session deletes its allocation, if it can, and ends.
    pub fn host_moved(&mut self, tag: Tag, now: Instant)
        ensures { self.new ≡ left_for (Why.HostMoved tag) now self.old }
    {
        self.end_soon(Why::HostMoved(tag), now);
    }

    /// The socket reported an error, over UDP. While the allocation is requested it ends the session after 1 s, unless a response is
    /// received before. After that it makes one doubt the allocation.
    pub fn socket_error(&mut self, tag: Tag, now: Instant)
        ensures { self.new ≡ after_socket_error tag now self.old }
    {
        match self.life.phase {
            Phase::Opening => self.verdict.failed(tag, now),
            Phase::Open => self.doubts.doubt(),
            _ => {}
        }
    }

    /// Ends the session for this cause at once.
    pub fn end(&mut self, why: Why)
        ensures { self.new ≡ ended why self.old }
    {
        self.life.end(why);
    }

    /// Ends the session for this cause, after it has deleted its allocation. It ends at once if the server can't have granted one: it
    /// has not challenged.
    pub fn end_soon(&mut self, why: Why, now: Instant)
        ensures { self.new ≡ left_for why now self.old }
    {
        let is_open = matches!(self.life.phase, Phase::Open);
        if is_open || self.heard.is_challenged {
            self.life.end_soon(why, self.leave_wait, now);
        } else {
            self.life.end(why);
        }
    }
}
