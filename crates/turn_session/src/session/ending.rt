//! What ends a session, as its caller reports it, and what shows that its path is broken.

ghost use Rattle.std.specs.Prelude.{◌≡◌, ◌≤◌, ◌^◌, IfOk, IsOk, OnErr, OnOk};
ghost use Rattle.turn_session_client.specs.Ending.{abandon_result, abandon_state, ended, left, left_for};
ghost use Rattle.turn_session.specs.Ending.{after_failure, after_full, after_room};
ghost use Rattle.turn_session.specs.SessionState.{with_noted};

use crate::session::Session;
use std::alloc::AllocError;
use turn_client_api::{Data, Transmit, TurnClientApi};
use turn_session_book::causes::Why;
use turn_session_book::tags::Tag;
use turn_stun::instant::Instant;

impl<C: TurnClientApi> Session<C> {
    /// The caller leaves: the allocation is deleted, now or when the server grants it, and the session ends when the server has
    /// confirmed that, or after the wait of its settings. It ends at once if the server can't have granted an allocation: before it
    /// has challenged, and after it has refused by an error that is not signed. Call `poll` then, as after any call.
    ///
    /// The deletion waits until 1 s after bytes of a data connection have left (`data_written`), but at most half of that wait: a server
    /// drops what it has not passed on to the peer.
    ///
    /// A session that leaves or has ended goes on with that.
    pub fn leave(&mut self, now: Instant)
        ensures { self.new ≡ with_noted (left now self.old.noted) self.old }
    {
        self.noted.leave(now);
    }

    /// Ends the session for a caller that closes its socket at once. Returns the REFRESH that deletes its allocation (RFC 8656, section
    /// 8.1), or none if there is no allocation or the session has ended. Nobody awaits its response, so it is to be sent once.
    ///
    /// # Errors
    ///
    /// If memory allocation fails, which only a session with an allocation can meet. Nothing changes then.
    pub fn abandon(&mut self, now: Instant) -> Result<Option<Transmit<Data>>, AllocError>
        requires now_in_range { now ≤ 2 ^ 62 }
        ensures answer { IfOk result (λ packet. packet ≡ abandon_result now self.old.noted) }
        ensures after { OnOk result (self.new ≡ with_noted (abandon_state now self.old.noted) self.old) }
        ensures no_memory { OnErr result (self.new ≡ self.old) }
    {
        self.noted.abandon(now)
    }

    /// The stream to the server was closed by the server, or with this error. Pass in first what was read from it, and take
    /// the data of peers: after the end frames are dropped.
    pub fn socket_ended(&mut self, tag: Option<Tag>)
        ensures { self.new ≡ with_noted (ended (Why.SocketEnded tag) self.old.noted) self.old }
    {
        self.noted.socket_ended(tag);
    }

    /// The system has no route to the server any more.
    pub fn no_route(&mut self, tag: Tag)
        ensures { self.new ≡ with_noted (ended (Why.NoRoute tag) self.old.noted) self.old }
    {
        self.noted.no_route(tag);
    }

    /// This host no longer has the address of the socket. The session deletes its allocation, if it can, and ends.
    pub fn host_moved(&mut self, tag: Tag, now: Instant)
        ensures { self.new ≡ with_noted (left_for (Why.HostMoved tag) now self.old.noted) self.old }
    {
        self.noted.host_moved(tag, now);
    }

    /// The socket reported an error, over UDP. While the allocation is requested it ends the session after 1 s, unless a response is
    /// received before. Later a Binding request follows, and a session with an error in each of 3 s, to which nothing is received, ends.
    /// Where `checks_allocation` is set, the server is asked whether it knows the allocation.
    pub fn socket_error(&mut self, tag: Tag, now: Instant)
        ensures { self.new ≡ after_failure tag now self.old }
    {
        if self.noted.is_open() {
            self.tell_path();
            self.watch.path.failed(tag, now);
        }
        self.noted.socket_error(tag, now);
    }

    /// The stream to the server took no bytes. If it takes none for 60 s, and nothing is received, the session ends.
    pub fn full(&mut self, now: Instant)
        ensures { self.new ≡ after_full now self.old }
    {
        self.tell_path();
        self.watch.path.full(now);
    }

    /// The stream to the server takes bytes again.
    pub fn room(&mut self)
        ensures { self.new ≡ after_room self.old }
    {
        self.tell_path();
        self.watch.path.room();
    }
}
