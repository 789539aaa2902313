//! Requests of the caller, and what it keeps.

ghost use Rattle.std.specs.Prelude.{◌≡◌, ◌≤◌, ◌^◌};
ghost use Rattle.turn_session.specs.Uses.{NotesUse, kept_after};
ghost use Rattle.turn_session_client.specs.Asking.{Requests, grant_of, keep_result};
ghost use Rattle.turn_session_client.specs.Ending.{may_be_kept_until};
ghost use Rattle.turn_session_client.specs.Keeping.{kept_while_running};

use crate::session::Session;
use turn_client_api::TurnClientApi;
use turn_session_book::answers::{Answer, CallError};
use turn_session_book::held::HeldGrant;
use turn_session_book::keys::Key;
use turn_stun::instant::Instant;

impl<C: TurnClientApi> Session<C> {
    /// Requests this key, which is a use of its peer. What was granted and let go is kept again. A request for data is not made while
    /// the key rests.
    ///
    /// With a ticket the request has begun, and an event reports its outcome under that ticket, once. It is that of an earlier
    /// request of the same key that is under way. At most eight requests of the client are queued at a time, and the others wait
    /// here, in the order in which they were made. Without memory nothing is requested, nor by a session that leaves or has ended.
    /// What is granted is the caller's, also a permission by which the session has asked whether the server knows the allocation.
    ///
    /// A data connection to a peer that is not permitted, and a channel whose permission has ended, request that permission
    /// first. A data connection that the server closes before it has bound it is requested once more.
    pub fn request(&mut self, key: Key, is_for_data: bool, now: Instant) -> Answer
        requires now_in_range { now ≤ 2 ^ 62 }
        ensures answer { Requests key is_for_data now result self.old.noted self.new.noted }
        ensures rest { NotesUse key now self.old self.new }
    {
        self.idle.used(key, now);
        self.noted.request(key, is_for_data, now)
    }

    /// Says whether this key is kept, so that it is refreshed. It is until the caller says otherwise, or its peer is idle. What the
    /// caller lets go stays so when the peer is used.
    ///
    /// # Errors
    ///
    /// `NotGranted` if it was neither granted nor requested, for a data connection, and if the session leaves or has ended. Nothing
    /// changes then.
    pub fn set_kept(&mut self, key: Key, is_kept: bool) -> Result<(), CallError>
        ensures answer { result ≡ keep_result (kept_while_running key is_kept self.old.noted).0 }
        ensures after { self.new ≡ kept_after key (kept_while_running key is_kept self.old.noted) self.old }
    {
        self.noted.set_kept(key, is_kept)?;
        self.idle.decided(key);
        Ok(())
    }

    /// What was granted and has not ended, in the order in which it was granted, and whether the caller keeps it. A permission
    /// that was requested with a channel is among it, and no data connection. After the end it is what was left then.
    pub fn grants(&self) -> &[HeldGrant]
        ensures { result.now ≡ self.now.noted.notes.book.held }
    {
        self.noted.grants()
    }

    /// Until when the server may keep the allocation of this session, also after the end: for its lifetime, as the server said
    /// last, from the last response to a request. A deletion may end it sooner. `None` if the server has granted none, or no
    /// longer knows it.
    pub fn may_be_kept_until(&self) -> Option<Instant>
        ensures { result ≡ may_be_kept_until self.now.noted }
    {
        self.noted.may_be_kept_until()
    }

    /// How far this key has come, as a request for data would be answered that needs nothing of the client: `Granted` if it is
    /// active, for a channel with its permission, `Ticket` if it is requested, `Resting` if the server refused it a while ago,
    /// and `Ended` if the session leaves or has ended. With `None` it would be requested.
    pub fn grant_of(&self, key: Key, now: Instant) -> Option<Answer>
        ensures { result ≡ grant_of key now self.now.noted }
    {
        self.noted.grant_of(key, now)
    }
}
