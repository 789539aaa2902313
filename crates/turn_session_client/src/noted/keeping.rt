//! What the caller keeps.

ghost use Rattle.std.specs.Prelude.{◌≡◌, true};
ghost use Rattle.turn_session_client.specs.Asking.{keep_result};
ghost use Rattle.turn_session_client.specs.Keeping.{keep_step, kept_while_running, waits_for};

use crate::keeping::keep;
use crate::noted::NotedClient;
use turn_client_api::TurnClientApi;
use turn_session_book::answers::CallError;
use turn_session_book::held::HeldGrant;
use turn_session_book::keys::Key;
use turn_session_book::open_requests::Progress;

impl<C: TurnClientApi> NotedClient<C> {
    /// Says whether this key is kept, so that it is refreshed. It is until the caller says otherwise.
    ///
    /// # Errors
    ///
    /// `NotGranted` if it was neither granted nor requested, for a data connection, and if the session leaves or has ended.
    /// Nothing changes then.
    pub fn set_kept(&mut self, key: Key, is_kept: bool) -> Result<(), CallError>
        ensures answer { result ≡ keep_result (kept_while_running key is_kept self.old).0 }
        ensures after { self.new ≡ (kept_while_running key is_kept self.old).1 }
    {
        if self.life.is_running() && self.keep(key, is_kept) {
            return Ok(());
        }
        Err(CallError::NotGranted)
    }

    /// Says whether this key is kept. Returns whether there is such a grant, or a request for it.
    pub(crate) fn keep(&mut self, key: Key, is_kept: bool) -> bool
        ensures { (result, self.new) ≡ keep_step key is_kept self.old }
    {
        let Some(relays) = self.notes.relays else {
            return false;
        };
        let told = keep(&mut self.client, relays, key, is_kept);
        if !(told.is_ok() || self.waits_for(key)) {
            return false;
        }
        self.notes.book.mark(key, is_kept);
        true
    }

    /// Whether a request for this key waits, so that the client does not know of it.
    fn waits_for(&self, key: Key) -> bool
        ensures { result ≡ waits_for key self.now.notes.book.requests }
    {
        if matches!(key, Key::Connect(_)) {
            return false;
        }
        match self.notes.book.request_of(key) {
            Some(request) => matches!(request.progress, Progress::Waiting),
            None => false,
        }
    }

    /// What was granted and has not ended, in the order in which it was granted, and whether the caller keeps it. A permission
    /// that was requested with a channel is among it, and no data connection.
    pub fn grants(&self) -> &[HeldGrant]
        ensures { result.now ≡ self.now.notes.book.held }
    {
        self.notes.book.grants()
    }
}
