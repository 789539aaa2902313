//! Leaving.

ghost use Rattle.std.specs.Prelude.{◌≡◌};
ghost use Rattle.turn_relay.specs.Calls.{all_left, given_up_by_caller, left_relay};

use crate::relay::Relay;
use turn_client_api::TurnClientApi;
use turn_relay_tries::causes::Cause;
use turn_session_book::tags::Tag;
use turn_stun::instant::Instant;

impl<C: TurnClientApi> Relay<C> {
    /// The caller leaves: no other try is made, and each session leaves, as `Session::leave` says. Call `next` then, until it
    /// returns `Over`.
    pub fn leave(&mut self, now: Instant)
        ensures { self.new ≡ left_relay now self.old }
    {
        self.leave_all(now);
        self.plan.leave();
    }

    /// What the caller was to use for its tasks is of no use, such as a user name with characters that are not permitted: the
    /// caller's number of this error. No other try is made, and `Over` follows. A relay that rests or is over goes on with that.
    pub fn own_error(&mut self, tag: Tag, now: Instant)
        ensures { self.new ≡ given_up_by_caller tag now self.old }
    {
        self.leave_all(now);
        self.plan.fail(Cause::OwnError(tag), now);
    }

    /// Each session leaves, and nothing is left to do for one that has ended.
    fn leave_all(&mut self, now: Instant)
        ensures { self.new ≡ all_left now self.old }
    {
        self.lives.leave_all(now);
        self.job = None;
    }
}
