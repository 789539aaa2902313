//! How far a relay comes.

ghost use Rattle.std.specs.Prelude.{◌≡◌};
ghost use Rattle.turn_relay_plan.specs.Progress.{after_opening, after_response, after_restoring, redirected};

use crate::plan::Plan;
use std::net::SocketAddr;
use turn_relay_tries::attempts::Attempts;
use turn_stun::instant::Instant;

impl Plan {
    /// The server has responded to an attempt, or over a stream is connected: that one is used, and no further address is attempted.
    pub fn responded(&mut self)
        ensures { self.new ≡ after_response self.old }
    {
        self.course.heard();
        self.stop();
    }

    /// The server in use names this one in its place (RFC 8489, section 10), which is attempted within the same try.
    pub fn redirected(&mut self, to: SocketAddr)
        ensures { self.new ≡ redirected to self.old }
    {
        self.next = Some(to);
        self.attempts = Attempts::new(1);
    }

    /// The server has granted an address.
    pub fn opened(&mut self)
        ensures { self.new ≡ after_opening self.old }
    {
        self.course.opened();
    }

    /// What the session before had was requested again: the relay is up.
    pub fn restored(&mut self, now: Instant)
        ensures { self.new ≡ after_restoring now self.old }
    {
        self.course.restored(now);
    }
}
