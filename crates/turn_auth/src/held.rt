//! What a client holds after a challenge (RFC 8489, section 9.2.5).

ghost use Rattle.std.specs.Prelude.{◌≡◌, None, Some};
ghost use Rattle.turn_auth.specs.Credentials.{Credentials};
ghost use Rattle.turn_auth.specs.Kept.{IsKeyOf};
ghost use Rattle.turn_auth.specs.Validation.{judged};
ghost use Rattle.turn_auth.specs.Verdict.{challenge_read, validation_in};

use crate::key::SigningKey;
use crate::server_challenge::ServerChallenge;
use crate::validation::Verdict;
use std::fmt;
use turn_stun::message::Message;

/// What challenges set.
#[derive(Drop)]
pub(crate) struct Held {
    /// The realm and the algorithm of the first challenge, and the nonce of the last one.
    pub(crate) challenge: ServerChallenge,
    /// The key of the user in the realm, which is made once for both.
    pub(crate) key: SigningKey,
}

impl Held {
    /// The judgement by integrity.
    pub(crate) fn judge<'a>(&self, message: &Message<'a>) -> Verdict<'a>
        ensures validation { (c : Credentials) → IsKeyOf c self.now.challenge self.now.key
            → validation_in result ≡ judged (Some c) (Some self.now.challenge) message.now }
        ensures none { challenge_read result ≡ None }
    {
        let Some(holds) = self.key.verifies(message) else {
            return Verdict::Refused { integrity: false };
        };
        if holds {
            return Verdict::Signed(self.key.algorithm());
        }
        Verdict::Refused { integrity: true }
    }
}

/// What challenges set, and not the key.
impl fmt::Debug for Held {
    fn fmt<W: fmt::Write>(&self, f: &mut fmt::Formatter<W>) -> fmt::Result {
        self.challenge.fmt(f)
    }
}
