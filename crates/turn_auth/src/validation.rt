//! How a message is judged.

ghost use Rattle.std.specs.Prelude.{◌≡◌};
ghost use Rattle.turn_auth.specs.Verdict.{validation_in};

use crate::integrity::IntegrityAlgorithm;
use crate::received_challenge::ReceivedChallenge;

/// What is to be done with a message.
#[derive(Clone, Copy, Debug, PartialEq, Eq)]
pub enum Validation {
    /// It is signed with the key that is held, using this algorithm.
    Validated(IntegrityAlgorithm),
    /// It is a challenge, after which this algorithm is used: accept it, and make the request
    /// again.
    ResendRequest(IntegrityAlgorithm),
    /// It is neither: act on nothing that it contains.
    Refused {
        /// Whether an attribute of the algorithm that is held is seen, and so is invalid.
        integrity: bool,
    },
}

/// A [`Validation`] with the challenge that was read, so that who answers it need not read it again.
#[derive(Debug, Drop)]
pub enum Verdict<'a> {
    /// It is signed with the key that is held, using this algorithm.
    Signed(IntegrityAlgorithm),
    /// It is this challenge: accept it, and make the request again.
    Challenge(ReceivedChallenge<'a>),
    /// It is neither: act on nothing that it contains.
    Refused {
        /// Whether an attribute of the algorithm that is held is seen, and so is invalid.
        integrity: bool,
    },
}

impl Verdict<'_> {
    /// The judgement alone.
    pub fn validation(&self) -> Validation
        ensures { result ≡ validation_in self.now }
    {
        match self {
            Verdict::Signed(algorithm) => Validation::Validated(*algorithm),
            Verdict::Challenge(challenge) => Validation::ResendRequest(challenge.algorithm()),
            Verdict::Refused { integrity } => Validation::Refused {
                integrity: *integrity,
            },
        }
    }
}
