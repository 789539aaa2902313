//! A challenge as it is read in a message (RFC 8489, section 9.2.5).

ghost use Rattle.std.specs.Prelude.{◌≡◌, ◌≤◌, ℕ, List, Option, IfOk, IfSome, None, Some, is_some, length, option_copied, true};
ghost use Rattle.turn_auth.specs.Challenge.{challenge_by, picked, sent_back};
ghost use Rattle.turn_stun.specs.Message.{attributes_from};
ghost use Rattle.turn_stun.specs.Read.{value_in};

use crate::challenge::{Denial, offered_in, picked};
use crate::integrity::IntegrityAlgorithm;
use crate::server_challenge::ServerChallenge;
use smallvec::SmallVec;
use std::alloc::{AllocError, Global};
use std::marker::Model;
use turn_stun::attribute::error_code::ErrorCode;
use turn_stun::message::Message;

/// A challenge that borrows its realm and its nonce from the message in which it was read. A client that
/// is to hold it makes a [`ServerChallenge`] of it, and one that ignores it allocates no memory.
#[derive(Debug, Drop)]
pub struct ReceivedChallenge<'a> {
    realm: &'a [u8],
    nonce: &'a [u8],
    algorithm: IntegrityAlgorithm,
    password_algorithms: SmallVec<u8, 64>,
}

impl<'a> Model for ReceivedChallenge<'a> {
    ghost use Rattle.turn_auth.specs.LongTerm.{Challenge};

    ghost Value = { Challenge };

    ghost use Rattle.turn_auth.specs.Received.{received_view};
    ghost use Rattle.turn_auth.specs.Kept.{IsWritable};

    ghost view = { received_view };

    ghost invariant = { λ challenge. IsWritable (received_view challenge) };
}

impl<'a> ReceivedChallenge<'a> {
    /// A first challenge, for which one of these algorithms is selected, if the denial in the message is one.
    pub(crate) fn first(
        alloc: Global,
        denial: &Denial<'a>,
        supported: &[IntegrityAlgorithm],
        message: &Message<'_>,
    ) -> Option<ReceivedChallenge<'a>>
        ensures { result ≡ challenge_by supported.now None (value_in 0x8002 message.now) denial.now }
    {
        if denial.code != ErrorCode::UNAUTHORIZED && denial.code != ErrorCode::STALE_NONCE {
            return None;
        }
        let offered = offered_in(message);
        let algorithm = picked(supported, offered)?;
        let password_algorithms = sent_back(alloc, algorithm, offered);
        Some(ReceivedChallenge {
            realm: denial.realm.as_bytes(),
            nonce: denial.nonce.as_bytes(),
            algorithm,
            password_algorithms,
        })
    }

    /// A later challenge to a client that holds this one, if the denial is one: its nonce alone is new.
    pub(crate) fn later(
        alloc: Global,
        denial: &Denial<'a>,
        held: &ServerChallenge,
    ) -> Option<ReceivedChallenge<'a>>
        ensures exact { (supported : List IntegrityAlgorithm) (offered : Option (List ℕ)) → result ≡ challenge_by supported (Some held.now) offered denial.now }
        ensures kept { IfSome result (λ challenge. challenge ≡ record held.now { nonce = challenge.nonce }) }
    {
        if denial.code != ErrorCode::STALE_NONCE || denial.realm.as_bytes() != held.realm() {
            return None;
        }
        let algorithms = held.password_algorithms();
        Some(ReceivedChallenge {
            realm: denial.realm.as_bytes(),
            nonce: denial.nonce.as_bytes(),
            algorithm: held.algorithm(),
            password_algorithms: SmallVec::from_slice(alloc, algorithms).unwrap(),
        })
    }

    /// The algorithm to sign with from now on.
    pub fn algorithm(&self) -> IntegrityAlgorithm
        ensures { result ≡ self.now.algorithm }
    {
        self.algorithm
    }

    /// The challenge for a client to hold.
    ///
    /// # Errors
    ///
    /// If memory allocation fails.
    pub fn copied(&self, alloc: Global) -> Result<ServerChallenge, AllocError>
        ensures { IfOk result (λ challenge. challenge ≡ self.now) }
    {
        let algorithms = self.password_algorithms.as_slice();
        Ok(ServerChallenge {
            realm: Vec::from_slice(alloc, self.realm)?,
            nonce: Vec::from_slice(alloc, self.nonce)?,
            algorithm: self.algorithm,
            password_algorithms: SmallVec::from_slice(alloc, algorithms).unwrap(),
        })
    }
}

/// The value that is sent back with the algorithm that a first challenge selected from it.
fn sent_back(
    alloc: Global,
    algorithm: IntegrityAlgorithm,
    offered: Option<&[u8]>,
) -> SmallVec<u8, 64>
    requires { (supported : List IntegrityAlgorithm) × (picked supported (option_copied offered) ≡ Some algorithm) }
    ensures items { result.items ≡ sent_back (option_copied offered.entry) algorithm }
    ensures short { length result.items ≤ 64 }
    ensures whole { is_some (attributes_from 0 0 result.items) ≡ true }
{
    match (algorithm, offered) {
        (IntegrityAlgorithm::Sha256, Some(value)) => SmallVec::from_slice(alloc, value).unwrap(),
        _ => SmallVec::new(alloc),
    }
}
