//! The credentials of a client (RFC 8489, section 9.2).

ghost use Rattle.std.specs.Prelude.{◌≡◌, ◌≤◌, ◌<◌, ◌↔◌, ◌⊎◌, ◌==◌, length, IsErrOf, IfOk};
ghost use Rattle.std.proofs.Common.{rules};
ghost use Rattle.std.specs.Cmp.Rules.{comparing};
ghost use Rattle.std.specs.Cmp.Lexicographic.{pointwise};
ghost use Rattle.std.specs.Ordering.{eq_of_both, on};
ghost use Rattle.turn_auth.specs.Credentials.{IsCredentials, IsUser};

use std::alloc::{AllocError, Global};
use std::fmt;
use std::marker::Model;
use thiserror::Error;

/// Why credentials are refused: the first of these that holds.
#[derive(Clone, Copy, Debug, PartialEq, Eq, Error)]
pub enum CredentialsError {
    /// The user name is empty, or has more than the 508 bytes of a USERNAME (RFC 8489, section
    /// 14.3).
    #[error("the user name is empty or over 508 bytes")]
    User,
    /// The password has more than 65,535 bytes (our choice).
    #[error("the password is over 65,535 bytes")]
    Password,
    /// Memory allocation for a copy failed.
    #[error("out of memory")]
    OutOfMemory,
}

impl From<AllocError> for CredentialsError {
    ghost use Rattle.std.specs.Prelude.{◌≡◌};
    ghost use Rattle.turn_auth.specs.declared.credentials.CredentialsError.TheVariants.{OutOfMemory};

    ghost from_gives = { λ _ error. error ≡ OutOfMemory };

    fn from(_error: AllocError) -> CredentialsError {
        CredentialsError::OutOfMemory
    }
}

/// A user name and a password, as bytes that are used unchanged: no string is prepared.
///
/// Contracts see the two texts. They are compared by content, and Debug prints no password.
#[derive(Drop)]
pub struct TurnCredentials {
    user: Vec<u8>,
    password: Vec<u8>,
}

impl Model for TurnCredentials {
    ghost use Rattle.turn_auth.specs.Credentials.{Credentials, IsCredentials};

    ghost Value = { Credentials };

    ghost view = { λ c. record { user = c.user.items; password = c.password.items } };

    ghost invariant = { λ c. IsCredentials (record { user = c.user.items; password = c.password.items }) };
}

impl TurnCredentials {
    /// The credentials of this user, with this password.
    ///
    /// # Errors
    ///
    /// The first of these: `User` if the user name is empty or over 508 bytes, `Password` if the password
    /// is over 65,535 bytes, `OutOfMemory`.
    pub fn new(alloc: Global, user: &[u8], pass: &[u8]) -> Result<TurnCredentials, CredentialsError>
        ensures ok { IfOk result (λ credentials. credentials ≡ record { user = user.now; password = pass.now }) }
        ensures valid { IfOk result (λ credentials. IsCredentials credentials) }
        ensures user { IsErrOf result CredentialsError.User ↔ ((length user.now ≡ 0) ⊎ (508 < length user.now)) }
        ensures password { IsErrOf result CredentialsError.Password ↔ (IsUser user.now × (65535 < length pass.now)) }
    {
        if user.is_empty() || user.len() > 508 {
            return Err(CredentialsError::User);
        }
        if pass.len() > 65_535 {
            return Err(CredentialsError::Password);
        }
        Ok(TurnCredentials {
            user: Vec::from_slice(alloc, user)?,
            password: Vec::from_slice(alloc, pass)?,
        })
    }

    /// The bytes of the user name, 1 to 508 of them.
    pub fn user(&self) -> &[u8]
        ensures bytes { result.now ≡ self.now.user }
        ensures valid { IsUser result.now }
    {
        self.user.as_slice()
    }

    /// The bytes of the password, at most 65,535 of them.
    pub(crate) fn password(&self) -> &[u8]
        ensures bytes { result.now ≡ self.now.password }
        ensures short { length result.now ≤ 65535 }
    {
        self.password.as_slice()
    }
}

impl Clone for TurnCredentials {
    ghost is_clone = { λ credentials copy. copy ≡ credentials };

    fn clone(&self) -> Result<TurnCredentials, AllocError> {
        Ok(TurnCredentials {
            user: Vec::from_slice(*self.user.allocator(), self.user())?,
            password: Vec::from_slice(*self.password.allocator(), self.password())?,
        })
    }
}

impl PartialEq for TurnCredentials {
    ghost use Rattle.turn_auth.specs.Credentials.{user_of, password_of};

    ghost eq = { eq_of_both (on user_of (pointwise ◌==◌)) (on password_of (pointwise ◌==◌)) };

    ghost laws = { Prim.search (comparing, rules) };

    fn eq(&self, other: &TurnCredentials) -> bool {
        self.user() == other.user() && self.password() == other.password()
    }
}

impl Eq for TurnCredentials {
    ghost laws = { Prim.search (comparing, rules) };
}

impl fmt::Debug for TurnCredentials {
    fn fmt<W: fmt::Write>(&self, f: &mut fmt::Formatter<W>) -> fmt::Result {
        // The password is not printed (our choice): a reader of a log could sign with it.
        f.debug_struct("TurnCredentials")
            .field("user", &self.user)
            .finish_non_exhaustive()
    }
}
