//! Credentials, their printed text, and defaults.

use crate::auth::fixture::challenged;
use crate::fixture::{check, same, same_bytes};
use std::alloc::{AllocError, Global};
use std::process::Abort;
use std::test::Fail;
use turn_auth::credentials::{CredentialsError, TurnCredentials};
use turn_auth::feature::Feature;
use turn_auth::integrity::IntegrityAlgorithm;
use turn_auth::long_term::LongTermClientAuth;

/// Why credentials of these lengths are refused.
fn refusal(
    alloc: Global,
    user_len: usize,
    password_len: usize,
) -> Result<Option<CredentialsError>, AllocError> {
    let user = vec![in alloc; b'a'; user_len]?;
    let password = vec![in alloc; b'a'; password_len]?;
    Ok(TurnCredentials::new(alloc, user.as_slice(), password.as_slice()).err())
}

#[test]
fn credentials_are_refused_by_length(rt: HostRuntime) -> Result<(), Fail> {
    let cases = [
        (1usize, 0usize, None),
        (508, 65_535, None),
        (0, 0, Some(CredentialsError::User)),
        (0, 65_536, Some(CredentialsError::User)),
        (509, 0, Some(CredentialsError::User)),
        (509, 65_536, Some(CredentialsError::User)),
        (1, 65_536, Some(CredentialsError::Password)),
    ];
    for (user_len, password_len, expected) in cases {
        let found = refusal(rt.alloc(), user_len, password_len)?;
        same(&rt, found, expected);
    }
    Ok(())
}

/// Whether these credentials differ from those of `user` and `pass`.
fn differ(alloc: Global, user: &[u8], password: &[u8]) -> Result<bool, CredentialsError> {
    let first = TurnCredentials::new(alloc, b"user", b"pass")?;
    let second = TurnCredentials::new(alloc, user, password)?;
    Ok(first != second)
}

#[test]
fn credentials_are_compared_by_content(rt: HostRuntime) -> Result<(), Fail> {
    check(&rt, differ(rt.alloc(), b"user", b"word")?);
    check(&rt, differ(rt.alloc(), b"usr", b"epass")?);
    Ok(())
}

#[test]
fn a_copy_has_the_same_content(rt: HostRuntime) -> Result<(), Fail> {
    let first = TurnCredentials::new(rt.alloc(), b"user", b"pass")?;
    check(&rt, first == first.clone()?);
    same_bytes(&rt, first.user(), b"user");
    Ok(())
}

/// Credentials with a recognisable password.
fn secret(alloc: Global) -> Result<TurnCredentials, CredentialsError> {
    TurnCredentials::new(alloc, b"AB", b"secret")
}

#[test]
fn no_password_is_printed(rt: HostRuntime) -> Result<(), Fail> {
    let credentials = secret(rt.alloc())?;
    let text = format!(in rt.alloc(); "{credentials:?}")?;
    same(&rt, text.as_str(), "TurnCredentials { user: [65, 66], .. }");
    Ok(())
}

/// A client that was challenged, and then got other credentials.
fn secret_client(rt: &impl Abort, alloc: Global) -> Box<LongTermClientAuth> {
    let mut auth = challenged(rt, alloc, IntegrityAlgorithm::Sha1);
    auth.set_credentials(secret(alloc).expect(rt, "memory"));
    auth
}

#[test]
fn no_key_is_printed(rt: HostRuntime) -> Result<(), Fail> {
    let auth = secret_client(&rt, rt.alloc());
    let text = format!(in rt.alloc(); "{auth:?}")?;
    same(
        &rt,
        text.as_str(),
        "LongTermClientAuth { credentials: Some(TurnCredentials { user: [65, 66], .. }), \
        supported: [Sha1], anonymous_username: Auto, held: Some(ServerChallenge { \
        realm: [114, 101, 97, 108, 109], nonce: [110, 111, 110, 99, 101], \
        algorithm: Sha1, .. }), .. }",
    );
    Ok(())
}

#[test]
fn an_error_is_printed_in_words(rt: HostRuntime) -> Result<(), Fail> {
    let error = format!(in rt.alloc(); "{}", CredentialsError::User)?;
    same(
        &rt,
        error.as_str(),
        "the user name is empty or over 508 bytes",
    );
    Ok(())
}

#[test]
fn defaults_are_the_plainest(rt: HostRuntime) {
    same(&rt, IntegrityAlgorithm::default(), IntegrityAlgorithm::Sha1);
    same(&rt, Feature::default(), Feature::Auto);
}
