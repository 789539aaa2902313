//! Credentials by the paths by which callers of the original crate name them.

use crate::fixture::check;
use crate::proto::fixture::FIRST_ALLOCATE;
use std::test::Fail;
use turn_client_proto::stun::auth::{Feature, LongTermClientAuth};
use turn_client_proto::types::TurnCredentials;
use turn_client_proto::types::stun::message::Message;

#[test]
fn credentials_are_named_by_types_and_auth(rt: HostRuntime) -> Result<(), Fail> {
    let credentials = TurnCredentials::new(rt.alloc(), b"user", b"pass")?;
    let mut auth = LongTermClientAuth::new(rt.alloc());
    auth.set_anonymous_username(Feature::Required);
    auth.set_credentials(credentials);
    check(&rt, auth.credentials().is_some());
    check(&rt, Message::from_bytes(FIRST_ALLOCATE).is_ok());
    Ok(())
}
