//! Each message against one from another implementation. If memory allocation fails, no message is returned.

ghost use Rattle.std.specs.Prelude.{IfOk, IsSome};
ghost use Rattle.turn_auth.specs.Challenge.{MayTake};

mod vectors;

use crate::fixture::{peer, same_bytes};
use std::alloc::{AllocError, Global};
use std::net::{IpAddr, Ipv4Addr};
use std::process::Abort;
use std::test::Fail;
use turn_auth::credentials::CredentialsError;
use turn_auth::{LongTermClientAuth, ServerChallenge, TurnCredentials};
use turn_client_api::{Data, Purpose};
use turn_client_requests::{
    AttemptRefusal, accepted_reply, delete_request, first_allocate, refused_reply, request_for,
    request_under,
};
use turn_stun::message::Message;
use turn_stun::transaction::TransactionId;
use turn_stun::transport::TransportType;
use turn_types::AddressFamily;

/// An ALLOCATE for UDP and IPv4, with the first ID of the zero seed, without integrity.
const FIRST_ALLOCATE: &[u8] =
    b"\x00\x03\x00\x14\x21\x12\xa4\x42\x76\xb8\xe0\xad\xa0\xf1\x3d\x90\x40\x5d\x6a\xe5\
    \x00\x0d\x00\x04\x00\x00\x07\x08\x00\x19\x00\x04\x11\x00\x00\x00\x00\x1a\x00\x00";

const IPV4: &[AddressFamily] = &[AddressFamily::IPV4];

fn id() -> TransactionId {
    TransactionId::from_bytes(vectors::ID)
}

/// The same bytes, if memory allocation succeeded, in a vector that never grew: else its capacity would be
/// twice as large.
fn is_text(rt: &impl Abort, found: Result<Data, AllocError>, want: &[u8]) {
    if let Ok(text) = found {
        let bytes = text.into_bytes();
        same_bytes(rt, bytes.as_slice(), want);
        assert!(rt; bytes.capacity() == want.len());
    }
}

#[test]
fn the_first_allocate_is_not_signed(rt: HostRuntime) {
    let id = TransactionId::from_bytes(*b"\x76\xb8\xe0\xad\xa0\xf1\x3d\x90\x40\x5d\x6a\xe5");
    let text = first_allocate(rt.alloc(), TransportType::Udp, IPV4, id);
    is_text(&rt, text, FIRST_ALLOCATE);
}

/// A client with the credentials `user` and `pass`.
fn client(alloc: Global) -> Result<LongTermClientAuth, CredentialsError>
    ensures { IfOk result (λ auth. IsSome auth.credentials) }
{
    let credentials = TurnCredentials::new(alloc, b"user", b"pass")?;
    let mut auth = LongTermClientAuth::new(alloc);
    auth.set_credentials(credentials);
    Ok(auth)
}

/// Its view of the challenge.
fn challenge_to(auth: &LongTermClientAuth) -> Result<ServerChallenge, Fail>
    ensures { IfOk result (MayTake auth.now) }
{
    let message = Message::from_bytes(vectors::CHALLENGE)?;
    match auth.challenge_in(&message)? {
        Some(challenge) => Ok(challenge),
        None => Err(Fail::from("no challenge")),
    }
}

/// The request of a client that holds the challenge.
fn asks(rt: &impl Abort, alloc: Global, auth: &LongTermClientAuth, purpose: Purpose, want: &[u8])
    requires { IsSome auth.now.held }
{
    let text = request_for(alloc, auth, TransportType::Udp, IPV4, &purpose, id());
    is_text(rt, text, want);
}

fn asks_for_each(rt: &impl Abort, alloc: Global, auth: &LongTermClientAuth)
    requires { IsSome auth.now.held }
{
    let refresh = Purpose::ForRefresh(AddressFamily::IPV4, 1_800);
    let permission = Purpose::ForPermission(IpAddr::V4(Ipv4Addr::new(10, 0, 0, 3)));
    let channel = Purpose::ForChannel(0x4000, peer());
    let bind = Purpose::ForBind(peer(), peer(), 9);
    asks(rt, alloc, auth, Purpose::ForAllocation, vectors::ALLOCATE);
    asks(rt, alloc, auth, refresh, vectors::REFRESH);
    asks(rt, alloc, auth, permission, vectors::CREATE_PERMISSION);
    asks(rt, alloc, auth, channel, vectors::CHANNEL_BIND);
    asks(
        rt,
        alloc,
        auth,
        Purpose::ForConnect(peer()),
        vectors::CONNECT,
    );
    asks(rt, alloc, auth, bind, vectors::CONNECTION_BIND);
    is_text(rt, delete_request(alloc, auth, id()), vectors::DELETE);
}

/// The refusal of a client that holds the challenge.
fn refuses(
    rt: &impl Abort,
    alloc: Global,
    auth: &LongTermClientAuth,
    refusal: AttemptRefusal,
    want: &[u8],
)
    requires { IsSome auth.now.held }
{
    is_text(rt, refused_reply(alloc, auth, refusal, id()), want);
}

fn replies(rt: &impl Abort, alloc: Global, auth: &LongTermClientAuth)
    requires { IsSome auth.now.held }
{
    let exists = AttemptRefusal::ConnectionAlreadyExists;
    let timed_out = AttemptRefusal::ConnectionTimeoutOrFailure;
    is_text(rt, accepted_reply(alloc, auth, id()), vectors::ACCEPTED);
    refuses(
        rt,
        alloc,
        auth,
        AttemptRefusal::BadRequest,
        vectors::BAD_REQUEST,
    );
    refuses(rt, alloc, auth, exists, vectors::ALREADY_EXISTS);
    refuses(rt, alloc, auth, timed_out, vectors::TIMED_OUT);
}

/// The ALLOCATE of a client under a challenge that it does not hold yet.
fn asks_under(
    rt: &impl Abort,
    alloc: Global,
    auth: &LongTermClientAuth,
    challenge: &ServerChallenge,
)
    requires { IsSome auth.now.credentials }
{
    let purpose = Purpose::ForAllocation;
    let udp = TransportType::Udp;
    let text = request_under(alloc, auth, challenge, udp, IPV4, &purpose, id());
    is_text(rt, text, vectors::ALLOCATE);
}

#[test]
fn each_request_and_reply_is_signed(rt: HostRuntime) -> Result<(), Fail> {
    let mut auth = client(rt.alloc())?;
    let challenge = challenge_to(&auth)?;
    asks_under(&rt, rt.alloc(), &auth, &challenge);
    auth.accept(challenge);
    asks_for_each(&rt, rt.alloc(), &auth);
    replies(&rt, rt.alloc(), &auth);
    Ok(())
}
