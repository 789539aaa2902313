//! A hundred permissions that are requested at one time, of a server whose nonce becomes stale meanwhile, and two answers that are
//! lost. That is within the premises under which no grant is lost (`turn_client_runs::grants_last_while_the_server_answers`): at
//! most 101 grants, 300 queued packets and 500 extra ones, one every 50 ms, and 5 s for each request take 50 s, and
//! permissions are refreshed 60 s ahead.

use crate::caller::Caller;
use crate::fixture::{check, client_with_limit};
use crate::messages::{ALLOCATES, CHALLENGES, PERMITS, REFRESHES};
use crate::server::{Answer, CREATE_PERMISSION, Often, Rule};
use crate::slow_link::{STALE, are_permitted, are_requested};
use std::alloc::{AllocError, Global};
use std::num::NonZeroU16;
use std::process::Abort;
use std::test::Fail;
use turn_auth::credentials::CredentialsError;
use turn_client_api::TurnClientApi;

/// The answers to the tenth request for a permission and to the fortieth are lost, and after twenty the nonce `nonce` is stale.
const LOSES_TWO: &[Rule<'static>] = &[
    CHALLENGES,
    (CREATE_PERMISSION, Often::After(9), Answer::Nothing),
    (CREATE_PERMISSION, Often::After(39), Answer::Nothing),
    (
        CREATE_PERMISSION,
        Often::StaleFrom(20),
        Answer::Error(STALE),
    ),
    ALLOCATES,
    PERMITS,
    REFRESHES,
];

/// How many peers are permitted.
const PEERS: u8 = 100;

/// When each permission is looked for, in milliseconds: 5 s after all were requested, around their refreshes, which are due
/// 240 s after they were granted, and after their first two expiries.
const TIMES: &[u32] = &[7_000, 242_000, 250_000, 302_000, 310_000, 490_000, 620_000];

/// Asserts that each permission is there at each of these times.
fn keeps_all<C: TurnClientApi>(
    rt: &impl Abort,
    client: &mut C,
    caller: &mut Caller,
) -> Result<(), AllocError> {
    caller.wait(client, LOSES_TWO, 2_000)?;
    check(rt, are_requested(client, PEERS, 2_000), 2_000);
    for time in TIMES {
        caller.wait(client, LOSES_TWO, *time)?;
        check(rt, !caller.has_ended && are_permitted(client, PEERS), *time);
    }
    Ok(())
}

/// Asserts that a client keeps all permissions.
fn goes_on<C: TurnClientApi>(
    rt: &impl Abort,
    alloc: Global,
    client: Result<C, CredentialsError>,
) -> Result<(), Fail> {
    let mut client = client?;
    let mut caller = Caller::new(alloc);
    keeps_all(rt, &mut client, &mut caller)?;
    check(rt, caller.server.unsigned == 1, 620_000);
    Ok(())
}

#[test]
fn a_hundred_peers_at_once_are_kept(rt: HostRuntime) -> Result<(), Fail> {
    let limit = NonZeroU16::new(256).ok_or("zero")?;
    goes_on(&rt, rt.alloc(), client_with_limit(rt.alloc(), limit))
}
