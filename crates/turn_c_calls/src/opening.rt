//! A new session.

ghost use Rattle.std.specs.Prelude.{◌≡◌, None, Ok, Some, IfOk, IfErr};
ghost use Rattle.turn_client_calls.specs.Settings.{credentials_with};
ghost use Rattle.turn_client_proto.specs.Client.{state_of};
ghost use Rattle.turn_stun.specs.declared.transport.TransportType.TheVariants.{Udp};
ghost use Rattle.turn_c_calls.specs.Open.{IsNoUser, Refuses, config_of, limited, new_client, paced, c_seed, session_of};

use crate::code::{BAD_CREDENTIALS, BAD_SEED, BAD_SETTINGS, OUT_OF_MEMORY};
use crate::session::Session;
use crate::settings::{Plan, Settings, plan_of};
use std::alloc::{AllocError, Global};
use std::num::NonZeroU16;
use std::time::Duration;
use turn_auth::credentials::{CredentialsError, TurnCredentials};
use turn_client_api::TurnConfig;
use turn_client_calls::settings::{Ends, configuration};
use turn_client_proto::client::TurnClient;

/// Why there is no session: the first of these that holds.
#[derive(Clone, Copy, Debug, PartialEq, Eq)]
pub enum OpenError {
    /// The settings have a number or an address that is invalid, or a reserved place that is not 0, or a client over UDP
    /// requests an allocation over TCP.
    Settings,
    /// The user name does not have 1 to 508 bytes, or the password has over 65,535.
    Credentials,
    /// The seed does not have 32 bytes.
    Seed,
    /// Memory allocation failed.
    OutOfMemory,
}

impl From<AllocError> for OpenError {
    ghost use Rattle.std.specs.Prelude.{◌≡◌};
    ghost use Rattle.turn_c_calls.specs.declared.opening.OpenError.TheVariants.{OutOfMemory};

    ghost from_gives = { λ _ error. error ≡ OutOfMemory };

    fn from(_error: AllocError) -> OpenError {
        OpenError::OutOfMemory
    }
}

impl OpenError {
    ghost use Rattle.std.specs.Prelude.{◌≡◌};
    ghost use Rattle.turn_c_calls.specs.Open.{error_code};

    /// The number of the error.
    pub fn code(self) -> u32
        ensures { result ≡ error_code self }
    {
        match self {
            OpenError::Settings => BAD_SETTINGS,
            OpenError::Credentials => BAD_CREDENTIALS,
            OpenError::Seed => BAD_SEED,
            OpenError::OutOfMemory => OUT_OF_MEMORY,
        }
    }
}

/// A session with a new client that has these settings and credentials, and draws its transaction IDs from this seed.
///
/// # Errors
///
/// The first that holds of `Settings`, `Credentials` and `Seed`, or `OutOfMemory` if memory allocation for the credentials
/// or for the client fails.
pub fn new_session(
    alloc: Global,
    settings: &Settings,
    user: &[u8],
    password: &[u8],
    seed: &[u8],
) -> Result<Session, OpenError>
    ensures ok { IfOk result (λ session. session_of settings.now user.now password.now seed.now ≡ Ok session) }
    ensures err { IfErr result (Refuses (session_of settings.now user.now password.now seed.now)) }
{
    let plan = plan_of(settings).ok_or(OpenError::Settings)?;
    let credentials = match credentials(alloc, user, password) {
        Err(OpenError::OutOfMemory) => None,
        made => Some(made?),
    };
    // A wrong seed is told first, also if memory allocation failed.
    let seed = c_seed(seed).ok_or(OpenError::Seed)?;
    let credentials = credentials.ok_or(OpenError::OutOfMemory)?;
    let client = new_client(alloc, plan, credentials, seed)?;
    Ok(Session::new(client, plan.request.allocation))
}

/// The credentials, or `Credentials` or `OutOfMemory`.
fn credentials(alloc: Global, user: &[u8], password: &[u8]) -> Result<TurnCredentials, OpenError>
    ensures ok { IfOk result (λ credentials. credentials_with user.now password.now ≡ Some credentials) }
    ensures err { IfErr result (IsNoUser user.now password.now) }
{
    match TurnCredentials::new(alloc, user, password) {
        Ok(credentials) => Ok(credentials),
        Err(CredentialsError::OutOfMemory) => Err(OpenError::OutOfMemory),
        Err(_) => Err(OpenError::Credentials),
    }
}

/// The seed, of 32 bytes.
fn c_seed(seed: &[u8]) -> Option<[u8; 32]>
    ensures { result ≡ c_seed seed.now }
{
    <[u8; 32]>::try_from(seed).ok()
}

/// The configuration of a plan.
fn config_of(alloc: Global, plan: Plan, credentials: TurnCredentials) -> TurnConfig
    ensures { result ≡ config_of plan credentials }
{
    let mut config = configuration(alloc, plan.request, credentials, plan.waits);
    limit(&mut config, plan.max_stale_nonces);
    pace(&mut config, &plan);
    config
}

/// Sets how many challenges in a row are answered, unless this is 0.
fn limit(config: &mut TurnConfig, max_stale_nonces: u16)
    ensures { config.new ≡ limited max_stale_nonces config.old }
{
    if let Some(limit) = NonZeroU16::new(max_stale_nonces) {
        config.set_max_stale_nonces(limit);
    }
}

/// Sets the times that a plan has, and from when on requests wait for their responses.
fn pace(config: &mut TurnConfig, plan: &Plan)
    ensures { config.new ≡ paced plan.now config.old }
{
    if let Some(nanos) = plan.request_cadence {
        config.set_request_cadence(Duration::from_nanos(nanos));
    }
    match plan.keepalive {
        None => config.set_keepalive(None),
        Some(nanos) => config.set_keepalive(Some(Duration::from_nanos(nanos))),
    }
    if let Some(nanos) = plan.refresh_ahead {
        config.set_refresh_ahead(Duration::from_nanos(nanos));
    }
    config.set_requests_timed_from_send(plan.timed_from_send);
}

/// The new client of a plan.
fn new_client(
    alloc: Global,
    plan: Plan,
    credentials: TurnCredentials,
    seed: [u8; 32],
) -> Result<TurnClient, AllocError>
    requires { plan.ends.transport ≡ Udp → plan.request.allocation ≡ Udp }
    ensures { IfOk result (λ client. state_of client ≡ new_client plan credentials seed) }
{
    let config = config_of(alloc, plan, credentials);
    let Ends {
        transport,
        local,
        remote,
    } = plan.ends;
    TurnClient::allocate(alloc, transport, local, remote, config, seed)
}
