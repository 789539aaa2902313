//! A new client.

ghost use Rattle.std.specs.Prelude.{◌≡◌, ◌≢◌, ◌≤◌, ◌<◌, [], length, AllPairs, IfOk, Some, None};
ghost use Rattle.turn_client_api.specs.State.{initial};

use crate::outbox::Outbox;
use crate::protocol::TurnClientProtocol;
use smallvec::SmallVec;
use std::alloc::{AllocError, Global};
use std::net::SocketAddr;
use turn_auth::integrity::IntegrityAlgorithm;
use turn_auth::long_term::LongTermClientAuth;
use turn_client_api::{Phase, TurnConfig};
use turn_client_grants::GrantLedger;
use turn_stun::transport::TransportType;

impl TurnClientProtocol {
    /// A client that sends from `local` to the server at `remote`, and draws its transaction IDs from
    /// this seed. It has requested nothing yet.
    ///
    /// It is in a box, since it has two kilobytes: as a value it would be copied on the stack by each function that it passes
    /// through, several times.
    ///
    /// RFC 8489, section 5, requires IDs that cannot be guessed. They are only as unpredictable as the
    /// seed is secret.
    ///
    /// # Errors
    ///
    /// `AllocError` if memory allocation fails.
    pub fn boxed(
        alloc: Global,
        transport: TransportType,
        local: SocketAddr,
        remote: SocketAddr,
        config: TurnConfig,
        seed: [u8; 32],
    ) -> Result<Box<TurnClientProtocol>, AllocError>
        ensures { IfOk result (λ client. client.value ≡ record (initial transport local remote config seed) { streams = [] }) }
    {
        let auth = auth_for(alloc, &config)?;
        let families = SmallVec::from_slice(alloc, config.address_families())?;
        let timers = config.request_timers();
        let client = TurnClientProtocol {
            alloc,
            phase: Phase::New,
            families,
            auth,
            ledger: GrantLedger::new(config.allocation_transport(), alloc),
            outbox: Outbox::new(alloc, transport, local, remote, timers, seed),
            challenges: 0,
            config,
        };
        match Box::new(alloc, client) {
            Ok(client) => Ok(client),
            Err(failed) => Err(failed.into()),
        }
    }
}

/// The signer of a client with this configuration (RFC 8489, section 9.2).
fn auth_for(alloc: Global, config: &TurnConfig) -> Result<LongTermClientAuth, AllocError>
    ensures { IfOk result (λ auth. auth ≡ record {
      credentials = Some config.now.credentials;
      supported = config.now.supported_integrity;
      anonymous_username = config.now.anonymous_username;
      held = None;
    }) }
{
    let mut auth = LongTermClientAuth::new(alloc);
    auth.set_credentials(config.credentials().clone()?);
    auth.set_anonymous_username(config.anonymous_username());
    support(&mut auth, config.supported_integrity());
    Ok(auth)
}

/// Allows challenges to choose these algorithms, and no others.
#[tactic(auto, using(crate::proofs::AlgorithmLemmas::two_algorithms))]
fn support(auth: &mut LongTermClientAuth, algorithms: &[IntegrityAlgorithm])
    requires some { 0 < length algorithms.now }
    requires few { length algorithms.now ≤ 2 }
    requires distinct { AllPairs (λ a b. a ≢ b) algorithms.now }
    ensures { auth.new ≡ record auth.old { supported = algorithms.now } }
{
    auth.set_supported_integrity(algorithms[0]);
    if algorithms.len() == 2 {
        auth.add_supported_integrity(algorithms[1]);
    }
}
