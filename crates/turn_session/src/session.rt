//! A session of a client.

ghost use Rattle.std.specs.Prelude.{◌≡◌};
ghost use Rattle.turn_session.specs.SessionState.{new_session};
ghost use Rattle.turn_session.specs.Settings.{time_nanos};

mod asking;
mod channel_data;
mod checking;
mod counting;
mod data;
mod ending;
mod frames;
mod framing;
mod giving;
mod next;
mod polling;
mod receiving;
mod reporting;
mod sending;
mod sockets;
mod uses;

use crate::settings::SessionSettings;
use std::alloc::Global;
use std::marker::Model;
use std::time::Duration;
use turn_agent::NumberSource;
use turn_client_api::TurnClientApi;
use turn_session_client::noted::NotedClient;
use turn_session_counts::counts::RequestCounts;
use turn_session_idle::used::UsedPeers;
use turn_session_life::watch::Watch;
use turn_stun::instant::Instant;
use turn_types::tcp::TurnTcpBuffer;

/// A client from its first request to its end: the requests of the caller, which have one outcome each, what was granted, and whether
/// its peers are idle, whether the path to the server carries packets, whether the server still knows the allocation, and why the
/// session ends.
///
/// Contracts describe it by its `SessionState`.
#[derive(Debug, Drop)]
pub struct Session<C: TurnClientApi> {
    alloc: Global,
    noted: NotedClient<C>,
    /// What was received over a stream to the server, and is not passed to the client yet. The client's own buffer of it stays empty.
    frames: TurnTcpBuffer,
    watch: Watch,
    /// The time between two probes of the path, in nanoseconds.
    probe: Option<u64>,
    /// Whether the session was open when it was last polled, so that its path is probed.
    is_watching: bool,
    /// When something was last received that the path was not told of. So data of a peer costs a store.
    received: Option<Instant>,
    next_check: u32,
    counts: RequestCounts,
    /// When the peers were used last, and what is let go since they are idle.
    idle: UsedPeers,
}

impl<C: TurnClientApi> Model for Session<C> {
    ghost use Rattle.turn_session.specs.SessionState.{SessionState};

    ghost Value = { SessionState };

    ghost view = { λ s. record {
      noted = s.noted;
      frames = s.frames.stream;
      watch = s.watch;
      probe = s.probe;
      is_watching = s.is_watching;
      received = s.received;
      next_check = s.next_check;
      counts = s.counts;
      idle = s.idle;
    } };
}

impl<C: TurnClientApi> Session<C> {
    /// A session of this client, which was not called yet, with these settings. It begins now. From the seed come the transaction IDs of
    /// the checks of the path: nobody else may be able to guess it, nor may it be that of the client (RFC 8489, section 5).
    pub fn new(
        alloc: Global,
        client: C,
        settings: SessionSettings,
        seed: [u8; 32],
        now: Instant,
    ) -> Session<C>
        ensures { result ≡ new_session settings seed now (C.state client) }
    {
        let transport = client.transport();
        let noted = NotedClient::new(
            alloc,
            client,
            settings.checks_allocation,
            settings.leave_wait,
            now,
        );
        let ids = NumberSource::from_seed(seed);
        Session {
            alloc,
            noted,
            frames: TurnTcpBuffer::new(alloc),
            watch: Watch::new(transport, None, ids, now),
            probe: nanos_of(settings.probe),
            is_watching: false,
            received: None,
            next_check: 1,
            counts: RequestCounts::new(),
            idle: UsedPeers::new(alloc, nanos_of(settings.idle), now),
        }
    }

    /// The client.
    pub fn client(&self) -> &C
        ensures { C.state result.now ≡ self.now.noted.client }
    {
        self.noted.client()
    }
}

/// The time in nanoseconds, of which 2^64 - 1 are the most. No time at all is none.
fn nanos_of(time: Option<Duration>) -> Option<u64>
    ensures { result ≡ time_nanos time }
{
    let nanos = u64::try_from(time?.as_nanos()).unwrap_or(u64::MAX);
    if nanos == 0 { None } else { Some(nanos) }
}
