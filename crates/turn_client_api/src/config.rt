//! What a client requests from its server, and with which credentials.

ghost use Rattle.std.specs.Prelude.{◌≡◌, ◌<◌, ◌≤◌, ◌≢◌, [], ◌∷◌, Some, None, false, length, max, option_map, IfOk, AllPairs, Contains};
ghost use Rattle.std.specs.Duration.{as_nanos};
ghost use Rattle.std.specs.Int.NonZero.{non_zero_u16_get};
ghost use Rattle.turn_agent.specs.Schedule.{wait_of};
ghost use Rattle.turn_auth.specs.LongTerm.{with_algorithm};
ghost use Rattle.turn_client_api.specs.Config.{Config, default_max_stale_nonces, default_refresh_ahead, default_request_cadence, least_keepalive};
ghost use Rattle.turn_client_api.specs.Config.{least_refresh_ahead, timers_of, with_family};
ghost use Rattle.turn_client_api.specs.SameConfig.{same_keepalive, same_limits, same_request, same_switch, same_times, same_user};

use smallvec::SmallVec;
use std::alloc::{AllocError, Global};
use std::marker::Model;
use std::num::NonZeroU16;
use std::time::Duration;
use turn_agent::schedule::RequestTimers;
use turn_auth::credentials::TurnCredentials;
use turn_auth::feature::Feature;
use turn_auth::integrity::IntegrityAlgorithm;
use turn_types::{AddressFamily, TransportType};

/// How a client is set up: who it is, and what it requests from its server.
///
/// Contracts see it as a record of its settings. Neither list is ever empty or names a value twice,
/// and both have room for all their values, so that no setter allocates memory. Debug prints no
/// password.
#[derive(Debug, Drop)]
pub struct TurnConfig {
    allocation_transport: TransportType,
    // Both lists are inline, with room for both values (our choice): no setter allocates memory.
    address_families: SmallVec<AddressFamily, 2>,
    credentials: TurnCredentials,
    supported_integrity: SmallVec<IntegrityAlgorithm, 2>,
    anonymous_username: Feature,
    request_timers: Option<RequestTimers>,
    max_stale_nonces: NonZeroU16,
    request_cadence: Duration,
    keepalive: Option<Duration>,
    refresh_ahead: Duration,
    requests_timed_from_send: bool,
}

impl Model for TurnConfig {
    ghost use Rattle.std.specs.Duration.{as_nanos};
    ghost use Rattle.std.specs.Prelude.{option_map};
    ghost use Rattle.std.specs.Int.NonZero.{non_zero_u16_get};
    ghost use Rattle.turn_client_api.specs.Config.{Config, IsKeptConfig};

    ghost Value = { Config };

    ghost view = { λ c. record {
      allocation_transport = c.allocation_transport;
      address_families = c.address_families.items;
      credentials = c.credentials;
      supported_integrity = c.supported_integrity.items;
      anonymous_username = c.anonymous_username;
      request_timers = c.request_timers;
      max_stale_nonces = non_zero_u16_get c.max_stale_nonces;
      request_cadence = as_nanos c.request_cadence;
      keepalive = option_map as_nanos c.keepalive;
      refresh_ahead = as_nanos c.refresh_ahead;
      timed_from_send = c.requests_timed_from_send;
    } };

    ghost invariant = { λ c. IsKeptConfig c.address_families c.supported_integrity };
}

impl TurnConfig {
    /// The configuration of a client with these credentials: it requests an IPv4 address that
    /// relays over UDP, supports integrity with SHA-1, does not hide its user name (`Feature::Auto`),
    /// retransmits at the times of RFC 8489, section 6.2.1, answers nine challenges in a row, sends
    /// a request every 50 ms at most, does not keep its path to the server alive, and refreshes a
    /// minute ahead. Allocates no memory.
    pub fn new(alloc: Global, credentials: TurnCredentials) -> TurnConfig
        ensures { result ≡ record {
          allocation_transport = TransportType.Udp;
          address_families = AddressFamily.IPV4 ∷ [];
          credentials = credentials;
          supported_integrity = IntegrityAlgorithm.Sha1 ∷ [];
          anonymous_username = Feature.Auto;
          request_timers = None;
          max_stale_nonces = default_max_stale_nonces;
          request_cadence = default_request_cadence;
          keepalive = None;
          refresh_ahead = default_refresh_ahead;
          timed_from_send = false;
        } }
    {
        TurnConfig {
            allocation_transport: TransportType::Udp,
            address_families: SmallVec::from_slice(alloc, &[AddressFamily::IPV4]).unwrap(),
            credentials,
            supported_integrity: SmallVec::from_slice(alloc, &[IntegrityAlgorithm::Sha1]).unwrap(),
            anonymous_username: Feature::Auto,
            request_timers: None,
            max_stale_nonces: NonZeroU16::new(9).unwrap(),
            request_cadence: Duration::from_millis(50),
            keepalive: None,
            refresh_ahead: Duration::from_secs(60),
            requests_timed_from_send: false,
        }
    }

    /// Sets the transport that the server is to relay over, between the relayed address and the
    /// peers. An allocation over TCP needs a client that reaches its server over TCP (RFC 6062,
    /// section 4.1).
    pub fn set_allocation_transport(&mut self, allocation_transport: TransportType)
        ensures { self.new ≡ record self.old { allocation_transport = allocation_transport } }
    {
        self.allocation_transport = allocation_transport;
    }

    /// The transport that the server is to relay over.
    pub fn allocation_transport(&self) -> TransportType
        ensures { result ≡ self.now.allocation_transport }
    {
        self.allocation_transport
    }

    /// Requests an address of this family too (RFC 8656, section 7.1), after those requested
    /// before. A family that is already requested changes nothing. Allocates no memory.
    pub fn add_address_family(&mut self, family: AddressFamily)
        ensures settings { self.new ≡ record self.old { address_families = with_family self.old.address_families family } }
        ensures there { Contains self.old.address_families family → self.new ≡ self.old }
    {
        if !self.address_families.as_slice().contains(&family) {
            self.address_families.push_reserved(family);
        }
    }

    /// Requests an address of this family alone. Allocates no memory.
    pub fn set_address_family(&mut self, family: AddressFamily)
        ensures { self.new ≡ record self.old { address_families = family ∷ [] } }
    {
        self.address_families.clear();
        self.address_families.push_reserved(family);
    }

    /// The families of the requested addresses, in the order in which they were added: one or two
    /// of them, and none twice.
    #[tactic(auto, using(crate::proofs::ConfigLemmas::few_families))]
    pub fn address_families(&self) -> &[AddressFamily]
        ensures families { result.now ≡ self.now.address_families }
        ensures some { 0 < length result.now }
        ensures few { length result.now ≤ 2 }
        ensures distinct { AllPairs (λ a b. a ≢ b) result.now }
    {
        self.address_families.as_slice()
    }

    /// Who the client is to its server (RFC 8489, section 9.2).
    pub fn credentials(&self) -> &TurnCredentials
        ensures { result.now ≡ self.now.credentials }
    {
        &self.credentials
    }

    /// Lets the server choose this algorithm too, with which messages are signed from then on. An
    /// algorithm that it may already choose changes nothing. Allocates no memory.
    pub fn add_supported_integrity(&mut self, algorithm: IntegrityAlgorithm)
        ensures settings { self.new ≡ record self.old { supported_integrity = with_algorithm self.old.supported_integrity algorithm } }
        ensures there { Contains self.old.supported_integrity algorithm → self.new ≡ self.old }
    {
        if !self.supported_integrity.as_slice().contains(&algorithm) {
            self.supported_integrity.push_reserved(algorithm);
        }
    }

    /// Lets the server choose this algorithm alone. Allocates no memory.
    pub fn set_supported_integrity(&mut self, algorithm: IntegrityAlgorithm)
        ensures { self.new ≡ record self.old { supported_integrity = algorithm ∷ [] } }
    {
        self.supported_integrity.clear();
        self.supported_integrity.push_reserved(algorithm);
    }

    /// The algorithms that the server may choose, in the order in which they were added: one or two
    /// of them, and none twice.
    #[tactic(auto, using(crate::proofs::ConfigLemmas::few_algorithms))]
    pub fn supported_integrity(&self) -> &[IntegrityAlgorithm]
        ensures algorithms { result.now ≡ self.now.supported_integrity }
        ensures some { 0 < length result.now }
        ensures few { length result.now ≤ 2 }
        ensures distinct { AllPairs (λ a b. a ≢ b) result.now }
    {
        self.supported_integrity.as_slice()
    }

    /// Sets whether requests hide the user name. `Feature::Required` needs a server that knows
    /// USERHASH (RFC 8489, section 14.4).
    pub fn set_anonymous_username(&mut self, anonymous_username: Feature)
        ensures { self.new ≡ record self.old { anonymous_username = anonymous_username } }
    {
        self.anonymous_username = anonymous_username;
    }

    /// Whether requests hide the user name.
    pub fn anonymous_username(&self) -> Feature
        ensures { result ≡ self.now.anonymous_username }
    {
        self.anonymous_username
    }

    /// Sets when each request is retransmitted and when it times out (RFC 8489, section 6.2):
    ///
    /// - `initial` is the wait after the first send, which doubles from send to send. It is to be
    ///   at least 500 ms unless more is known about the path to the server. If it is at most 1 ms,
    ///   a request is sent only once (our choice).
    /// - `max` is the longest wait between two sends.
    /// - `retransmits` is how many times a request is sent in all. 0 means 1.
    /// - `final_retransmit_timeout` is the wait after the last send.
    ///
    /// By default these are 500 ms, no longest wait, 7, and 8 s, which is 16 times the first wait.
    /// Over TCP a request is sent once, and times out after the sum of all these waits. A wait of
    /// 2^64 ns or more is kept as 2^64 - 1 ns, from which no `Instant` distinguishes it.
    pub fn set_request_retransmits(
        &mut self,
        initial: Duration,
        max: Duration,
        retransmits: u32,
        final_retransmit_timeout: Duration,
    )
        ensures { self.new ≡ record self.old {
          request_timers = Some (record {
            initial = wait_of initial;
            max = wait_of max;
            transmissions = retransmits;
            last = wait_of final_retransmit_timeout;
          });
        } }
    {
        self.request_timers = Some(RequestTimers::new(
            initial,
            max,
            retransmits,
            final_retransmit_timeout,
        ));
    }

    /// When each request is retransmitted and when it times out, as `set_request_retransmits` last
    /// set it, or else by default.
    pub fn request_timers(&self) -> RequestTimers
        ensures { result ≡ timers_of self.now }
    {
        self.request_timers.unwrap_or_default()
    }

    /// Sets how many challenges in a row the client answers (our choice: RFC 8489, section 9.2.5,
    /// sets no limit). The next one ends the client, so that a server that always requires another
    /// nonce comes to an end. Each challenge over the control connection counts that makes the client
    /// repeat a request, the first one, too. The count begins anew with the next signed response to a
    /// request for a permission, a channel or a CONNECT, and with a refresh that takes effect. The
    /// success of an ALLOCATE does not reset it, so 1 is used up by the first challenge.
    ///
    /// By default these are 9. Set more for a client with many permissions and channels, or over a
    /// slow link: the refreshes that leave before the first answer returns have one nonce, and if the
    /// server has changed it, each of them is challenged and counts. A limit above the number of
    /// allocations, permissions and channels is enough for that.
    pub fn set_max_stale_nonces(&mut self, max_stale_nonces: NonZeroU16)
        ensures { self.new ≡ record self.old { max_stale_nonces = non_zero_u16_get max_stale_nonces } }
    {
        self.max_stale_nonces = max_stale_nonces;
    }

    /// How many challenges in a row the client answers, as `set_max_stale_nonces` last set it, or
    /// else 9.
    pub fn max_stale_nonces(&self) -> NonZeroU16
        ensures { non_zero_u16_get result ≡ self.now.max_stale_nonces }
    {
        self.max_stale_nonces
    }

    /// Sets the pause between two requests (our choice: RFC 8656 names none): so long after a packet
    /// that `poll_transmit` returned, no request is sent for the first time, so that a server is not
    /// flooded. A reply to the server may leave within the pause, and does not extend it; a
    /// retransmission does not wait for it. With 0 there is no pause.
    ///
    /// By default it is 50 ms. Set less for a client with many permissions and channels: those that
    /// were granted together are refreshed together, one in each pause, all of them within the minute
    /// before they expire. At 50 ms a client that waits for no answer refreshes 1,200 in a minute, and
    /// at 5 ms ten times as many. The shorter the pause is, the more answers may be under way at once,
    /// and each may be a challenge: set `set_max_stale_nonces` with it.
    pub fn set_request_cadence(&mut self, request_cadence: Duration)
        ensures { self.new ≡ record self.old { request_cadence = as_nanos request_cadence } }
    {
        self.request_cadence = request_cadence;
    }

    /// The pause between two requests, as `set_request_cadence` last set it, or else 50 ms.
    pub fn request_cadence(&self) -> Duration
        ensures { as_nanos result ≡ self.now.request_cadence }
    {
        self.request_cadence
    }

    /// Sets after how long without a packet the client keeps its path to the server alive, or that it
    /// never does. A NAT on the way forgets a path over UDP that nothing takes for a while, which may
    /// be as soon as two minutes (RFC 4787, section 4.3), and then no data of a peer arrives, nor does
    /// the reply to a refresh.
    ///
    /// From the first allocation on, until all are deleted or have expired: so long after
    /// `poll_transmit` last returned a packet, it returns a Binding indication (RFC 8489, section 5),
    /// unless a packet is queued or a grant is to be refreshed. It has no attributes, and no reply to
    /// it is awaited. `poll` says when. A packet that `send_to` made does not count, since the client
    /// does not know whether it was sent.
    ///
    /// By default it never does. Less than a second is taken as a second (our choice). For a NAT, 15 s
    /// are usual (RFC 8445, section 11).
    pub fn set_keepalive(&mut self, keepalive: Option<Duration>)
        ensures { self.new ≡ record self.old { keepalive = option_map (λ wait. max least_keepalive (as_nanos wait)) keepalive } }
    {
        self.keepalive = match keepalive {
            Some(wait) => Some(at_least_a_second(wait)),
            None => None,
        };
    }

    /// After how long without a packet the client keeps its path to the server alive, as
    /// `set_keepalive` last set it, or else never.
    pub fn keepalive(&self) -> Option<Duration>
        ensures { option_map as_nanos result ≡ self.now.keepalive }
    {
        self.keepalive
    }

    /// Sets how long before its expiry a grant is refreshed (RFC 8656, section 8, suggests about a
    /// minute), but not before half of its lifetime is over (our choice): a permission at most 150 s
    /// before its expiry, and a channel at most 300 s; an allocation at most half of its first
    /// lifetime, and at most 300 s, since a refresh may grant 600 s. Once a refresh is due, it is
    /// retransmitted until it is answered or times out (`set_request_retransmits`), and then made
    /// anew, until the grant expires.
    ///
    /// By default it is a minute. Less than a second is taken as a second. Set more for a link that
    /// loses answers for a minute or longer, or for more permissions and channels than leave in a
    /// minute (`set_request_cadence`).
    pub fn set_refresh_ahead(&mut self, refresh_ahead: Duration)
        ensures { self.new ≡ record self.old { refresh_ahead = max least_refresh_ahead (as_nanos refresh_ahead) } }
    {
        self.refresh_ahead = at_least_a_second(refresh_ahead);
    }

    /// How long before its expiry a grant is refreshed, as `set_refresh_ahead` last set it, or else a
    /// minute.
    pub fn refresh_ahead(&self) -> Duration
        ensures { as_nanos result ≡ self.now.refresh_ahead }
    {
        self.refresh_ahead
    }

    /// Sets whether the waits of a request begin when `poll_transmit` returns its first copy (RFC 8489,
    /// section 6.2.1: a request is retransmitted from when it was sent), and not when it is made (our
    /// choice). With the default pause a burst of requests leaves over seconds. A request that waits
    /// from when it was made may then be retransmitted before its turn, which waits for no pause, and
    /// time out before it has left; one that waits from its first copy leaves in its turn, and once, and a
    /// refresh that is due goes before it; if it has ended before, as with its allocation, it never leaves. As
    /// long as nobody takes its first copy it does not time out, and what it requests stays pending, at the
    /// latest until the allocation is removed. After `delete` that is once the REFRESH was answered or timed
    /// out, or by a `poll` its first lifetime later, or 600 s if it was shorter: also if nobody takes the
    /// REFRESH, or the server refuses it.
    ///
    /// By default they begin when the request is made.
    pub fn set_requests_timed_from_send(&mut self, timed_from_send: bool)
        ensures { self.new ≡ record self.old { timed_from_send = timed_from_send } }
    {
        self.requests_timed_from_send = timed_from_send;
    }

    /// Whether the waits of a request begin when its first copy is returned, as
    /// `set_requests_timed_from_send` last set it, or else when the request is made.
    pub fn requests_timed_from_send(&self) -> bool
        ensures { result ≡ self.now.timed_from_send }
    {
        self.requests_timed_from_send
    }

    /// A configuration with the same settings.
    ///
    /// # Errors
    ///
    /// If memory allocation for a copy of the credentials fails.
    #[tactic(auto, using(crate::proofs::ConfigLemmas::few_families, crate::proofs::ConfigLemmas::few_algorithms))]
    pub fn clone(&self) -> Result<TurnConfig, AllocError>
        ensures { IfOk result (λ copy. copy ≡ self.now) }
    {
        let alloc = *self.address_families.allocator();
        Ok(TurnConfig {
            allocation_transport: self.allocation_transport,
            address_families: SmallVec::from_slice(alloc, self.address_families.as_slice())?,
            credentials: self.credentials.clone()?,
            supported_integrity: SmallVec::from_slice(alloc, self.supported_integrity.as_slice())?,
            anonymous_username: self.anonymous_username,
            request_timers: self.request_timers,
            max_stale_nonces: self.max_stale_nonces,
            request_cadence: self.request_cadence,
            keepalive: self.keepalive,
            refresh_ahead: self.refresh_ahead,
            requests_timed_from_send: self.requests_timed_from_send,
        })
    }

    /// Whether both request the same allocations.
    fn is_same_request(&self, other: &TurnConfig) -> bool
        ensures { result ≡ same_request self.now other.now }
    {
        self.allocation_transport == other.allocation_transport
            && self.address_families.as_slice() == other.address_families.as_slice()
    }

    /// Whether both identify themselves to a server alike, and support the same integrity algorithms.
    fn is_same_user(&self, other: &TurnConfig) -> bool
        ensures { result ≡ same_user self.now other.now }
    {
        self.credentials == other.credentials
            && self.supported_integrity.as_slice() == other.supported_integrity.as_slice()
            && self.anonymous_username == other.anonymous_username
    }

    /// Whether both wait for a server alike, and answer as many of its challenges in a row.
    fn is_same_limits(&self, other: &TurnConfig) -> bool
        ensures { result ≡ same_limits self.now other.now }
    {
        self.request_timers == other.request_timers
            && self.max_stale_nonces.get() == other.max_stale_nonces.get()
    }

    /// Whether both send and refresh at the same times.
    fn is_same_times(&self, other: &TurnConfig) -> bool
        ensures { result ≡ same_times self.now other.now }
    {
        self.request_cadence.as_nanos() == other.request_cadence.as_nanos()
            && is_same_keepalive(self.keepalive, other.keepalive)
            && self.refresh_ahead.as_nanos() == other.refresh_ahead.as_nanos()
            && is_same_switch(
                self.requests_timed_from_send,
                other.requests_timed_from_send,
            )
    }
}

/// The wait, or a second if that is longer.
fn at_least_a_second(wait: Duration) -> Duration
    ensures { as_nanos result ≡ max least_keepalive (as_nanos wait) }
{
    if wait.as_nanos() < 1_000_000_000 {
        return Duration::from_secs(1);
    }
    wait
}

/// Whether both are on, or both are off.
fn is_same_switch(on: bool, other: bool) -> bool
    ensures { result ≡ same_switch on other }
{
    if on {
        return other;
    }
    !other
}

/// Whether both are never, or as long.
fn is_same_keepalive(wait: Option<Duration>, other: Option<Duration>) -> bool
    ensures { result ≡ same_keepalive (option_map as_nanos wait) (option_map as_nanos other) }
{
    match (wait, other) {
        (Some(wait), Some(other)) => wait.as_nanos() == other.as_nanos(),
        (None, None) => true,
        (Some(_), None) => false,
        (None, Some(_)) => false,
    }
}

/// By content. Times that were never set differ from the same times that were set.
impl PartialEq for TurnConfig {
    ghost use Rattle.std.specs.Prelude.{◌≡◌, ◌↔◌, IsTrue};
    ghost use Rattle.std.specs.Cmp.{partial_equiv_from_equiv};
    ghost use Rattle.turn_client_api.specs.SameConfig.{same_config};
    ghost use Rattle.turn_client_api.specs.SameConfigLaws.{same_config-equivalence};

    ghost eq = { same_config };

    ghost laws = { partial_equiv_from_equiv same_config-equivalence };

    fn eq(&self, other: &TurnConfig) -> bool
        ensures settings { result ≡ same_config self.now other.now }
        ensures content { IsTrue result ↔ (self.now ≡ other.now) }
    {
        self.is_same_request(other)
            && self.is_same_user(other)
            && self.is_same_limits(other)
            && self.is_same_times(other)
    }
}

impl Eq for TurnConfig {
    ghost use Rattle.turn_client_api.specs.SameConfigLaws.{same_config-equivalence};

    ghost laws = { same_config-equivalence };
}
