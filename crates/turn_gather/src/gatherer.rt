//! A TURN client as an ICE agent uses it.

ghost use Rattle.std.specs.Prelude.{◌≡◌, ◌≤◌, ◌^◌, [], true, length, option_map, IfOk, IsOk, OnErr, OnOk};
ghost use Rattle.turn_stun.specs.declared.transport.TransportType.TheVariants.{Udp};
ghost use Rattle.turn_client_api.specs.Alarm.{IsTimely};
ghost use Rattle.turn_client_api.specs.Answers.{CreatesPermission, EndsAfterSteps, IsSent, RecvEnds, event_step, given_payload, takes_no_memory};
ghost use Rattle.turn_client_api.specs.Calls.{create_permission_step, relayed_addresses_of, send_to_step};
ghost use Rattle.turn_client_api.specs.Effect.{closed};
ghost use Rattle.turn_client_api.specs.Poll.{poll_step};
ghost use Rattle.turn_client_api.specs.Streams.{poll_recv_step};
ghost use Rattle.turn_client_api.specs.Transmit.{transmit_step};
ghost use Rattle.turn_gather.specs.Gathering.{Checks, is_checked_in};
ghost use Rattle.turn_gather.specs.Received.{HandsOn, PassesUp, client_step, gathered_of, passed_or_dropped, gathered_poll, received};

use crate::error::GatherError;
use crate::receive::GatherRecv;
use std::alloc::{AllocError, Global};
use std::convert::AsSlice;
use std::fmt::Debug;
use std::marker::Model;
use std::net::{IpAddr, SocketAddr};
use turn_client_api::{
    CreatePermissionError, DelayedMessageOrChannelSend, SendError, TransmitBuild, TurnClientApi,
    TurnEvent, TurnPeerData, TurnPollRet, TurnRecvRet,
};
use turn_stun::data::Data;
use turn_stun::instant::Instant;
use turn_stun::transport::{Transmit, TransportType};

/// The maximum number of checked pairs.
pub(crate) const MOST_CHECKED: usize = 1024;

/// A TURN client, and the pairs that an ICE agent has checked: the transport of the relay and the peer's
/// address (RFC 8445, section 6.1.2). Data from other peers is dropped. There are at most 1,024 pairs.
///
/// In contracts this is the client's `State` and the pairs, in the order in which they were checked.
#[derive(Debug, Drop)]
pub struct Gatherer<C: TurnClientApi> {
    client: C,
    checked: Vec<(TransportType, SocketAddr)>,
}

impl<C: TurnClientApi> Model for Gatherer<C> {
    ghost use Rattle.std.specs.Prelude.{◌≤◌, length};
    ghost use Rattle.turn_gather.specs.Gathering.{Gathering, most_checked};

    ghost Value = { Gathering };

    ghost view = { λ g. record { client = C.state g.client; checked = g.checked.items } };

    ghost invariant = { λ g. length g.checked.items ≤ most_checked };
}

impl<C: TurnClientApi> Gatherer<C> {
    /// A gatherer with this client and no checked pair.
    pub fn new(alloc: Global, client: C) -> Gatherer<C>
        ensures client { result.client ≡ C.state client }
        ensures checked { result.checked ≡ [] }
    {
        Gatherer {
            client,
            checked: Vec::new(alloc),
        }
    }

    /// The client.
    pub fn client(&self) -> &C
        ensures { C.state result.now ≡ self.now.client }
    {
        &self.client
    }

    /// Returns the client.
    pub fn into_client(self) -> C
        ensures { C.state result ≡ self.client }
    {
        self.client
    }

    /// Whether the pair is checked.
    pub fn is_checked(&self, transport: TransportType, peer: SocketAddr) -> bool
        ensures { result ≡ is_checked_in transport peer self.now.checked }
    {
        self.checked
            .iter()
            .any(|pair| pair.0 == transport && pair.1 == peer)
    }

    /// The relayed addresses of the client with their transports, in the order in which the server
    /// granted them: the agent's relayed candidates (RFC 8445, section 5.1.1.2).
    ///
    /// # Errors
    ///
    /// Memory allocation failed.
    pub fn candidates(&self, alloc: Global) -> Result<Vec<(TransportType, SocketAddr)>, AllocError>
        ensures { IfOk result (λ candidates. candidates.items ≡ relayed_addresses_of self.now.client) }
    {
        self.client.relayed_addresses().collect(alloc)
    }

    /// Marks the pair as checked: from now on data from this peer is passed up. A pair that is checked
    /// already changes nothing and allocates no memory. Addresses are compared whole. A server sends IPv6
    /// addresses without flow information and scope, so check a pair with both zero.
    ///
    /// # Errors
    ///
    /// In this order: `Full` if there are 1,024 other pairs; `OutOfMemory`. On an error nothing changes.
    pub fn check(&mut self, transport: TransportType, peer: SocketAddr) -> Result<(), GatherError>
        ensures { Checks transport peer result self.old self.new }
    {
        if self.is_checked(transport, peer) {
            return Ok(());
        }
        if self.checked.len() >= MOST_CHECKED {
            return Err(GatherError::Full);
        }
        match self.checked.push((transport, peer)) {
            Ok(()) => Ok(()),
            Err(_) => Err(GatherError::OutOfMemory),
        }
    }

    /// Passes input to [`TurnClientApi::recv`], and passes up data from the peer of a checked pair. Over
    /// TCP more payloads may be buffered: call `poll_recv` until it returns `None`.
    ///
    /// # Errors
    ///
    /// Memory allocation in the client failed. The client has then ended, as for [`TurnClientApi::recv`].
    pub fn recv<T: AsSlice<u8> + Debug + Drop>(
        &mut self,
        transmit: Transmit<T>,
        now: Instant,
    ) -> Result<GatherRecv<T>, AllocError>
        requires now_in_range { now ≤ 2 ^ 62 }
        ensures answer { IfOk result (λ answer. gathered_of answer ≡ received transmit (T.items transmit.payload) now self.old) }
        ensures hands_on { IfOk result (HandsOn transmit) }
        ensures after { OnOk result (self.new.client ≡ (client_step transmit (T.items transmit.payload) now self.old.client).1) }
        ensures no_memory { OnErr result (RecvEnds transmit.to (T.items transmit.payload) now self.old.client self.new.client) }
        ensures free { takes_no_memory transmit.transport transmit.from transmit.to (T.items transmit.payload) self.old.client ≡ true → IsOk result }
        ensures checked { self.new.checked ≡ self.old.checked }
    {
        match self.client.recv(transmit, now)? {
            TurnRecvRet::Handled => Ok(GatherRecv::Handled),
            TurnRecvRet::Ignored(transmit) => Ok(GatherRecv::Ignored(transmit)),
            TurnRecvRet::PeerData(given) => Ok(self.pass_up(given)),
            TurnRecvRet::PeerIcmp { .. } => Ok(GatherRecv::Dropped),
        }
    }

    /// The next payload of a peer in the client's streams, or `None`. It is passed up if its pair is
    /// checked, and dropped otherwise: call this until it returns `None`.
    ///
    /// # Errors
    ///
    /// Memory allocation in the client failed. The client has then ended, as for
    /// [`TurnClientApi::poll_recv`].
    pub fn poll_recv(&mut self, now: Instant) -> Result<Option<GatherRecv<Vec<u8>>>, AllocError>
        requires now_in_range { now ≤ 2 ^ 62 }
        ensures answer { IfOk result (λ given. option_map gathered_of given ≡ gathered_poll now self.old) }
        ensures after { OnOk result (self.new.client ≡ (poll_recv_step now self.old.client).1) }
        ensures no_memory { OnErr result (EndsAfterSteps now self.old.client self.new.client) }
        ensures checked { self.new.checked ≡ self.old.checked }
    {
        match self.client.poll_recv(now)? {
            Some(given) => Ok(Some(self.pass_up(given))),
            None => Ok(None),
        }
    }

    /// Passes up this data of a peer if its pair is checked, and drops it otherwise.
    fn pass_up<T: AsSlice<u8> + Debug + Drop>(&self, given: TurnPeerData<T>) -> GatherRecv<T>
        ensures answer { gathered_of result ≡ passed_or_dropped self.now.checked (given_payload given) }
        ensures hands_on { PassesUp given result }
    {
        if self.is_checked(given.transport, given.peer) {
            GatherRecv::Payload(given)
        } else {
            GatherRecv::Dropped
        }
    }

    /// Requests a permission for this IP address of a peer, as [`TurnClientApi::create_permission`] does.
    ///
    /// # Errors
    ///
    /// Those of the client's call.
    pub fn create_permission(
        &mut self,
        transport: TransportType,
        peer_addr: IpAddr,
        now: Instant,
    ) -> Result<(), CreatePermissionError>
        requires now_in_range { now ≤ 2 ^ 62 }
        ensures step { CreatesPermission result self.old.client self.new.client (create_permission_step transport peer_addr now self.old.client) }
        ensures checked { self.new.checked ≡ self.old.checked }
    {
        self.client.create_permission(transport, peer_addr, now)
    }

    /// The packet that carries the data to this peer, as [`TurnClientApi::send_to`] returns it. The pair
    /// need not be checked: connectivity checks are sent this way too.
    ///
    /// # Errors
    ///
    /// Those of the client's call.
    pub fn send_to<T: AsSlice<u8> + Debug + Drop>(
        &mut self,
        transport: TransportType,
        to: SocketAddr,
        data: T,
        now: Instant,
    ) -> Result<Option<TransmitBuild<DelayedMessageOrChannelSend<T>>>, SendError>
        requires now_in_range { now ≤ 2 ^ 62 }
        requires short { self.old.client.config.allocation_transport ≡ Udp → length (T.items «data») ≤ 65504 }
        ensures answer { IsSent result (send_to_step transport to (T.items «data») now self.old.client).0 }
        ensures after { self.new.client ≡ (send_to_step transport to (T.items «data») now self.old.client).1 }
        ensures checked { self.new.checked ≡ self.old.checked }
    {
        self.client.send_to(transport, to, data, now)
    }

    /// Handles expired timers and returns what to do next, as [`TurnClientApi::poll`] does.
    ///
    /// # Errors
    ///
    /// Memory allocation failed. The client has then ended, and nothing else has changed.
    pub fn poll(&mut self, now: Instant) -> Result<TurnPollRet, AllocError>
        requires now_in_range { now ≤ 2 ^ 62 }
        ensures answer { IfOk result (λ answer. answer ≡ (poll_step now self.old.client).0) }
        ensures after { OnOk result (self.new.client ≡ (poll_step now self.old.client).1) }
        ensures alarm { IfOk result (λ answer. IsTimely answer now self.old.client self.new.client) }
        ensures no_memory { OnErr result (self.new.client ≡ closed self.old.client) }
        ensures checked { self.new.checked ≡ self.old.checked }
    {
        self.client.poll(now)
    }

    /// The next packet to send, or `None`, as [`TurnClientApi::poll_transmit`] returns it.
    ///
    /// # Errors
    ///
    /// Memory allocation failed. The client has then ended, and nothing else has changed.
    pub fn poll_transmit(&mut self, now: Instant) -> Result<Option<Transmit<Data>>, AllocError>
        requires now_in_range { now ≤ 2 ^ 62 }
        ensures answer { IfOk result (λ packet. packet ≡ (transmit_step now self.old.client).0) }
        ensures after { OnOk result (self.new.client ≡ (transmit_step now self.old.client).1) }
        ensures no_memory { OnErr result (self.new.client ≡ closed self.old.client) }
        ensures checked { self.new.checked ≡ self.old.checked }
    {
        self.client.poll_transmit(now)
    }

    /// The client's next event, or `None`. It allocates no memory.
    pub fn poll_event(&mut self) -> Option<TurnEvent>
        ensures answer { result ≡ (event_step self.old.client).0 }
        ensures after { self.new.client ≡ (event_step self.old.client).1 }
        ensures checked { self.new.checked ≡ self.old.checked }
    {
        self.client.poll_event()
    }
}
