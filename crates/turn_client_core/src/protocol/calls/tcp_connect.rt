//! Data connections that a client requests (RFC 6062, section 4.3).

ghost use Rattle.turn_client_api.specs.Answers.{Connects};
ghost use Rattle.turn_client_api.specs.Calls.{connect_step, tcp_connect_step};

use crate::protocol::TurnClientProtocol;
use std::net::SocketAddr;
use turn_client_api::{Grant, Purpose, TcpConnectError};
use turn_client_grants::Purposes;
use turn_stun::instant::Instant;
use turn_stun::transport::TransportType;

impl TurnClientProtocol {
    /// Requests a data connection to this peer: queues a CONNECT (RFC 6062, section 4.3).
    ///
    /// # Errors
    ///
    /// In this order: `NoAllocation` if no allocation relays over TCP to addresses of this IP version,
    /// or if its expiry has passed (it is marked as expired then); `NoAllocation` if the client has
    /// ended; `NoPermission` if the peer has none; `AlreadyExists` if a data connection to the peer
    /// exists, is pending, or is offered to the caller; `OutOfMemory`. Nothing else changes then.
    pub fn tcp_connect(
        &mut self,
        peer_addr: SocketAddr,
        now: Instant,
    ) -> Result<(), TcpConnectError>
        ensures step { Connects result self.old self.new (tcp_connect_step peer_addr now self.old) }
    {
        if !self.has_usable_allocation(TransportType::Tcp, peer_addr.ip(), now) {
            return Err(TcpConnectError::NoAllocation);
        }
        self.ask_connection(peer_addr, now)
    }

    /// The same, in an allocation that can be used.
    fn ask_connection(&mut self, peer: SocketAddr, now: Instant) -> Result<(), TcpConnectError>
        ensures step { Connects result self.old self.new (connect_step peer now self.old) }
    {
        if !self.is_allocated() {
            return Err(TcpConnectError::NoAllocation);
        }
        if !self.is_permitted(peer) {
            return Err(TcpConnectError::NoPermission);
        }
        if self.has_connection(peer) {
            return Err(TcpConnectError::AlreadyExists);
        }
        let purpose = Purpose::ForConnect(peer);
        match self.ask(
            &purpose,
            &Purposes::one(purpose),
            &[Grant::Connect(peer)],
            now,
        ) {
            Ok(()) => Ok(()),
            Err(_) => Err(TcpConnectError::OutOfMemory),
        }
    }
}
