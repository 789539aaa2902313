//! Data connections that the caller opens and closes (RFC 6062, sections 4.3 and 4.4).

ghost use Rattle.std.specs.Prelude.{◌≡◌, ◌&&◌, codes, false, None, Some, IfOk, IsSome, IsTrue, OnErr, OnOk};
ghost use Rattle.turn_stun.specs.declared.transport.TransportType.TheVariants.{Tcp};
ghost use Rattle.turn_client_api.specs.Answers.{TakesSocket};
ghost use Rattle.turn_client_api.specs.Calls.{allocated_tcp_socket_step, is_allocated, is_control, is_local_taken, socket_opened, socket_refused};
ghost use Rattle.turn_client_api.specs.Calls.{socket_step};
ghost use Rattle.turn_client_api.specs.Grants.{same_transport};
ghost use Rattle.turn_client_api.specs.Requests.{accepted_reply, connection_timed_out, refused_reply};
ghost use Rattle.turn_client_core.specs.Apart.{apart_from_streams, with_streams_of};
ghost use Rattle.turn_client_core.specs.Opened.{answer_to, opened_with};
ghost use Rattle.turn_client_api.specs.Receive.{connection_gone, tcp_closed_step};
ghost use Rattle.turn_client_laws.specs.StreamEffects.{opens_at};
ghost use Rattle.turn_agent.specs.Agent.{same_address};

use crate::protocol::TurnClientProtocol;
use std::alloc::AllocError;
use std::net::SocketAddr;
use turn_client_api::{Origin, Purpose, Socket5Tuple, TcpAllocateError};
use turn_client_requests::{AttemptRefusal, accepted_reply, refused_reply};
use turn_stun::data::Data;
use turn_stun::instant::Instant;
use turn_stun::transport::TransportType;

impl TurnClientProtocol {
    /// Reports what became of a data connection that `poll` offered, named by the three values of the
    /// offer: its local address, or `None` if the caller could not open it. If it was opened, a
    /// CONNECTION_BIND is queued, to be sent over the new connection (RFC 6062, section 4.3). If the
    /// server requested the connection, its request is answered.
    ///
    /// # Errors
    ///
    /// In this order: `NoAllocation` if the allocation is not over TCP, the 5-tuple is not that of the
    /// control connection, the client has no such offer, or it has ended; `AlreadyExists` if the local
    /// address is that of the control connection or of another data connection; `OutOfMemory`. Nothing
    /// changes then.
    pub fn allocated_tcp_socket(
        &mut self,
        id: u32,
        five_tuple: Socket5Tuple,
        peer_addr: SocketAddr,
        local_addr: Option<SocketAddr>,
        now: Instant,
    ) -> Result<(), TcpAllocateError>
        ensures step { TakesSocket result self.old self.new
            (apart_from_streams self.old (allocated_tcp_socket_step id five_tuple peer_addr local_addr now self.old)) }
    {
        if !self.takes_sockets(&five_tuple) {
            return Err(TcpAllocateError::NoAllocation);
        }
        let Some(origin) = self.ledger.table().offer_origin(id, peer_addr) else {
            return Err(TcpAllocateError::NoAllocation);
        };
        match local_addr {
            Some(local) => self.take_socket(id, peer_addr, local, &origin, now),
            None => self.refuse_socket(id, peer_addr, &origin),
        }
    }

    /// The local address of the stream that `allocated_tcp_socket` adds to those of the client if it is called
    /// with these values and not refused, or none. Who holds the streams makes room for it before that call,
    /// so that a refusal leaves all as it was, and opens it after.
    pub fn opens_at(
        &self,
        id: u32,
        five_tuple: &Socket5Tuple,
        peer_addr: SocketAddr,
        local_addr: Option<SocketAddr>,
    ) -> Option<SocketAddr>
        ensures { result ≡ opens_at id five_tuple.now peer_addr local_addr self.now }
    {
        if !self.takes_sockets(five_tuple)
            || self.ledger.table().offer_origin(id, peer_addr).is_none()
        {
            return None;
        }
        let local = local_addr?;
        if self.is_local_taken(local) {
            return None;
        }
        Some(local)
    }

    /// Whether the client accepts data connections to the server of this control connection.
    fn takes_sockets(&self, tuple: &Socket5Tuple) -> bool
        ensures value { result ≡ (same_transport self.now.config.allocation_transport Tcp && is_control tuple.now self.now && is_allocated self.now.phase) }
        ensures held { IsTrue result → IsSome self.now.held }
    {
        self.ledger.transport() == TransportType::Tcp
            && self.is_control(tuple)
            && self.is_allocated()
    }

    /// Whether this is the control connection.
    fn is_control(&self, tuple: &Socket5Tuple) -> bool
        ensures { result ≡ is_control tuple.now self.now }
    {
        tuple.transport == self.transport()
            && tuple.from == self.local_addr()
            && tuple.to == self.remote_addr()
    }

    /// Whether the local address is that of the control connection or of a data connection.
    fn is_local_taken(&self, local: SocketAddr) -> bool
        ensures { result ≡ is_local_taken local self.now }
    {
        local == self.local_addr() || self.ledger.table().connection_at(local).is_some()
    }

    /// The caller opened the connection of an offer.
    fn take_socket(
        &mut self,
        id: u32,
        peer: SocketAddr,
        local: SocketAddr,
        origin: &Origin,
        now: Instant,
    ) -> Result<(), TcpAllocateError>
        requires { IsSome self.old.held }
        ensures step { TakesSocket result self.old self.new (apart_from_streams self.old (socket_step id peer (Some local) origin.now now self.old)) }
    {
        if self.is_local_taken(local) {
            return Err(TcpAllocateError::AlreadyExists);
        }
        match self.open_socket(id, peer, local, origin, now) {
            Ok(()) => Ok(()),
            Err(_) => Err(TcpAllocateError::OutOfMemory),
        }
    }

    /// The caller could not open the connection of an offer.
    fn refuse_socket(
        &mut self,
        id: u32,
        peer: SocketAddr,
        origin: &Origin,
    ) -> Result<(), TcpAllocateError>
        requires { IsSome self.old.held }
        ensures step { TakesSocket result self.old self.new (apart_from_streams self.old (socket_step id peer None origin.now 0 self.old)) }
    {
        match self.drop_offer(id, peer, origin) {
            Ok(()) => Ok(()),
            Err(_) => Err(TcpAllocateError::OutOfMemory),
        }
    }

    /// The same, where only memory allocation can fail: requests the binding of the connection.
    ///
    /// # Errors
    ///
    /// `AllocError` if memory allocation fails. Nothing changes then.
    fn open_socket(
        &mut self,
        id: u32,
        peer: SocketAddr,
        local: SocketAddr,
        origin: &Origin,
        now: Instant,
    ) -> Result<(), AllocError>
        requires held { IsSome self.old.held }
        requires free { is_local_taken local self.old ≡ false }
        ensures ok { OnOk result (self.new ≡ with_streams_of self.old (socket_opened id peer local origin.now now self.old)) }
        ensures err { OnErr result (self.new ≡ self.old) }
    {
        let reply = self.acceptance(origin)?;
        self.open_answered(reply, id, peer, local, now)?;
        Ok(())
    }

    /// The same, with the reply to the server, if it requested the connection.
    ///
    /// # Errors
    ///
    /// `AllocError` if memory allocation fails. Nothing changes then.
    fn open_answered(
        &mut self,
        reply: Option<Data>,
        id: u32,
        peer: SocketAddr,
        local: SocketAddr,
        now: Instant,
    ) -> Result<(), AllocError>
        requires held { IsSome self.old.held }
        requires free { is_local_taken local self.old ≡ false }
        ensures ok { OnOk result (self.new ≡ with_streams_of self.old (opened_with reply id peer local now self.old)) }
        ensures err { OnErr result (self.new ≡ self.old) }
    {
        let request = self.fresh_id();
        let waits_from = self.waits_from(now);
        let text = self.text_for(&Purpose::ForBind(local, peer, id), request)?;
        // Keeps the room for the failure events of families that are still requested.
        self.ledger.reserve(1, 2, self.families.len(), 1)?;
        self.outbox
            .ask_over(reply, request, text, local, waits_from)?;
        self.ledger.opened(id, peer, local, request, now);
        Ok(())
    }

    /// Removes the offer, and answers the server if it requested the connection.
    ///
    /// # Errors
    ///
    /// `AllocError` if memory allocation fails. Nothing changes then.
    fn drop_offer(&mut self, id: u32, peer: SocketAddr, origin: &Origin) -> Result<(), AllocError>
        requires { IsSome self.old.held }
        ensures ok { OnOk result (self.new ≡ socket_refused id peer origin.now self.old) }
        ensures err { OnErr result (self.new ≡ self.old) }
    {
        let reply = self.refusal(origin)?;
        self.outbox.answer(reply)?;
        self.ledger.offer_taken(id, peer);
        Ok(())
    }

    /// The reply to the server's request for the connection, if there was one: it is open.
    ///
    /// # Errors
    ///
    /// `AllocError` if memory allocation fails.
    fn acceptance(&self, origin: &Origin) -> Result<Option<Data>, AllocError>
        requires { IsSome self.now.held }
        ensures { IfOk result (λ reply. reply ≡ answer_to (accepted_reply self.now) origin.now) }
    {
        match origin {
            Origin::ServerRequest(request) => {
                Ok(Some(accepted_reply(self.alloc, &self.auth, *request)?))
            }
            Origin::OwnConnect => Ok(None),
            Origin::ServerIndication => Ok(None),
        }
    }

    /// The reply to the server's request for the connection, if there was one: it could not be opened.
    ///
    /// # Errors
    ///
    /// `AllocError` if memory allocation fails.
    fn refusal(&self, origin: &Origin) -> Result<Option<Data>, AllocError>
        requires { IsSome self.now.held }
        ensures { IfOk result (λ reply. reply ≡ answer_to (refused_reply connection_timed_out (codes "Connection Timeout or Failure") self.now) origin.now) }
    {
        let refusal = AttemptRefusal::ConnectionTimeoutOrFailure;
        match origin {
            Origin::ServerRequest(request) => {
                Ok(Some(refused_reply(self.alloc, &self.auth, refusal, *request)?))
            }
            Origin::OwnConnect => Ok(None),
            Origin::ServerIndication => Ok(None),
        }
    }
}

impl TurnClientProtocol {
    /// Reports that this data connection was closed. Unless the client has ended, `poll` then reports
    /// that the caller is to close its end. Data received over it can still be polled. Without such a
    /// connection nothing changes. Allocates no memory.
    pub fn tcp_closed(&mut self, local_addr: SocketAddr, remote_addr: SocketAddr)
        ensures { self.new ≡ tcp_closed_step local_addr remote_addr self.old }
    {
        if self.is_to_server(remote_addr) {
            self.connection_gone(local_addr);
        }
    }

    /// Whether the client is over TCP, and this is the server's address.
    fn is_to_server(&self, remote: SocketAddr) -> bool
        ensures { result ≡ (same_transport self.now.transport Tcp && same_address remote self.now.remote) }
    {
        self.transport() == TransportType::Tcp && remote == self.remote_addr()
    }

    /// Removes the connection from this local address, if there is one: the caller is to close its end
    /// before all others that it is to close.
    pub fn connection_gone(&mut self, local: SocketAddr)
        ensures { self.new ≡ connection_gone local self.old }
    {
        self.ledger.connection_gone(local);
    }
}
