//! Packets and requests for the server.

ghost use Rattle.std.specs.Prelude.{◌≡◌, ◌≤◌, ◌<◌, [], None, false, true, IfOk, IsOk, OnOk, OnErr};
ghost use Rattle.turn_agent.specs.Agent.{is_outstanding, without_transaction};
ghost use Rattle.turn_client_core.specs.Outgoing.{answering, request_queued, asked_over, begun, outbox_id_used, packet_of, waiting, with_room};

mod due;
mod queue;
mod send;

use crate::outbox::queue::Queue;
use std::alloc::{AllocError, Global};
use std::marker::Model;
use std::net::SocketAddr;
use turn_agent::agent::StunAgent;
use turn_agent::number_source::NumberSource;
use turn_client_api::RequestTimers;
use turn_stun::data::Data;
use turn_stun::instant::Instant;
use turn_stun::transaction::TransactionId;
use turn_stun::transport::{Transmit, TransportType};

/// The packets queued for the server, the outstanding requests, and the transaction IDs of those to
/// come.
#[derive(Debug, Drop)]
pub(crate) struct Outbox {
    remote: SocketAddr,
    agent: StunAgent,
    ids: NumberSource,
    queue: Queue,
    /// When a packet was last sent, except a reply within the pause: the pause between two requests
    /// starts then.
    last_send: Option<Instant>,
}

impl Model for Outbox {
    ghost use Rattle.turn_client_core.specs.Outgoing.{Outgoing};

    ghost Value = { Outgoing };

    ghost view = { λ o. record {
      transport = o.agent.transport;
      local = o.agent.local;
      remote = o.remote;
      timers = o.agent.timers;
      ids = o.ids;
      transactions = o.agent.transactions;
      queue = o.queue.items;
      room = o.queue.room;
      last_send = o.last_send;
    } };
}

impl Outbox {
    /// An outbox with an empty queue. Allocates no memory yet.
    pub(crate) fn new(
        alloc: Global,
        transport: TransportType,
        local: SocketAddr,
        remote: SocketAddr,
        timers: RequestTimers,
        seed: [u8; 32],
    ) -> Outbox
        ensures { result ≡ record {
          transport = transport;
          local = local;
          remote = remote;
          timers = timers;
          ids = record { seed = seed; place = 0 };
          transactions = [];
          queue = [];
          room = result.room;
          last_send = None;
        } }
    {
        Outbox {
            remote,
            agent: StunAgent::builder(alloc, transport, local)
                .remote_addr(remote)
                .request_timers(timers)
                .build(),
            ids: NumberSource::from_seed(seed),
            queue: Queue::new(alloc),
            last_send: None,
        }
    }

    /// The server's address.
    pub(crate) fn remote_addr(&self) -> SocketAddr
        ensures { result ≡ self.now.remote }
    {
        self.remote
    }

    /// The control connection and the outstanding requests, for reading.
    pub(crate) fn agent(&self) -> &StunAgent
        ensures transport { result.now.transport ≡ self.now.transport }
        ensures local { result.now.local ≡ self.now.local }
        ensures timers { result.now.timers ≡ self.now.timers }
        ensures transactions { result.now.transactions ≡ self.now.transactions }
    {
        &self.agent
    }

    /// The packets that wait to be sent, for reading.
    pub(crate) fn queue(&self) -> &Queue
        ensures { result.now.items ≡ self.now.queue }
    {
        &self.queue
    }

    /// The source of the IDs of the requests to come.
    pub(crate) fn ids(&self) -> &NumberSource
        ensures { result.now ≡ self.now.ids }
    {
        &self.ids
    }

    /// Reserves room for so many packets in the queue.
    ///
    /// # Errors
    ///
    /// `AllocError` if memory allocation fails. Only the room may change then.
    pub(crate) fn reserve(&mut self, packets: usize) -> Result<(), AllocError>
        ensures same { self.new ≡ with_room self.new.room self.old }
        ensures room { OnOk result (packets ≤ self.new.room) }
    {
        self.queue.reserve(packets)
    }

    /// Records the first send of a request with this ID at `now`, and returns its packet, which is sent
    /// from this local address.
    ///
    /// # Errors
    ///
    /// `AllocError` if memory allocation fails. Nothing changes then.
    pub(crate) fn begin(
        &mut self,
        id: TransactionId,
        text: Data,
        from: SocketAddr,
        now: Instant,
    ) -> Result<Transmit<Data>, AllocError>
        requires { is_outstanding id self.old.transactions ≡ false }
        ensures packet { IfOk result (λ packet. packet ≡ packet_of self.old from text) }
        ensures ok { OnOk result (self.new ≡ begun id text now self.old) }
        ensures err { OnErr result (self.new ≡ self.old) }
    {
        let mut packet = self.agent.send_request(id, text, self.remote, now)?;
        packet.from = from;
        Ok(packet)
    }

    /// Drops the request with this ID. It is no longer outstanding.
    pub(crate) fn end(&mut self, id: TransactionId)
        ensures { self.new ≡ record self.old { transactions = without_transaction id self.old.transactions } }
    {
        let _was_outstanding = self.agent.end(id);
    }

    /// Drops all requests and all queued packets: nothing is left to send.
    pub(crate) fn end_all(&mut self)
        ensures { self.new ≡ record self.old { transactions = []; queue = []; room = self.new.room } }
    {
        self.agent.end_all();
        self.queue.clear();
    }

    /// Takes the next ID of the seed.
    pub(crate) fn draw(&mut self)
        ensures { self.new ≡ outbox_id_used self.old }
    {
        let _drawn = self.ids.draw();
    }

    /// Queues the packet, as the last one. `reserve` makes room.
    pub(crate) fn wait(&mut self, packet: Transmit<Data>, is_request: bool)
        requires { 0 < self.old.room }
        ensures { self.new ≡ with_room self.new.room (waiting packet is_request self.old) }
    {
        self.queue.push(packet, is_request);
    }
}

impl Outbox {
    /// Queues a request with this ID, the next one, to be sent from this local address. It is
    /// outstanding then.
    ///
    /// # Errors
    ///
    /// `AllocError` if memory allocation fails. Only the room may change then.
    pub(crate) fn ask(
        &mut self,
        id: TransactionId,
        text: Data,
        from: SocketAddr,
        now: Instant,
    ) -> Result<(), AllocError>
        requires { is_outstanding id self.old.transactions ≡ false }
        ensures ok { OnOk result (self.new ≡ with_room self.new.room (request_queued id from text now self.old)) }
        ensures err { OnErr result (self.new ≡ with_room self.new.room self.old) }
    {
        self.reserve(1)?;
        let packet = self.begin(id, text, from, now)?;
        self.draw();
        self.wait(packet, true);
        Ok(())
    }

    /// Queues a reply, to be sent over the control connection.
    ///
    /// # Errors
    ///
    /// `AllocError` if memory allocation fails. Only the room may change then.
    pub(crate) fn reply(&mut self, text: Data) -> Result<(), AllocError>
        ensures ok { OnOk result (self.new ≡ with_room self.new.room (waiting (packet_of self.old self.old.local text) false self.old)) }
        ensures err { OnErr result (self.new ≡ with_room self.new.room self.old) }
    {
        self.reserve(1)?;
        let packet = self.packet(text);
        self.wait(packet, false);
        Ok(())
    }

    /// The packet to the server over the control connection.
    pub(crate) fn packet(&self, text: Data) -> Transmit<Data>
        ensures { result ≡ packet_of self.now self.now.local text }
    {
        Transmit::new(
            text,
            self.agent.transport(),
            self.agent.local_addr(),
            self.remote,
        )
    }
}

impl Outbox {
    /// Queues a request with this ID, the next one, to be sent over a new stream from this local
    /// address, after the reply over the control connection, if there is one.
    ///
    /// # Errors
    ///
    /// `AllocError` if memory allocation fails. Only the room may change then.
    pub(crate) fn ask_over(
        &mut self,
        reply: Option<Data>,
        id: TransactionId,
        text: Data,
        local: SocketAddr,
        now: Instant,
    ) -> Result<(), AllocError>
        requires { is_outstanding id self.old.transactions ≡ false }
        ensures sent { OnOk result (self.new ≡ with_room self.new.room (asked_over reply id local text now self.old)) }
        ensures err { OnErr result (self.new ≡ with_room self.new.room self.old) }
    {
        self.reserve(2)?;
        let packet = self.begin(id, text, local, now)?;
        self.draw();
        self.wait_both(reply, packet);
        Ok(())
    }

    /// Queues the reply over the control connection, if there is one, and then the request. `reserve`
    /// makes room.
    #[tactic(auto, using(crate::proofs::outbox::OutboxLemmas::answering_none))]
    fn wait_both(&mut self, reply: Option<Data>, request: Transmit<Data>)
        requires { 2 ≤ self.old.room }
        ensures { self.new ≡ with_room self.new.room (waiting request true (answering reply self.old)) }
    {
        match reply {
            Some(text) => {
                let packet = self.packet(text);
                self.queue.push(packet, false);
                self.wait(request, true);
            }
            None => self.wait(request, true),
        }
    }

    /// Queues the reply over the control connection, if there is one.
    ///
    /// # Errors
    ///
    /// `AllocError` if memory allocation fails. Only the room may change then. Without a reply no
    /// memory is allocated.
    #[tactic(auto, using(crate::proofs::outbox::OutboxLemmas::answering_none))]
    pub(crate) fn answer(&mut self, reply: Option<Data>) -> Result<(), AllocError>
        ensures ok { OnOk result (self.new ≡ with_room self.new.room (answering reply self.old)) }
        ensures err { OnErr result (self.new ≡ with_room self.new.room self.old) }
        ensures free { reply ≡ None → IsOk result }
    {
        match reply {
            Some(text) => self.reply(text),
            None => Ok(()),
        }
    }
}
