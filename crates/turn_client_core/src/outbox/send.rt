//! What is sent next (RFC 8489, section 6.2).

ghost use Rattle.std.specs.Prelude.{◌≡◌, true, IfOk, IsSome, OnErr};
ghost use Rattle.turn_client_api.specs.Queue.{without_request};
ghost use Rattle.turn_client_core.specs.Outgoing.{with_room, without_front};
ghost use Rattle.turn_client_core.specs.Sending.{begun_with, first_reply_step, front_step, resend_step};

use crate::outbox::Outbox;
use std::alloc::AllocError;
use turn_client_api::Queued;
use turn_stun::data::Data;
use turn_stun::instant::Instant;
use turn_stun::message::header::MessageHeader;
use turn_stun::transport::Transmit;

impl Outbox {
    /// Retransmits the oldest request that is due.
    ///
    /// # Errors
    ///
    /// `AllocError` if memory allocation fails. The request is still due.
    pub(crate) fn resend(&mut self, now: Instant) -> Result<Option<Transmit<Data>>, AllocError>
        ensures step { IfOk result (λ packet. (packet, self.new) ≡ resend_step now self.old) }
        ensures err { OnErr result (self.new ≡ self.old) }
        // If none is due, no memory is allocated.
        ensures free { OnErr result (IsSome (resend_step now self.old).0) }
    {
        match self.agent.poll_transmit(now)? {
            Some(packet) => {
                self.last_send = Some(now);
                Ok(Some(packet))
            }
            None => Ok(None),
        }
    }

    /// Removes and returns the first reply, which does not extend the pause: that applies to requests (our choice).
    pub(crate) fn take_reply(&mut self) -> Option<Transmit<Data>>
        ensures { (result, with_room self.old.room self.new) ≡ first_reply_step self.old }
    {
        self.queue.take_reply()
    }

    /// Removes so many packets at the front of the queue, whose requests are no longer outstanding.
    pub(crate) fn drop_front(&mut self, count: usize)
        ensures { with_room self.old.room self.new ≡ without_front count self.old }
    {
        for _round in 0..count {
            self.drop_first();
        }
    }

    /// Removes the first queued packet, whose request is no longer outstanding.
    fn drop_first(&mut self)
        ensures { with_room self.old.room self.new ≡ without_front 1 self.old }
    {
        match self.queue.pop_front() {
            Some(queued) => self.end_queued(&queued),
            None => {}
        }
    }

    /// Drops the request of this packet. It is no longer outstanding.
    fn end_queued(&mut self, queued: &Queued)
        ensures { self.new ≡ record self.old { transactions = without_request self.old.transactions queued.now } }
    {
        if let Ok(header) = MessageHeader::from_bytes(queued.packet.payload.as_bytes()) {
            self.end(header.transaction_id);
        }
    }

    /// Removes and returns the first queued packet. If requests are timed from when they are sent, the waits of one
    /// that is returned begin now.
    pub(crate) fn take_front(
        &mut self,
        timed_from_send: bool,
        now: Instant,
    ) -> Option<Transmit<Data>>
        ensures { (result, with_room self.old.room self.new) ≡ front_step timed_from_send now self.old }
    {
        let queued = self.queue.pop_front()?;
        if timed_from_send {
            self.begin_waits(&queued, now);
        }
        self.last_send = Some(now);
        Some(queued.packet)
    }

    /// Begins the waits of this request, which is sent now. A reply has none.
    fn begin_waits(&mut self, queued: &Queued, now: Instant)
        ensures { self.new ≡ record self.old { transactions = begun_with true now queued.now self.old } }
    {
        if !queued.is_request {
            return;
        }
        if let Ok(header) = MessageHeader::from_bytes(queued.packet.payload.as_bytes()) {
            self.agent.begin_waits(header.transaction_id, now);
        }
    }

    /// Restarts the pause: a request was sent.
    pub(crate) fn note_sent(&mut self, now: Instant)
        ensures { self.new ≡ record self.old { last_send = Some now } }
    {
        self.last_send = Some(now);
    }
}
