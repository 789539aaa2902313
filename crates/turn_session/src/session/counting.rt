//! The requests of the client, in numbers.

ghost use Rattle.std.specs.Prelude.{◌≡◌};
ghost use Rattle.turn_session.specs.Counting.{counted, with_answer};
ghost use Rattle.turn_session.specs.SessionState.{with_counts};

use crate::session::Session;
use turn_client_api::TurnClientApi;
use turn_session_counts::counters::Counters;
use turn_stun::data::Data;
use turn_stun::instant::Instant;
use turn_stun::message::header::MessageHeader;
use turn_stun::transaction::TransactionId;
use turn_stun::transport::Transmit;

impl<C: TurnClientApi> Session<C> {
    /// The requests of the client that `poll_transmit` returned, how often it returned them again, and how long the server takes for
    /// an answer: a mean of the times from a request until a response with its ID came over the control connection, also one that the
    /// client ignored. Each next time goes into it by an eighth (RFC 6298, section 2). A request that was sent again is not measured
    /// (section 3), nor is one if 64 others were sent since that were sent once and are not answered.
    ///
    /// Requests that check the path are not among them. The client has to time its requests from their first packets
    /// (`timed_from_send`): otherwise one that waits in its queue for long is counted as sent again.
    pub fn counters(&self) -> Counters
        ensures { result ≡ self.now.counts.counters }
    {
        self.counts.counters()
    }

    /// Counts this packet of the client, if it is a request that awaits its response.
    pub(crate) fn count_packet(&mut self, packet: &Transmit<Data>, now: Instant)
        ensures { self.new ≡ with_counts (counted packet.now.payload now self.old.noted.client self.old.counts) self.old }
    {
        let Ok(header) = MessageHeader::from_bytes(packet.payload.as_bytes()) else {
            return;
        };
        let id = header.transaction_id;
        let request = self.noted.client().request_of(id);
        if let Some(resends) = request.resends {
            self.counts.sent(id, resends, now);
        }
    }

    /// Measures the round trip of the request of the client that has this ID, if a response to it is received now.
    pub(crate) fn count_answer(&mut self, id: TransactionId, now: Instant)
        ensures { self.new ≡ with_answer id now self.old }
    {
        self.counts.answered(id, now);
    }
}
