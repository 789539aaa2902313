//! ChannelData, by which the client answers no request and makes no event over UDP (RFC 8656, section 12.4): nothing of it is noted.

ghost use Rattle.std.specs.Prelude.{◌≡◌, ◌≤◌, ◌^◌, false, true, None, IfOk, IsOk, OnErr, OnOk};
ghost use Rattle.turn_stun.specs.declared.transport.TransportType.TheVariants.{Udp};
ghost use Rattle.turn_client_api.specs.Answers.{HandsBack, RecvEnds, outcome_of};
ghost use Rattle.turn_client_api.specs.Receive.{recv_step};
ghost use Rattle.turn_session_client.specs.Answering.{is_channel_data};
ghost use Rattle.turn_session_client.specs.Drain.{DrainsSome};
ghost use Rattle.turn_session_client.specs.Receiving.{ended_with, heard_step, outcome_in, with_reply};

use crate::noted::NotedClient;
use std::alloc::AllocError;
use std::convert::AsSlice;
use std::fmt::Debug;
use turn_client_api::{TurnClientApi, TurnRecvRet};
use turn_session_life::life::Phase;
use turn_stun::instant::Instant;
use turn_stun::transport::Transmit;

impl<C: TurnClientApi> NotedClient<C> {
    /// Passes in a datagram that begins as ChannelData does: `recv` answers the same. The session and its client stay as they are, and
    /// no memory is allocated. After the end of the session it is returned.
    // Each packet of a channel comes this way: where it is not inlined, the packet is copied.
    #[inline(always)]
    pub fn recv_channel_datagram<T: AsSlice<u8> + Debug + Drop>(
        &mut self,
        transmit: Transmit<T>,
        now: Instant,
    ) -> Result<TurnRecvRet<T>, AllocError>
        requires now_in_range { now ≤ 2 ^ 62 }
        requires datagram { transmit.transport ≡ Udp }
        requires channel_data { is_channel_data (T.items transmit.payload) ≡ true }
        ensures answer { IfOk result (λ answer. outcome_of answer ≡ outcome_in self.old.life.phase false
            (recv_step Udp transmit.from transmit.to (T.items transmit.payload) now self.old.client).0) }
        ensures hands_back { IfOk result (HandsBack transmit) }
        ensures same { self.new ≡ self.old }
        ensures free { IsOk result }
    {
        if matches!(self.life.phase, Phase::Over(_)) {
            return Ok(TurnRecvRet::Ignored(transmit));
        }
        self.client.recv(transmit, now)
    }

    /// Passes in ChannelData, which is no response. Over a stream a message may follow it, by which the client makes events.
    #[inline(always)]
    pub(crate) fn hear_channel_data<T: AsSlice<u8> + Debug + Drop>(
        &mut self,
        transmit: Transmit<T>,
        now: Instant,
    ) -> Result<TurnRecvRet<T>, AllocError>
        requires now_in_range { now ≤ 2 ^ 62 }
        ensures answer { IfOk result (λ answer. outcome_of answer
            ≡ (recv_step transmit.transport transmit.from transmit.to (T.items transmit.payload) now self.old.client).0) }
        ensures hands_back { IfOk result (HandsBack transmit) }
        ensures after { OnOk result (DrainsSome now
            (heard_step transmit.transport transmit.from transmit.to (T.items transmit.payload) None now self.old) self.new) }
        ensures no_memory { OnErr result (RecvEnds transmit.to (T.items transmit.payload) now self.old.client self.new.client) }
        ensures ended { OnErr result (self.new ≡ ended_with self.new.client self.old) }
    {
        let answer = self.pass_in(transmit, now)?;
        let is_handled = matches!(&answer, TurnRecvRet::Handled);
        self.note_if(is_handled, now);
        Ok(answer)
    }

    /// Notes the events of the client, which have no error, if it handled a message. What memory is wanted for is noted by the next
    /// call.
    #[tactic(auto, using(crate::proofs::DrainLemmas::drains_none))]
    fn note_if(&mut self, is_handled: bool, now: Instant)
        ensures { DrainsSome now (with_reply is_handled None self.old) self.new }
    {
        if is_handled {
            self.notes.reply = None;
            let _drained = self.drain(now);
        }
    }
}
