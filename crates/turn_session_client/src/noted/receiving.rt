//! What the server sent.

ghost use Rattle.std.specs.Prelude.{◌≡◌, ◌≤◌, ◌^◌, Option, IfOk, OnErr, OnOk};
ghost use Rattle.turn_client_api.specs.Answers.{HandsBack, RecvEnds, outcome_of};
ghost use Rattle.turn_client_api.specs.Receive.{is_from_server, recv_step};
ghost use Rattle.turn_session_client.specs.Drain.{DrainsSome};
ghost use Rattle.turn_session_client.specs.Reading.{IsReadingFrom};
ghost use Rattle.turn_session_client.specs.declared.reading.Reading.{Reading};
ghost use Rattle.turn_session_client.specs.Receiving.{Receives, answers_nothing, ended_with, heard_step, noted_response};
ghost use Rattle.turn_session_client.specs.Receiving.{outcome_in, reply_for, received, with_hints};

use crate::answering::is_channel_data;
use crate::noted::NotedClient;
use crate::reading::{
    Reading, hint_in, ignored_in, is_foreign, mapped_after, read, reply_in, response_to,
};
use std::alloc::AllocError;
use std::convert::AsSlice;
use std::fmt::Debug;
use turn_client_api::{TurnClientApi, TurnRecvRet};
use turn_session_book::causes::Why;
use turn_session_book::replies::ErrorReply;
use turn_session_life::heard::refusal;
use turn_session_life::life::Phase;
use turn_session_life::responses::Response;
use turn_stun::instant::Instant;
use turn_stun::transport::Transmit;

impl<C: TurnClientApi> NotedClient<C> {
    /// Passes a datagram to the client, or bytes read from a stream, and notes what it does there. A response is read before the
    /// client ends its request, so that an event reports an error with the outcome, and the session knows why it ends. Over a stream
    /// it is read if it comes by itself. While the session leaves nothing is noted, and after its end all input is returned.
    ///
    /// A response that has another method than the request with its ID answers nothing, and is returned before the client takes
    /// it: the request still awaits its response.
    ///
    /// # Errors
    ///
    /// If memory allocation fails in the client, which has ended then, and the session with it. If it fails for the notes, `poll`
    /// notes the rest.
    #[inline]
    #[tactic(auto, using(crate::proofs::ChannelDataLemmas::unread))]
    pub fn recv<T: AsSlice<u8> + Debug + Drop>(
        &mut self,
        transmit: Transmit<T>,
        now: Instant,
    ) -> Result<TurnRecvRet<T>, AllocError>
        requires now_in_range { now ≤ 2 ^ 62 }
        ensures answer { IfOk result (λ answer. outcome_of answer
            ≡ outcome_in self.old.life.phase (answers_nothing transmit.to (T.items transmit.payload) self.old.client)
            (recv_step transmit.transport transmit.from transmit.to (T.items transmit.payload) now self.old.client).0) }
        ensures hands_back { IfOk result (HandsBack transmit) }
        ensures after { OnOk result (Receives transmit.transport transmit.from transmit.to (T.items transmit.payload) now self.old self.new) }
        ensures no_memory { OnErr result (RecvEnds transmit.to (T.items transmit.payload) now self.old.client self.new.client) }
        ensures ended { OnErr result (self.new ≡ ended_with self.new.client self.old) }
    {
        match self.life.phase {
            Phase::Over(_) => Ok(TurnRecvRet::Ignored(transmit)),
            Phase::Leaving(_) => self.pass_in(transmit, now),
            _ if is_channel_data(transmit.payload.as_slice()) => self.hear_channel_data(
                transmit, now,
            ),
            _ if self.answers_nothing(&transmit) => Ok(TurnRecvRet::Ignored(transmit)),
            _ => self.hear(transmit, now),
        }
    }

    /// Whether it is a response over the control connection that answers nothing.
    fn answers_nothing<T: AsSlice<u8> + Debug + Drop>(&self, transmit: &Transmit<T>) -> bool
        ensures { result ≡ answers_nothing transmit.now.to (T.items transmit.now.payload) self.now.client }
    {
        transmit.to == self.client.local_addr()
            && is_foreign(transmit.payload.as_slice(), &self.client)
    }

    /// Reads it, passes it to the client, and notes what it says and what the client does.
    fn hear<T: AsSlice<u8> + Debug + Drop>(
        &mut self,
        transmit: Transmit<T>,
        now: Instant,
    ) -> Result<TurnRecvRet<T>, AllocError>
        requires now_in_range { now ≤ 2 ^ 62 }
        ensures answer { IfOk result (λ answer. outcome_of answer
            ≡ (recv_step transmit.transport transmit.from transmit.to (T.items transmit.payload) now self.old.client).0) }
        ensures hands_back { IfOk result (HandsBack transmit) }
        ensures after { OnOk result ((reading : Option Reading)
            × IsReadingFrom (is_from_server transmit.transport transmit.from self.old.client) (T.items transmit.payload) self.old.client reading
            × DrainsSome now (heard_step transmit.transport transmit.from transmit.to (T.items transmit.payload) reading now self.old)
            self.new) }
        ensures no_memory { OnErr result (RecvEnds transmit.to (T.items transmit.payload) now self.old.client self.new.client) }
        ensures ended { OnErr result (self.new ≡ ended_with self.new.client self.old) }
    {
        let reading = self.read(&transmit);
        let reply = self.reply_for(reading);
        let answer = self.pass_in(transmit, now)?;
        let is_taken = matches!(&answer, TurnRecvRet::Handled);
        self.note_reading(reading, reply, is_taken, now);
        self.drain_if(is_taken, now);
        Ok(answer)
    }

    /// The response to a request of the client, if the server has sent one. What others send answers no request, whatever it says.
    fn read<T: AsSlice<u8> + Debug + Drop>(&self, transmit: &Transmit<T>) -> Option<Reading>
        ensures { IsReadingFrom (is_from_server transmit.now.transport transmit.now.from self.now.client) (T.items transmit.now.payload)
            self.now.client result }
    {
        if self.is_from_server(transmit) {
            read(transmit.payload.as_slice(), &self.client)
        } else {
            None
        }
    }

    /// Whether the server has sent it.
    fn is_from_server<T: AsSlice<u8> + Debug + Drop>(&self, transmit: &Transmit<T>) -> bool
        ensures { result ≡ is_from_server transmit.now.transport transmit.now.from self.now.client }
    {
        transmit.transport == self.client.transport() && transmit.from == self.client.remote_addr()
    }

    /// Passes it to the client.
    #[inline(always)]
    pub(crate) fn pass_in<T: AsSlice<u8> + Debug + Drop>(
        &mut self,
        transmit: Transmit<T>,
        now: Instant,
    ) -> Result<TurnRecvRet<T>, AllocError>
        requires now_in_range { now ≤ 2 ^ 62 }
        ensures answer { IfOk result (λ answer. outcome_of answer
            ≡ (recv_step transmit.transport transmit.from transmit.to (T.items transmit.payload) now self.old.client).0) }
        ensures hands_back { IfOk result (HandsBack transmit) }
        ensures after { OnOk result (self.new ≡ record self.old {
          client = (recv_step transmit.transport transmit.from transmit.to (T.items transmit.payload) now self.old.client).1;
        }) }
        ensures no_memory { OnErr result (RecvEnds transmit.to (T.items transmit.payload) now self.old.client self.new.client) }
        ensures ended { OnErr result (self.new ≡ ended_with self.new.client self.old) }
    {
        match self.client.recv(transmit, now) {
            Ok(answer) => Ok(answer),
            Err(error) => {
                self.life.end(Why::OutOfMemory);
                Err(error)
            }
        }
    }

    /// The error of a response that the events of a client report that accepts it. While an earlier event is to be noted there is
    /// none: that one has the error before.
    fn reply_for(&self, reading: Option<Reading>) -> Option<ErrorReply>
        ensures { result ≡ reply_for reading self.now }
    {
        if self.taken.is_some() {
            return None;
        }
        reply_in(reading)
    }

    /// Notes what was received: this response, if it is one, with this error, which the client has accepted or ignored.
    fn note_reading(
        &mut self,
        reading: Option<Reading>,
        reply: Option<ErrorReply>,
        is_taken: bool,
        now: Instant,
    )
        ensures { self.new ≡ received reading reply is_taken now self.old }
    {
        if is_taken {
            self.notes.reply = reply;
        }
        if let Some(reading) = reading {
            self.notes.mapped = mapped_after(reading, is_taken, self.notes.mapped);
            let response = response_to(reading, is_taken);
            self.note_hint(reading, response);
            self.note_response(response, now);
        }
    }

    /// Notes an error that the client has ignored with the requests that it answers: if one times out, its outcome has that error.
    fn note_hint(&mut self, reading: Reading, response: Response)
        ensures { self.new ≡ with_hints reading response self.old }
    {
        let Some(error) = ignored_in(response) else {
            return;
        };
        if let Some(key) = reading.key {
            self.notes.book.hint(key, error);
        }
        if let Some(key) = reading.second {
            self.notes.book.hint(key, error);
        }
    }

    /// Notes what a response says of the allocation. An error of the ALLOCATE that is not signed is the verdict after a while.
    fn note_response(&mut self, response: Response, now: Instant)
        ensures { self.new ≡ noted_response response now self.old }
    {
        self.heard.answered(response, now);
        self.note_doubts(response, now);
        self.life.heard();
        self.verdict.answered();
        if let Some(error) = hint_in(response) {
            self.verdict
                .refused(refusal(error, self.heard.is_challenged), now);
        }
    }

    /// Notes the events of the client if it handled a message. What memory is wanted for is noted by the next call.
    #[tactic(auto, using(crate::proofs::DrainLemmas::drains_none))]
    fn drain_if(&mut self, is_handled: bool, now: Instant)
        ensures { DrainsSome now self.old self.new }
    {
        if is_handled {
            let _drained = self.drain(now);
        }
    }
}
