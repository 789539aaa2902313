//! What the server sent.

ghost use Rattle.std.specs.Prelude.{◌≡◌, ◌≤◌, ◌^◌, IfOk, OnErr, OnOk};
ghost use Rattle.turn_client_api.specs.Answers.{HandsBack, RecvEnds, outcome_of};
ghost use Rattle.turn_session.specs.Receiving.{Ends, Passes, Receives, is_of_server, noted_outcome, outcome_after, path_step, response_step};
ghost use Rattle.turn_session_client.specs.Receiving.{ended_with};
ghost use Rattle.turn_session.specs.SessionState.{with_noted};

use crate::path_messages::{PathText, response_in};
use crate::session::Session;
use std::alloc::AllocError;
use std::convert::AsSlice;
use std::fmt::Debug;
use turn_client_api::{TurnClientApi, TurnRecvRet};
use turn_session_client::is_channel_data;
use turn_stun::instant::Instant;
use turn_stun::transport::Transmit;

impl<C: TurnClientApi> Session<C> {
    /// Receives a datagram, bytes of a data connection, or one whole frame of a stream to the server.
    ///
    /// # Errors
    ///
    /// If memory allocation fails in the client, which has ended then, and the session with it.
    pub(crate) fn recv_whole<T: AsSlice<u8> + Debug + Drop>(
        &mut self,
        transmit: Transmit<T>,
        now: Instant,
    ) -> Result<TurnRecvRet<T>, AllocError>
        requires now_in_range { now ≤ 2 ^ 62 }
        ensures answer { IfOk result (λ answer. outcome_of answer
            ≡ outcome_after transmit.transport transmit.from transmit.to (T.items transmit.payload) now self.old) }
        ensures hands_back { IfOk result (HandsBack transmit) }
        ensures after { OnOk result (Receives transmit.transport transmit.from transmit.to (T.items transmit.payload) now self.old self.new) }
        ensures no_memory { OnErr result (RecvEnds transmit.to (T.items transmit.payload) now self.old.noted.client self.new.noted.client) }
        ensures ended { OnErr result (Ends transmit.transport transmit.from transmit.to (T.items transmit.payload) now self.old self.new) }
    {
        if self.answers_path(&transmit, now) {
            Ok(TurnRecvRet::Handled)
        } else {
            self.pass_in(transmit, now)
        }
    }

    /// Measures a response to a request of the client, and takes one to a request of the path. Returns whether it is one of the path.
    #[tactic(auto, using(crate::proofs::ChannelDataLemmas::passes))]
    fn answers_path<T: AsSlice<u8> + Debug + Drop>(
        &mut self,
        transmit: &Transmit<T>,
        now: Instant,
    ) -> bool
        ensures kept { self.new.noted ≡ self.old.noted }
        ensures step { (result, self.new)
            ≡ path_step transmit.now.transport transmit.now.from transmit.now.to (T.items transmit.now.payload) now self.old }
    {
        if is_channel_data(transmit.payload.as_slice()) {
            return false;
        }
        if self.noted.is_over() || !self.is_of_server(transmit) {
            return false;
        }
        match response_in(transmit.payload.as_slice()) {
            Some(response) => self.take_response(response, now),
            None => false,
        }
    }

    /// Measures a response to a request of the client, and takes one to a request of the path. Returns whether it is one of the path.
    fn take_response(&mut self, response: PathText, now: Instant) -> bool
        ensures kept { self.new.noted ≡ self.old.noted }
        ensures step { (result, self.new) ≡ response_step response now self.old }
    {
        self.count_answer(response.id, now);
        if !self.noted.is_open() {
            return false;
        }
        self.tell_path();
        self.watch.respond(response.id, response.mapped, now)
    }

    /// Whether it came from the server, over the control connection.
    pub(crate) fn is_of_server<T: AsSlice<u8> + Debug + Drop>(&self, transmit: &Transmit<T>) -> bool
        ensures { result ≡ is_of_server transmit.now.transport transmit.now.from transmit.now.to self.now.noted.client }
    {
        let client = self.noted.client();
        transmit.transport == client.transport()
            && transmit.from == client.remote_addr()
            && transmit.to == client.local_addr()
    }

    /// Passes it to the client. What that does not ignore shows that the path carries packets.
    fn pass_in<T: AsSlice<u8> + Debug + Drop>(
        &mut self,
        transmit: Transmit<T>,
        now: Instant,
    ) -> Result<TurnRecvRet<T>, AllocError>
        requires now_in_range { now ≤ 2 ^ 62 }
        ensures answer { IfOk result (λ answer. outcome_of answer
            ≡ noted_outcome transmit.transport transmit.from transmit.to (T.items transmit.payload) now self.old.noted) }
        ensures hands_back { IfOk result (HandsBack transmit) }
        ensures after { OnOk result (Passes transmit.transport transmit.from transmit.to (T.items transmit.payload) now self.old self.new) }
        ensures no_memory { OnErr result (RecvEnds transmit.to (T.items transmit.payload) now self.old.noted.client self.new.noted.client) }
        ensures ended { OnErr result (self.new ≡ with_noted (ended_with self.new.noted.client self.old.noted) self.old) }
    {
        let answer = self.noted.recv(transmit, now)?;
        if !matches!(&answer, TurnRecvRet::Ignored(_)) {
            self.received = Some(now);
        }
        Ok(answer)
    }
}
