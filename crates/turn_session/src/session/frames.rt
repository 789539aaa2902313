//! The next frame of a stream to the server.

ghost use Rattle.std.specs.Prelude.{◌≡◌, ◌≤◌, ◌<◌, ◌^◌, [], length, option_map, All, IfOk, IfSome, IsNone, IsSome, IsSomeAnd, None};
ghost use Rattle.std.specs.Prelude.{OnErr, OnOk};
ghost use Rattle.turn_client_api.specs.Answers.{EndsAfterSteps, given_payload, outcome_of};
ghost use Rattle.turn_client_api.specs.Payloads.{PeerData};
ghost use Rattle.turn_client_api.specs.Streams.{HoldsLittle, owned, payload_in, poll_recv_step};
ghost use Rattle.turn_session_client.specs.Receiving.{ended_with};
ghost use Rattle.turn_session.specs.Framing.{CopyFails, FirstGives, FrameFails, FrameGives, TakingNextFails};
ghost use Rattle.turn_session.specs.Framing.{TakesFrame, TakesNext, TakingFails, WaitsForMore, after_held, lost, stopped};
ghost use Rattle.turn_session.specs.Given.{given_outcome};
ghost use Rattle.turn_session.specs.SessionState.{with_frames, with_noted};
ghost use Rattle.turn_types.specs.Frames.{begins_no_frame};
ghost use Rattle.turn_types.specs.Streams.{framed, next_frame};

use crate::given::{Given, IcmpReport, PeerBytes};
use crate::session::Session;
use std::alloc::AllocError;
use std::convert::AsSlice;
use std::mem;
use turn_client_api::{TurnClientApi, TurnPeerData, TurnRecvRet};
use turn_session_book::causes::Why;
use turn_stun::instant::Instant;
use turn_stun::transport::Transmit;
use turn_types::tcp::TurnTcpBuffer;

impl<C: TurnClientApi> Session<C> {
    /// Data that the client holds in its streams, or else what the next frame gives.
    pub(crate) fn take_next(&mut self, now: Instant) -> Result<Option<Given>, AllocError>
        requires now_in_range { now ≤ 2 ^ 62 }
        ensures given { IfOk result (λ given. TakesNext now self.old self.new (option_map given_outcome given)) }
        ensures little { IfOk result (λ given. IsNone given → WaitsForMore self.new) }
        ensures smaller { IfOk result (λ given. IfSome given (λ given. payload_in (given_outcome given) ≡ None
            → length self.new.frames.bytes < length self.old.frames.bytes)) }
        ensures no_memory { OnErr result (TakingNextFails now self.old self.new) }
    {
        match self.take_held(now)? {
            Some(data) => {
                let given = self.copied(&data)?;
                Ok(Some(given))
            }
            None => self.take_frame(now),
        }
    }

    /// The next data that the client holds in its streams.
    fn take_held(&mut self, now: Instant) -> Result<Option<TurnPeerData<Vec<u8>>>, AllocError>
        requires now_in_range { now ≤ 2 ^ 62 }
        ensures answer { IfOk result (λ given. option_map given_payload given ≡ (poll_recv_step now self.old.noted.client).0) }
        ensures little { IfOk result (λ given. IsNone given → All HoldsLittle self.new.noted.client.streams) }
        ensures after { OnOk result (self.new ≡ after_held now self.old) }
        ensures no_memory { OnErr result (EndsAfterSteps now self.old.noted.client self.new.noted.client) }
        ensures ended { OnErr result (self.new ≡ with_noted (ended_with self.new.noted.client self.old.noted) self.old) }
    {
        self.noted.poll_recv(now)
    }

    /// Takes the first frame out of the stream, and receives it.
    fn take_frame(&mut self, now: Instant) -> Result<Option<Given>, AllocError>
        requires now_in_range { now ≤ 2 ^ 62 }
        ensures given { IfOk result (λ given. TakesFrame now self.old self.new (option_map given_outcome given)) }
        ensures none { IfOk result (λ given. IsNone given → self.new.noted.client ≡ self.old.noted.client) }
        ensures little { IfOk result (λ given. IsNone given → length self.new.frames.bytes < 65556) }
        ensures smaller { IfOk result (λ given. IsSome given → length self.new.frames.bytes < length self.old.frames.bytes) }
        ensures no_memory { OnErr result (TakingFails now self.old self.new) }
    {
        let frames = self.take_out();
        let given = self.recv_first(&frames, now);
        self.put_back(frames);
        given
    }

    /// Takes all frames out of the stream.
    fn take_out(&mut self) -> TurnTcpBuffer
        ensures frames { result.stream ≡ self.old.frames }
        ensures none_left { self.new ≡ with_frames (framed []) self.old }
    {
        mem::replace(&mut self.frames, TurnTcpBuffer::new(self.alloc))
    }

    /// Puts these frames back, but for the first one.
    fn put_back(&mut self, mut frames: TurnTcpBuffer)
        ensures after { self.new ≡ with_frames (next_frame frames.stream).after self.old }
        ensures little { (next_frame frames.stream).frame ≡ None → length self.new.frames.bytes < 65556 }
    {
        frames.pass();
        self.frames = frames;
    }

    /// Receives the first of these frames. Bytes that begin no frame end the session.
    fn recv_first(
        &mut self,
        frames: &TurnTcpBuffer,
        now: Instant,
    ) -> Result<Option<Given>, AllocError>
        requires now_in_range { now ≤ 2 ^ 62 }
        ensures given { IfOk result (λ given. FirstGives (next_frame frames.now.stream).frame
            (begins_no_frame frames.now.stream.bytes) now self.old self.new (option_map given_outcome given)) }
        ensures none { IfOk result (λ given. IsNone given → self.new.noted.client ≡ self.old.noted.client) }
        ensures no_memory { OnErr result (IsSomeAnd (next_frame frames.now.stream).frame
            (λ frame. FrameFails frame now self.old self.new)) }
    {
        match frames.front() {
            Some(frame) => {
                let given = self.recv_frame(frame, now)?;
                Ok(Some(given))
            }
            None => {
                self.stop_if(frames.is_stuck());
                Ok(None)
            }
        }
    }

    /// Ends the session if the stream has bytes that begin no frame.
    fn stop_if(&mut self, is_stuck: bool)
        ensures { self.new ≡ stopped is_stuck self.old }
    {
        if is_stuck {
            self.noted.end(Why::NotAStream);
        }
    }

    /// Receives a whole frame, which the server has sent over the control connection.
    fn recv_frame(&mut self, frame: &[u8], now: Instant) -> Result<Given, AllocError>
        requires now_in_range { now ≤ 2 ^ 62 }
        ensures given { IfOk result (λ given. FrameGives frame.now now self.old self.new (given_outcome given)) }
        ensures no_memory { OnErr result (FrameFails frame.now now self.old self.new) }
    {
        let transmit = self.from_server(frame);
        let answer = self.recv_whole(transmit, now)?;
        self.given_by(answer)
    }

    /// A frame as the server has sent it.
    fn from_server<'a>(&self, frame: &'a [u8]) -> Transmit<&'a [u8]>
        ensures frame { result.payload.now ≡ frame.now }
        ensures transport { result.transport ≡ self.now.noted.client.transport }
        ensures from { result.from ≡ self.now.noted.client.remote }
        ensures to { result.to ≡ self.now.noted.client.local }
    {
        let client = self.noted.client();
        Transmit::new(
            frame,
            client.transport(),
            client.remote_addr(),
            client.local_addr(),
        )
    }

    /// What a frame gave, apart from its bytes.
    ///
    /// # Errors
    ///
    /// As those of `copied`.
    fn given_by<T: AsSlice<u8> + Drop>(
        &mut self,
        answer: TurnRecvRet<T>,
    ) -> Result<Given, AllocError>
        ensures given { IfOk result (λ given. given_outcome given ≡ owned (outcome_of answer)) }
        ensures ok { OnOk result (self.new ≡ self.old) }
        ensures err { OnErr result (CopyFails (outcome_of answer) self.old self.new) }
    {
        match answer {
            TurnRecvRet::Handled => Ok(Given::Handled),
            TurnRecvRet::Ignored(_) => Ok(Given::Ignored),
            TurnRecvRet::PeerData(data) => self.copied(&data),
            TurnRecvRet::PeerIcmp {
                transport,
                peer,
                icmp_type,
                icmp_code,
                icmp_data,
            } => Ok(Given::PeerIcmp(IcmpReport {
                transport,
                peer,
                icmp_type,
                icmp_code,
                icmp_data,
            })),
        }
    }

    /// A copy of data of a peer.
    ///
    /// # Errors
    ///
    /// If memory allocation fails. The session has ended then: the data is lost.
    fn copied<T: AsSlice<u8>>(&mut self, payload: &TurnPeerData<T>) -> Result<Given, AllocError>
        ensures given { IfOk result (λ given. given_outcome given ≡ owned (PeerData (given_payload payload.now))) }
        ensures ok { OnOk result (self.new ≡ self.old) }
        ensures err { OnErr result (self.new ≡ lost self.old) }
    {
        match Vec::from_slice(self.alloc, payload.data()) {
            Ok(bytes) => Ok(Given::PeerData(PeerBytes {
                transport: payload.transport,
                peer: payload.peer,
                bytes,
            })),
            Err(error) => {
                self.noted.end(Why::OutOfMemory);
                Err(error)
            }
        }
    }
}
