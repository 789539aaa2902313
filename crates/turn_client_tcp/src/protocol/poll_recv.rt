//! The next frames of a client's streams (RFC 8656, section 12.5; RFC 6062, section 4.3).

ghost use Rattle.std.specs.Prelude.{◌≡◌, All, [], option_map, true, IfOk, IsNone, IsOk, None, OnErr, OnOk};
ghost use Rattle.turn_client_api.specs.Answers.{EndsAfterSteps};
ghost use Rattle.turn_client_laws.specs.LawsOrder.{IsUngranted};
ghost use Rattle.turn_client_api.specs.Streams.{HoldsLittle, framed_stream_step, is_bound};
ghost use Rattle.turn_client_api.specs.Streams.{detached_frame_step, poll_recv_step};
ghost use Rattle.turn_client_tcp.specs.Origins.{IsCarriedBy};
ghost use Rattle.turn_client_tcp.specs.Lent.{IsBoundFirst};
ghost use Rattle.turn_client_core.specs.ProtocolRecv.{IsPart, outcome_in};
ghost use Rattle.turn_client_tcp.specs.StreamSteps.{received_payload, owned_payload};
ghost use Rattle.turn_client_tcp.specs.Wanted.{EndsInNeed, FrontWantsMemory, HasBytes, StepWantsMemory};

use crate::protocol::TurnClientTcpProtocol;
use crate::protocol::frame::FrameOrigin;
use crate::received::{Received, copy_of};
use std::alloc::AllocError;
use turn_client_api::{Mode, Phase};
use turn_client_core::TurnProtocolRecv;
use turn_client_streams::{BufferedStream, Front};
use turn_stun::instant::Instant;
use turn_stun::transport::TransportType;

impl TurnClientTcpProtocol {
    /// Processes the streams that are ready, until one gives a payload.
    ///
    /// # Errors
    ///
    /// If memory allocation for the bytes of a stream fails. That stream is broken then, and the client
    /// has ended. The bytes of a bound stream are moved out, which allocates no memory, nor does a frame
    /// that requires nothing of the client, or what breaks a stream.
    pub(crate) fn process_ready(&mut self, now: Instant) -> Result<Option<Received>, AllocError>
        requires before { IsUngranted self.old.phase → self.old.grants ≡ [] }
        ensures answer { IfOk result (λ given. option_map received_payload given ≡ (poll_recv_step now self.old).0) }
        ensures little { IfOk result (λ given. IsNone given → All HoldsLittle self.new.streams) }
        ensures after { OnOk result (self.new ≡ (poll_recv_step now self.old).1) }
        ensures no_memory { OnErr result (EndsAfterSteps now self.old self.new) }
        ensures wanted { OnErr result (EndsInNeed now self.old self.new) }
        ensures free { IsBoundFirst self.old → IsOk result }
    {
        while let Some(stream) = self.streams.take_ready() {
            let local = stream.local();
            match self.process_detached(stream, now) {
                Ok(None) => {}
                Ok(Some(given)) => return Ok(Some(given)),
                Err(refusal) => {
                    self.end_at(local);
                    return Err(refusal);
                }
            }
        }
        Ok(None)
    }

    /// Processes the next frame of a stream that is taken out, or the data of a bound one.
    ///
    /// # Errors
    ///
    /// If memory allocation fails, for what a message requires or for a copy of data, and never for a
    /// bound stream. Nothing changes then.
    fn process_detached(
        &mut self,
        stream: BufferedStream,
        now: Instant,
    ) -> Result<Option<Received>, AllocError>
        requires before { self.old.phase ≡ Phase.Authenticating → self.old.grants ≡ [] }
        ensures answer { IfOk result (λ given. option_map received_payload given ≡ owned_payload (detached_frame_step stream now self.old).0) }
        ensures after { OnOk result (self.new ≡ (detached_frame_step stream now self.old).1) }
        ensures err { OnErr result (self.new ≡ self.old) }
        ensures wanted { OnErr result (StepWantsMemory stream now self.old) }
        ensures free { is_bound stream.mode ≡ true → IsOk result }
    {
        match stream.mode() {
            Mode::Control => self.framed_stream_step(stream, FrameOrigin::Control, now),
            Mode::Waiting => {
                let origin = FrameOrigin::Waiting(stream.local());
                self.framed_stream_step(stream, origin, now)
            }
            Mode::Bound(peer) => Ok(Some(Received {
                transport: TransportType::Tcp,
                peer,
                bytes: stream.into_bytes(),
            })),
            Mode::Broken => Ok(None),
        }
    }

    /// Processes the next frame of a stream of frames, which is taken out.
    ///
    /// # Errors
    ///
    /// If memory allocation fails, for what a message requires or for a copy of data. Nothing changes
    /// then.
    fn framed_stream_step(
        &mut self,
        mut stream: BufferedStream,
        origin: FrameOrigin,
        now: Instant,
    ) -> Result<Option<Received>, AllocError>
        requires origin { IsCarriedBy origin stream }
        requires before { self.old.phase ≡ Phase.Authenticating → self.old.grants ≡ [] }
        ensures answer { IfOk result (λ given. option_map received_payload given ≡ owned_payload (framed_stream_step stream now self.old).0) }
        ensures after { OnOk result (self.new ≡ (framed_stream_step stream now self.old).1) }
        ensures err { OnErr result (self.new ≡ self.old) }
        ensures wanted { OnErr result (FrontWantsMemory stream now self.old) }
    {
        match stream.front() {
            Front::Frame(kind, frame) => {
                let reported = self.frame(origin, kind, frame, now)?;
                let given = self.owned(frame, reported)?;
                let len = frame.len();
                stream.pass(len);
                self.streams.put(stream);
                Ok(given)
            }
            Front::Partial => {
                self.streams.put(stream);
                Ok(None)
            }
            Front::Stuck => {
                self.streams.break_at(stream.local());
                Ok(None)
            }
        }
    }

    /// A copy of the data of a peer, if the frame has given any.
    ///
    /// # Errors
    ///
    /// If memory allocation for the copy fails. A copy of no bytes needs none.
    fn owned(
        &self,
        frame: &[u8],
        reported: TurnProtocolRecv,
    ) -> Result<Option<Received>, AllocError>
        requires part { IsPart frame.now self.now self.now reported }
        ensures answer { IfOk result (λ given. option_map received_payload given ≡ owned_payload (outcome_in frame.now reported)) }
        ensures wanted { OnErr result (HasBytes (owned_payload (outcome_in frame.now reported))) }
    {
        match reported {
            TurnProtocolRecv::Handled => Ok(None),
            TurnProtocolRecv::Ignored => Ok(None),
            TurnProtocolRecv::PeerData(transport, peer, place) => {
                let bytes = copy_of(self.alloc, &frame[place.start..place.end])?;
                Ok(Some(Received {
                    transport,
                    peer,
                    bytes,
                }))
            }
            TurnProtocolRecv::PeerIcmp(_, _, _) => Ok(None),
        }
    }
}
