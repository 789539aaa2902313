//! Pieces of a client's streams (RFC 8656, section 12.5; RFC 6062, section 4.3).

ghost use Rattle.std.specs.Prelude.{◌≡◌, ◌≤◌, ◌<◌, [], false, find, length, true, IfOk, IsOk, None, OnErr, OnOk, Some};
ghost use Rattle.turn_agent.specs.Agent.{same_address};
ghost use Rattle.turn_client_api.specs.Answers.{EndsAfterSteps, HandsBack, IsPartOf, given_payload, outcome_of};
ghost use Rattle.turn_client_api.specs.Effect.{closed};
ghost use Rattle.turn_client_laws.specs.LawsOrder.{IsUngranted};
ghost use Rattle.turn_client_api.specs.Memory.{is_free_frame};
ghost use Rattle.turn_client_api.specs.PeerBytes.{held_in};
ghost use Rattle.turn_client_api.specs.Payloads.{PeerData};
ghost use Rattle.turn_client_api.specs.Receive.{then_all};
ghost use Rattle.turn_client_api.specs.Streams.{broken_at, is_bound, is_ready, owned};
ghost use Rattle.turn_client_streams.specs.Buffered.{is_broken_mode};
ghost use Rattle.turn_client_streams.specs.Front.{IsOfKind};
ghost use Rattle.turn_client_tcp.specs.Origins.{IsCarriedBy, carried_step, carried_takes_memory};
ghost use Rattle.turn_client_tcp.specs.StreamSteps.{EndsBehind, IsFront, PieceEnds, bound_sent, broken_piece_step, came_with, fed_frame_step};
ghost use Rattle.turn_client_tcp.specs.StreamSteps.{given_as, left_by, bytes_in_range, whole_piece_step, put_or_broken};
ghost use Rattle.turn_client_tcp.specs.Wanted.{EndsInNeed};
ghost use Rattle.turn_types.specs.Frames.{frame_len};
ghost use Rattle.turn_types.specs.Incoming.{IsNamedIncoming, incoming_bytes};

use crate::protocol::TurnClientTcpProtocol;
use crate::protocol::frame::FrameOrigin;
use std::alloc::AllocError;
use std::convert::AsSlice;
use std::fmt::Debug;
use std::net::SocketAddr;
use std::ops::Range;
use turn_client_api::{DataRange, DataRangeOrOwned, Mode, Phase, TurnPeerData, TurnRecvRet};
use turn_client_streams::{BufferedStream, FrameKind};
use turn_stun::instant::Instant;
use turn_stun::transport::{Transmit, TransportType};
use turn_types::tcp::IncomingTcp;

impl TurnClientTcpProtocol {
    /// Processes a piece of a stream that is taken out, by what its bytes are. After a piece of the control
    /// stream that gives nothing of a peer, all streams are processed.
    ///
    /// # Errors
    ///
    /// If memory allocation fails, for the piece or for the bytes of other streams, which are processed
    /// after a piece of the control stream. The stream being processed is broken then, and the client
    /// has ended. Bytes of a bound stream with no buffered bytes allocate none.
    pub(crate) fn process_piece<T: AsSlice<u8> + Debug + Drop>(
        &mut self,
        stream: BufferedStream,
        transmit: Transmit<T>,
        now: Instant,
    ) -> Result<TurnRecvRet<T>, AllocError>
        requires some { 0 < length (T.items transmit.payload) }
        requires before { IsUngranted self.old.phase → self.old.grants ≡ [] }
        ensures answer { IfOk result (λ given. outcome_of given ≡ (whole_piece_step stream (T.items transmit.payload) now self.old).0) }
        ensures hands_back { IfOk result (HandsBack transmit) }
        ensures after { OnOk result (self.new ≡ (whole_piece_step stream (T.items transmit.payload) now self.old).1) }
        ensures no_memory { OnErr result (PieceEnds stream (T.items transmit.payload) now self.old self.new) }
        ensures free { is_bound stream.mode ≡ true → stream.bytes ≡ [] → IsOk result }
        ensures free_frame { is_broken_mode stream.mode ≡ false → is_free_frame (T.items transmit.payload) self.old stream ≡ true → IsOk result }
        ensures free_broken { is_broken_mode stream.mode ≡ true → find is_ready (left_by stream self.old).streams ≡ None → IsOk result }
    {
        match stream.mode() {
            Mode::Control => {
                let first = self.framed_piece(stream, FrameOrigin::Control, transmit, now)?;
                self.then_all(first, now)
            }
            Mode::Waiting => {
                let origin = FrameOrigin::Waiting(stream.local());
                self.framed_piece(stream, origin, transmit, now)
            }
            Mode::Bound(peer) => self.bound_piece(stream, peer, transmit),
            Mode::Broken => {
                let local = stream.local();
                self.streams.put(stream);
                self.broken_piece(local, now)
            }
        }
    }

    /// Unless something of a peer was received, processes all streams, and returns the data that they
    /// give.
    ///
    /// # Errors
    ///
    /// If memory allocation for the bytes of a stream fails. That stream is broken then, and the client
    /// has ended.
    fn then_all<T: AsSlice<u8> + Debug + Drop>(
        &mut self,
        first: TurnRecvRet<T>,
        now: Instant,
    ) -> Result<TurnRecvRet<T>, AllocError>
        requires before { IsUngranted self.old.phase → self.old.grants ≡ [] }
        ensures answer { IfOk result (λ given. outcome_of given ≡ (then_all now (outcome_of first, self.old)).0) }
        ensures hands_back { (transmit : Transmit T) → HandsBack transmit first → IfOk result (HandsBack transmit) }
        ensures after { OnOk result (self.new ≡ (then_all now (outcome_of first, self.old)).1) }
        ensures no_memory { OnErr result (EndsBehind now (outcome_of first, self.old) self.new) }
        ensures wanted { OnErr result (EndsInNeed now self.old self.new) }
    {
        match first {
            TurnRecvRet::Handled | TurnRecvRet::Ignored(_) => match self.process_ready(now)? {
                Some(given) => Ok(TurnRecvRet::PeerData(given.into_data())),
                None => Ok(first),
            },
            TurnRecvRet::PeerData(_) | TurnRecvRet::PeerIcmp { .. } => Ok(first),
        }
    }

    /// Processes bytes of the broken stream at this local address: they are dropped, and if it is the
    /// control stream, all other streams are processed. The caller need not know that this one broke (our
    /// choice).
    ///
    /// # Errors
    ///
    /// If memory allocation for the bytes of a stream fails. That stream is broken then, and the client
    /// has ended.
    fn broken_piece<T: AsSlice<u8> + Debug + Drop>(
        &mut self,
        local: SocketAddr,
        now: Instant,
    ) -> Result<TurnRecvRet<T>, AllocError>
        requires before { IsUngranted self.old.phase → self.old.grants ≡ [] }
        ensures answer { IfOk result (λ given. outcome_of given ≡ (broken_piece_step local now self.old).0) }
        ensures hands_back { (transmit : Transmit T) → IfOk result (HandsBack transmit) }
        ensures after { OnOk result (self.new ≡ (broken_piece_step local now self.old).1) }
        ensures no_memory { OnErr result ((same_address local self.old.local ≡ true) × EndsAfterSteps now self.old self.new) }
        ensures wanted { OnErr result (EndsInNeed now self.old self.new) }
    {
        if local == self.control.local_addr() {
            return self.then_all(TurnRecvRet::Handled, now);
        }
        Ok(TurnRecvRet::Handled)
    }

    /// Appends a piece to a stream of frames, which is taken out, and processes its first frame.
    ///
    /// # Errors
    ///
    /// If memory allocation fails. The stream is broken then, and the client has ended.
    fn framed_piece<T: AsSlice<u8> + Debug + Drop>(
        &mut self,
        mut stream: BufferedStream,
        origin: FrameOrigin,
        transmit: Transmit<T>,
        now: Instant,
    ) -> Result<TurnRecvRet<T>, AllocError>
        requires some { 0 < length (T.items transmit.payload) }
        requires origin { IsCarriedBy origin stream }
        requires before { self.old.phase ≡ Phase.Authenticating → self.old.grants ≡ [] }
        ensures answer { IfOk result (λ given. outcome_of given ≡ (fed_frame_step stream (T.items transmit.payload) now self.old).0) }
        ensures hands_back { IfOk result (HandsBack transmit) }
        ensures after { OnOk result (self.new ≡ (fed_frame_step stream (T.items transmit.payload) now self.old).1) }
        ensures no_memory { OnErr result (self.new ≡ closed (broken_at stream.local self.old)) }
        ensures free { is_free_frame (T.items transmit.payload) self.old stream ≡ true → IsOk result }
    {
        let local = stream.local();
        let Ok(given) = stream.incoming_tcp(transmit) else {
            self.end_at(local);
            return Err(AllocError);
        };
        let Some(front) = given else {
            self.put_or_break(stream);
            return Ok(TurnRecvRet::Handled);
        };
        match self.first_frame(stream, origin, front, now) {
            Ok(first) => Ok(first),
            Err(refusal) => {
                self.end_at(local);
                Err(refusal)
            }
        }
    }

    /// Breaks the stream at this local address and ends the client: memory allocation for the stream
    /// failed.
    pub(crate) fn end_at(&mut self, local: SocketAddr)
        ensures { self.new ≡ closed (broken_at local self.old) }
    {
        self.streams.break_at(local);
        self.control.close();
    }

    /// Puts the stream back, to receive the rest of its frame, or breaks it if no frame begins with the
    /// received bytes.
    fn put_or_break(&mut self, stream: BufferedStream)
        ensures { self.new ≡ put_or_broken stream self.old }
    {
        if stream.is_broken() {
            self.streams.break_at(stream.local());
        } else {
            self.streams.put(stream);
        }
    }

    /// The result of the first frame. The stream was taken out, and holds the bytes behind the frame.
    ///
    /// # Errors
    ///
    /// If memory allocation fails. Nothing changes then.
    fn first_frame<T: AsSlice<u8> + Debug + Drop>(
        &mut self,
        stream: BufferedStream,
        origin: FrameOrigin,
        front: IncomingTcp<T>,
        now: Instant,
    ) -> Result<TurnRecvRet<T>, AllocError>
        requires whole { let frame = incoming_bytes T.items front in frame_len frame ≡ Some (length frame) }
        requires front { IsFront T.items front }
        requires kind { IsNamedIncoming T.items front }
        requires before { self.old.phase ≡ Phase.Authenticating → self.old.grants ≡ [] }
        ensures answer { IfOk result (λ given. outcome_of given ≡ given_as front (carried_step origin (incoming_bytes T.items front) now self.old).0) }
        ensures hands_back { IfOk result (HandsBack (came_with front)) }
        ensures after { OnOk result (self.new ≡ left_by stream (carried_step origin (incoming_bytes T.items front) now self.old).1) }
        ensures err { OnErr result (self.new ≡ self.old) }
        ensures wanted { OnErr result (carried_takes_memory origin (incoming_bytes T.items front) self.old ≡ true) }
    {
        match front {
            IncomingTcp::CompleteMessage(transmit, place) => {
                self.lent_frame(stream, origin, FrameKind::Message, transmit, place, now)
            }
            IncomingTcp::CompleteChannel(transmit, place) => {
                self.lent_frame(stream, origin, FrameKind::Channel, transmit, place, now)
            }
            IncomingTcp::StoredMessage(frame, transmit) => {
                self.stored_frame(stream, origin, FrameKind::Message, frame, transmit, now)
            }
            IncomingTcp::StoredChannel(frame, transmit) => {
                self.stored_frame(stream, origin, FrameKind::Channel, frame, transmit, now)
            }
        }
    }

    /// The result of a whole frame that is a part of the piece.
    ///
    /// # Errors
    ///
    /// If memory allocation fails. Nothing changes then.
    fn lent_frame<T: AsSlice<u8> + Debug + Drop>(
        &mut self,
        stream: BufferedStream,
        origin: FrameOrigin,
        kind: FrameKind,
        transmit: Transmit<T>,
        place: Range<usize>,
        now: Instant,
    ) -> Result<TurnRecvRet<T>, AllocError>
        requires front { place.start ≡ 0 }
        requires inside { place.end ≤ length (T.items transmit.payload) }
        requires whole { let frame = bytes_in_range (T.items transmit.payload) place in frame_len frame ≡ Some (length frame) }
        requires kind { IsOfKind kind (bytes_in_range (T.items transmit.payload) place) }
        requires before { self.old.phase ≡ Phase.Authenticating → self.old.grants ≡ [] }
        ensures answer { IfOk result (λ given. outcome_of given ≡ (carried_step origin (bytes_in_range (T.items transmit.payload) place) now self.old).0) }
        ensures hands_back { IfOk result (HandsBack transmit) }
        ensures after { OnOk result (self.new ≡ left_by stream (carried_step origin (bytes_in_range (T.items transmit.payload) place) now self.old).1) }
        ensures err { OnErr result (self.new ≡ self.old) }
        ensures wanted { OnErr result (carried_takes_memory origin (bytes_in_range (T.items transmit.payload) place) self.old ≡ true) }
    {
        let frame = &transmit.payload.as_slice()[place.start..place.end];
        let reported = self.frame(origin, kind, frame, now)?;
        self.streams.put(stream);
        Ok(reported.lent(transmit))
    }

    /// The result of a whole frame that began before the piece.
    ///
    /// # Errors
    ///
    /// If memory allocation fails. Nothing changes then.
    fn stored_frame<T: AsSlice<u8> + Debug + Drop>(
        &mut self,
        stream: BufferedStream,
        origin: FrameOrigin,
        kind: FrameKind,
        frame: Vec<u8>,
        transmit: Transmit<T>,
        now: Instant,
    ) -> Result<TurnRecvRet<T>, AllocError>
        requires whole { frame_len frame.items ≡ Some (length frame.items) }
        requires kind { IsOfKind kind frame.items }
        requires before { self.old.phase ≡ Phase.Authenticating → self.old.grants ≡ [] }
        ensures answer { IfOk result (λ given. outcome_of given ≡ owned (carried_step origin frame.items now self.old).0) }
        ensures hands_back { IfOk result (HandsBack transmit) }
        ensures after { OnOk result (self.new ≡ left_by stream (carried_step origin frame.items now self.old).1) }
        ensures err { OnErr result (self.new ≡ self.old) }
        ensures wanted { OnErr result (carried_takes_memory origin frame.items self.old ≡ true) }
    {
        let reported = self.frame(origin, kind, frame.as_slice(), now)?;
        self.streams.put(stream);
        Ok(reported.owned(frame, transmit))
    }

    /// Processes a piece of a stream that is bound to this peer, and is taken out.
    ///
    /// # Errors
    ///
    /// If memory allocation fails, to append the piece to the buffered bytes. The stream is broken
    /// then, and the client has ended.
    fn bound_piece<T: AsSlice<u8> + Debug + Drop>(
        &mut self,
        stream: BufferedStream,
        peer: SocketAddr,
        transmit: Transmit<T>,
    ) -> Result<TurnRecvRet<T>, AllocError>
        ensures answer { IfOk result (λ given. outcome_of given ≡ PeerData (bound_sent peer stream.bytes (T.items transmit.payload))) }
        ensures hands_back { IfOk result (HandsBack transmit) }
        ensures after { OnOk result (self.new ≡ self.old) }
        ensures no_memory { OnErr result (self.new ≡ closed (broken_at stream.local self.old)) }
        ensures free { stream.bytes ≡ [] → IsOk result }
    {
        let local = stream.local();
        match bound_data(stream, peer, transmit) {
            Ok(given) => Ok(TurnRecvRet::PeerData(given)),
            Err(refusal) => {
                self.end_at(local);
                Err(refusal)
            }
        }
    }
}

/// The data received over a bound stream: all of it is the peer's. If no bytes were buffered, it is the
/// piece unchanged, and no memory is allocated.
///
/// # Errors
///
/// If memory allocation fails, to append the piece to the buffered bytes.
fn bound_data<T: AsSlice<u8> + Debug + Drop>(
    mut stream: BufferedStream,
    peer: SocketAddr,
    transmit: Transmit<T>,
) -> Result<TurnPeerData<T>, AllocError>
    ensures answer { IfOk result (λ given. given_payload given ≡ bound_sent peer stream.bytes (T.items transmit.payload)) }
    ensures part { IfOk result (λ given. IsPartOf transmit.payload (held_in given)) }
    ensures free { stream.bytes ≡ [] → IsOk result }
{
    if stream.is_empty() {
        let Transmit { payload, .. } = transmit;
        let len = payload.as_slice().len();
        let part = DataRangeOrOwned::Range(DataRange::new(payload, 0..len));
        return Ok(TurnPeerData::new(TransportType::Tcp, peer, part));
    }
    stream.feed(transmit.payload.as_slice())?;
    let part = DataRangeOrOwned::Owned(stream.into_bytes());
    Ok(TurnPeerData::new(TransportType::Tcp, peer, part))
}
