//! A stream to the server, which is cut into frames here, so that each is received by itself.

ghost use Rattle.std.specs.Prelude.{◌≡◌, ◌≤◌, ◌^◌, true, option_map, IfOk, IsNone, IsOk, OnErr, OnOk};
ghost use Rattle.turn_types.specs.Streams.{broken_stream};
ghost use Rattle.turn_client_api.specs.Answers.{HandsBack, given_payload, outcome_of};
ghost use Rattle.turn_session.specs.Framing.{BytesGive, DataFails, FollowingFails, Follows, OrData, PieceFails, PieceGives, PollsData};
ghost use Rattle.turn_session.specs.Framing.{ReceivesBytes, ReceivingFails, TakesData, WaitsForMore, fed, is_piece, lost};
ghost use Rattle.turn_session.specs.Given.{given_data, given_outcome};
ghost use Rattle.turn_session.specs.Receiving.{is_channel_datagram};
ghost use Rattle.turn_session.specs.SessionState.{with_frames};

use crate::given::{Given, PeerBytes};
use crate::session::Session;
use crate::session::channel_data::is_channel_datagram;
use std::alloc::AllocError;
use std::convert::AsSlice;
use std::fmt::Debug;
use turn_client_api::{TurnClientApi, TurnPeerData, TurnRecvRet};
use turn_session_book::causes::Why;
use turn_stun::instant::Instant;
use turn_stun::transport::{Transmit, TransportType};

impl<C: TurnClientApi> Session<C> {
    /// Passes in a datagram, or bytes read from a stream. No bytes at all report that the stream was closed. While the session leaves
    /// nothing is noted, and after its end all input is returned.
    ///
    /// Over a stream to the server the bytes are cut into frames, and each is received by itself, as a datagram is (RFC 8656, section
    /// 12.5). The answer is what the first frame gave, or the first data of a peer behind it, as owned bytes; a part of a frame is
    /// kept, and `Handled`, and is no sign of the path until the frame is whole: so it does not matter where the stream was cut. Bytes
    /// that begin no frame end the session: nothing can be read from such a stream any more. Call `poll_recv` then until it returns
    /// none: more frames may wait. Data connections are not cut.
    ///
    /// Data of a peer is a use of it, so that it is not idle.
    ///
    /// A response to a request of the path is none for the client. Another one is read before the client ends its request, so that an
    /// event reports an error with the outcome, and the session knows why it ends. One that has another method than the request with its
    /// ID answers nothing, and is returned before the client takes it: the request still awaits its response.
    ///
    /// # Errors
    ///
    /// If memory allocation fails: in the client, which has ended then, for the bytes of a stream to the server, or for data behind its
    /// first frame. The session has ended then. If it fails for what is noted, `poll` notes the rest. A datagram that begins as
    /// ChannelData does needs none (RFC 8656, section 12.4).
    #[inline(always)]
    pub fn recv<T: AsSlice<u8> + Debug + Drop>(
        &mut self,
        transmit: Transmit<T>,
        now: Instant,
    ) -> Result<TurnRecvRet<T>, AllocError>
        requires now_in_range { now ≤ 2 ^ 62 }
        ensures answer { IfOk result (λ answer. ReceivesBytes transmit.transport transmit.from transmit.to (T.items transmit.payload) now
            self.old self.new (outcome_of answer)) }
        ensures hands_back { IfOk result (HandsBack transmit) }
        ensures no_memory { OnErr result (ReceivingFails transmit.transport transmit.from transmit.to (T.items transmit.payload) now
            self.old self.new) }
        ensures free { is_channel_datagram transmit.transport (T.items transmit.payload) ≡ true → IsOk result }
    {
        if is_channel_datagram(&transmit) && !self.idle.is_on() {
            return self.recv_channel_datagram(transmit, now);
        }
        // The answer is large: if this call wrote it in place, each packet of a channel would be copied there.
        let answer = self.recv_used(transmit, now);
        answer
    }

    /// What `recv` does where a peer may be idle, whose use is noted.
    fn recv_used<T: AsSlice<u8> + Debug + Drop>(
        &mut self,
        transmit: Transmit<T>,
        now: Instant,
    ) -> Result<TurnRecvRet<T>, AllocError>
        requires now_in_range { now ≤ 2 ^ 62 }
        ensures answer { IfOk result (λ answer. ReceivesBytes transmit.transport transmit.from transmit.to (T.items transmit.payload) now
            self.old self.new (outcome_of answer)) }
        ensures hands_back { IfOk result (HandsBack transmit) }
        ensures no_memory { OnErr result (ReceivingFails transmit.transport transmit.from transmit.to (T.items transmit.payload) now
            self.old self.new) }
        ensures free { is_channel_datagram transmit.transport (T.items transmit.payload) ≡ true → IsOk result }
    {
        let answer = self.recv_bytes(transmit, now);
        self.note_use(&answer, now);
        answer
    }

    /// What `recv` does, but for the use of a peer that it notes.
    #[inline(always)]
    fn recv_bytes<T: AsSlice<u8> + Debug + Drop>(
        &mut self,
        transmit: Transmit<T>,
        now: Instant,
    ) -> Result<TurnRecvRet<T>, AllocError>
        requires now_in_range { now ≤ 2 ^ 62 }
        ensures answer { IfOk result (λ answer. BytesGive transmit.transport transmit.from transmit.to (T.items transmit.payload) now
            self.old self.new (outcome_of answer)) }
        ensures hands_back { IfOk result (HandsBack transmit) }
        ensures no_memory { OnErr result (ReceivingFails transmit.transport transmit.from transmit.to (T.items transmit.payload) now
            self.old self.new) }
        ensures free { is_channel_datagram transmit.transport (T.items transmit.payload) ≡ true → IsOk result }
    {
        if is_channel_datagram(&transmit) {
            return self.recv_channel_datagram(transmit, now);
        }
        self.recv_other(transmit, now)
    }

    /// What `recv_bytes` does with all but datagrams that begin as ChannelData does.
    fn recv_other<T: AsSlice<u8> + Debug + Drop>(
        &mut self,
        transmit: Transmit<T>,
        now: Instant,
    ) -> Result<TurnRecvRet<T>, AllocError>
        requires now_in_range { now ≤ 2 ^ 62 }
        ensures answer { IfOk result (λ answer. BytesGive transmit.transport transmit.from transmit.to (T.items transmit.payload) now
            self.old self.new (outcome_of answer)) }
        ensures hands_back { IfOk result (HandsBack transmit) }
        ensures no_memory { OnErr result (ReceivingFails transmit.transport transmit.from transmit.to (T.items transmit.payload) now
            self.old self.new) }
    {
        if self.is_piece(&transmit) {
            self.recv_piece(transmit, now)
        } else {
            self.recv_whole(transmit, now)
        }
    }

    /// The next data of a peer, which is a use of it: in the client's streams, or in a frame of the stream to the server. All other
    /// frames before it are received; ICMP reports among them are dropped. After the end of the session frames are dropped too.
    ///
    /// # Errors
    ///
    /// If memory allocation fails, as that of `recv`. The session has ended then.
    pub fn poll_recv(&mut self, now: Instant) -> Result<Option<TurnPeerData<Vec<u8>>>, AllocError>
        requires now_in_range { now ≤ 2 ^ 62 }
        ensures answer { IfOk result (λ given. PollsData now self.old self.new (option_map given_payload given)) }
        ensures little { IfOk result (λ given. IsNone given → WaitsForMore self.new) }
        ensures no_memory { OnErr result (DataFails now self.old self.new) }
    {
        match self.next_data(now)? {
            Some(data) => {
                self.use_peer(data.peer, now);
                Ok(Some(data.into_data()))
            }
            None => Ok(None),
        }
    }

    /// Whether these are bytes of the stream to the server, before the end.
    fn is_piece<T: AsSlice<u8> + Debug + Drop>(&self, transmit: &Transmit<T>) -> bool
        ensures { result ≡ is_piece transmit.now.transport transmit.now.from transmit.now.to (T.items transmit.now.payload) self.now }
    {
        matches!(transmit.transport, TransportType::Tcp)
            && !transmit.payload.as_slice().is_empty()
            && !self.noted.is_over()
            && self.is_of_server(transmit)
    }

    /// Receives the first frame of the stream, with this piece at its end.
    fn recv_piece<T: AsSlice<u8> + Debug + Drop>(
        &mut self,
        transmit: Transmit<T>,
        now: Instant,
    ) -> Result<TurnRecvRet<T>, AllocError>
        requires now_in_range { now ≤ 2 ^ 62 }
        ensures answer { IfOk result (λ answer. PieceGives (T.items transmit.payload) now self.old self.new (outcome_of answer)) }
        ensures hands_back { IfOk result (HandsBack transmit) }
        ensures no_memory { OnErr result (PieceFails (T.items transmit.payload) now self.old self.new) }
    {
        self.keep(transmit.payload.as_slice())?;
        let first = self.take_next(now)?;
        self.follow(first, transmit, now)
    }

    /// Appends a piece to what the stream has brought.
    ///
    /// # Errors
    ///
    /// If memory allocation fails. Nothing more is read from the stream, and the session has ended.
    fn keep(&mut self, piece: &[u8]) -> Result<(), AllocError>
        ensures ok { OnOk result (self.new ≡ fed piece.now self.old) }
        ensures err { OnErr result (self.new ≡ lost (with_frames broken_stream self.old)) }
    {
        match self.frames.feed(piece) {
            Ok(()) => Ok(()),
            Err(error) => {
                self.noted.end(Why::OutOfMemory);
                Err(error)
            }
        }
    }

    /// What `recv` answers after its first frame gave this.
    fn follow<T: AsSlice<u8> + Debug + Drop>(
        &mut self,
        first: Option<Given>,
        transmit: Transmit<T>,
        now: Instant,
    ) -> Result<TurnRecvRet<T>, AllocError>
        requires now_in_range { now ≤ 2 ^ 62 }
        ensures answer { IfOk result (λ answer. Follows now self.old self.new (option_map given_outcome first) (outcome_of answer)) }
        ensures hands_back { IfOk result (HandsBack transmit) }
        ensures no_memory { OnErr result (FollowingFails now self.old self.new (option_map given_outcome first)) }
    {
        match first {
            None => Ok(TurnRecvRet::Handled),
            Some(Given::Handled) => self.or_data(TurnRecvRet::Handled, now),
            Some(Given::Ignored) => self.or_data(TurnRecvRet::Ignored(transmit), now),
            Some(Given::PeerData(data)) => Ok(TurnRecvRet::PeerData(data.into_data())),
            Some(Given::PeerIcmp(report)) => Ok(report.into_answer()),
        }
    }

    /// The next data of a peer, or else this.
    fn or_data<T: AsSlice<u8> + Debug + Drop>(
        &mut self,
        first: TurnRecvRet<T>,
        now: Instant,
    ) -> Result<TurnRecvRet<T>, AllocError>
        requires now_in_range { now ≤ 2 ^ 62 }
        ensures answer { IfOk result (λ answer. OrData now self.old self.new (outcome_of first) (outcome_of answer)) }
        ensures hands_back { (transmit : Transmit T) → HandsBack transmit first → IfOk result (HandsBack transmit) }
        ensures no_memory { OnErr result (DataFails now self.old self.new) }
    {
        match self.next_data(now)? {
            Some(data) => Ok(TurnRecvRet::PeerData(data.into_data())),
            None => Ok(first),
        }
    }

    /// Receives frames until one gives data of a peer.
    fn next_data(&mut self, now: Instant) -> Result<Option<PeerBytes>, AllocError>
        requires now_in_range { now ≤ 2 ^ 62 }
        ensures answer { IfOk result (λ given. TakesData now self.old self.new (option_map given_data given)) }
        ensures little { IfOk result (λ given. IsNone given → WaitsForMore self.new) }
        ensures no_memory { OnErr result (DataFails now self.old self.new) }
    {
        while let Some(given) = self.take_next(now)? {
            if let Given::PeerData(data) = given {
                return Ok(Some(data));
            }
        }
        Ok(None)
    }
}
