//! The client over TCP as what brings its control machine the messages: its streams do.

ghost use Rattle.std.specs.Prelude.{◌≡◌, All, IfOk, IsNone, OnErr, OnOk, option_map};
ghost use Rattle.turn_stun.specs.declared.transport.TransportType.TheVariants.{Tcp};
ghost use Rattle.turn_client_api.specs.Answers.{EndsAfterSteps, given_payload};
ghost use Rattle.turn_client_api.specs.Streams.{HoldsLittle, poll_recv_step};
ghost use Rattle.turn_client_tcp.specs.Over.{IsClientOver};
ghost use Rattle.turn_client_tcp.specs.Wanted.{EndsInNeed};

use crate::carrier::{Carrier, is_from_server};
use crate::protocol::TurnClientTcpProtocol;
use std::alloc::AllocError;
use std::convert::AsSlice;
use std::fmt::Debug;
use std::net::SocketAddr;
use turn_client_api::{Socket5Tuple, TcpAllocateError, TurnPeerData, TurnRecvRet};
use turn_client_core::TurnClientProtocol;
use turn_stun::instant::Instant;
use turn_stun::transport::Transmit;

impl Carrier for TurnClientTcpProtocol {
    ghost use Rattle.std.specs.Prelude.{refl};
    ghost use Rattle.turn_client_core.specs.Apart.{with_streams_of};
    ghost use Rattle.turn_stun.specs.declared.transport.TransportType.TheVariants.{Tcp};

    ghost transport = { Tcp };

    ghost state = { λ c. c };

    ghost with_control = { λ c s. with_streams_of c s };

    ghost controlled = { λ c s. refl };

    #[inline(always)]
    fn control(&self) -> &TurnClientProtocol {
        &self.control
    }

    #[inline(always)]
    fn control_mut(&mut self) -> &mut TurnClientProtocol {
        &mut self.control
    }

    fn take_socket(
        &mut self,
        id: u32,
        five_tuple: Socket5Tuple,
        peer_addr: SocketAddr,
        local_addr: Option<SocketAddr>,
        now: Instant,
    ) -> Result<(), TcpAllocateError> {
        let Some(local) = self
            .control
            .opens_at(id, &five_tuple, peer_addr, local_addr)
        else {
            return self
                .control
                .allocated_tcp_socket(id, five_tuple, peer_addr, local_addr, now);
        };
        // Room for its stream first, so that a refusal leaves all as it was.
        let Ok(()) = self.streams.reserve() else {
            return Err(TcpAllocateError::OutOfMemory);
        };
        match self
            .control
            .allocated_tcp_socket(id, five_tuple, peer_addr, local_addr, now)
        {
            Ok(()) => {
                self.streams.open(local);
                Ok(())
            }
            Err(refusal) => Err(refusal),
        }
    }

    /// Processes a piece of the stream at its local address, received over TCP from the server. An empty
    /// piece reports the end of the stream. If there is no such stream, the piece is not for the client.
    ///
    /// Data of a peer is returned as a range of the bytes passed in, or as owned bytes: it may be joined from
    /// several pieces, or lie behind another frame. A piece is returned unchanged if there is no such stream,
    /// or if its first frame is not for the client and no data is found behind it; the client keeps what
    /// follows that frame. More payloads may be buffered: call `next_payload` until it returns none.
    ///
    /// # Errors
    ///
    /// If memory allocation fails. The client has ended then, and the stream that was being read delivers
    /// nothing more; whole frames that were processed before keep their effect. Bytes of a bound connection
    /// whose stream is empty allocate no memory, nor does an empty piece.
    fn receive<T: AsSlice<u8> + Debug + Drop>(
        &mut self,
        transmit: Transmit<T>,
        now: Instant,
    ) -> Result<TurnRecvRet<T>, AllocError> {
        if !is_from_server(&self.control, transmit.transport, transmit.from) {
            return Ok(TurnRecvRet::Ignored(transmit));
        }
        if transmit.payload.as_slice().is_empty() {
            return Ok(self.stream_end(transmit));
        }
        let Some(stream) = self.streams.take_at(transmit.to) else {
            return Ok(TurnRecvRet::Ignored(transmit));
        };
        self.process_piece(stream, transmit, now)
    }

    /// The next payload of a peer that the streams hold, in the order in which they were opened, or none.
    /// All other frames before it are processed; ICMP reports among them are dropped.
    ///
    /// # Errors
    ///
    /// If memory allocation for the bytes of a stream fails. The client has ended then, and the stream that
    /// was read delivers nothing more; whole frames that were processed before keep their effect. Memory is
    /// allocated only for a message that is answered or that changes the client, and for a copy of data in a
    /// frame.
    fn next_payload(&mut self, now: Instant) -> Result<Option<TurnPeerData<Vec<u8>>>, AllocError>
        requires fit { IsClientOver Tcp self.old }
        ensures answer { IfOk result (λ given. option_map given_payload given ≡ (poll_recv_step now self.old).0) }
        ensures little { IfOk result (λ given. IsNone given → All HoldsLittle self.new.streams) }
        ensures after { OnOk result (self.new ≡ (poll_recv_step now self.old).1) }
        ensures no_memory { OnErr result (EndsAfterSteps now self.old self.new) }
        ensures wanted { OnErr result (EndsInNeed now self.old self.new) }
    {
        // Most frames of a busy client are ChannelData messages. For them no stream is taken out.
        if let Some(given) = self.take_control_data()? {
            return Ok(Some(given.into_data()));
        }
        match self.process_ready(now)? {
            Some(given) => Ok(Some(given.into_data())),
            None => Ok(None),
        }
    }
}
