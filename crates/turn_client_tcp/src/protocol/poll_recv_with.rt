//! The next payload of a client's streams, lent to the caller where it is buffered (RFC 8656, section 12.6).

ghost use Rattle.std.specs.Prelude.{◌≡◌, All, [], IfOk, IsNone, IsOk, OnErr, OnOk};
ghost use Rattle.turn_client_api.specs.Answers.{EndsAfterSteps};
ghost use Rattle.turn_client_api.specs.Streams.{HoldsLittle, poll_recv_step};
ghost use Rattle.turn_client_tcp.specs.Lent.{IsBoundFirst, IsLentInPlace, IsReadIfAny};
ghost use Rattle.turn_client_tcp.specs.Wanted.{EndsInNeed};
ghost use Rattle.turn_client_laws.specs.LawsOrder.{IsUngranted};

use crate::protocol::TurnClientTcpProtocol;
use crate::protocol::control_data::ChannelFrame;
use std::alloc::AllocError;
use std::net::SocketAddr;
use turn_stun::instant::Instant;
use turn_stun::transport::TransportType;

impl TurnClientTcpProtocol {
    /// Lends the next payload of a peer that the streams hold to `read`, with its transport and its
    /// peer, and returns what `read` returns. It is the payload that `poll_recv` would return, and what
    /// remains is the same. If there is none, `read` is not called.
    ///
    /// # Errors
    ///
    /// As of `poll_recv`, but never for a ChannelData message of an active channel at the front of the control
    /// stream: its payload is lent from where it is buffered. Nor for bytes of a bound stream, if that is the
    /// first one ready.
    pub fn poll_recv_with<R, F: FnOnce(TransportType, SocketAddr, &[u8]) -> R + Drop>(
        &mut self,
        now: Instant,
        read: F,
    ) -> Result<Option<R>, AllocError>
        requires before { IsUngranted self.old.phase → self.old.grants ≡ [] }
        requires callable { F.IsAlwaysCallable read }
        ensures answer { IfOk result (IsReadIfAny (F.post read) (poll_recv_step now self.old).0) }
        ensures little { IfOk result (λ given. IsNone given → All HoldsLittle self.new.streams) }
        ensures after { OnOk result (self.new ≡ (poll_recv_step now self.old).1) }
        ensures no_memory { OnErr result (EndsAfterSteps now self.old self.new) }
        ensures wanted { OnErr result (EndsInNeed now self.old self.new) }
        ensures free { IsLentInPlace self.old → IsOk result }
    {
        let Some(frame) = self.channel_frame() else {
            return self.read_ready(now, read);
        };
        let ChannelFrame { peer, payload, len } = frame;
        let given = read(self.control.allocation_transport(), *peer, payload);
        self.streams.pass_control(len);
        Ok(Some(given))
    }

    /// Processes the streams that are ready, until one gives a payload, and lends that to `read`.
    ///
    /// # Errors
    ///
    /// If memory allocation for the bytes of a stream fails. That stream is broken then, and the client
    /// has ended.
    fn read_ready<R, F: FnOnce(TransportType, SocketAddr, &[u8]) -> R + Drop>(
        &mut self,
        now: Instant,
        read: F,
    ) -> Result<Option<R>, AllocError>
        requires before { IsUngranted self.old.phase → self.old.grants ≡ [] }
        requires callable { F.IsAlwaysCallable read }
        ensures answer { IfOk result (IsReadIfAny (F.post read) (poll_recv_step now self.old).0) }
        ensures little { IfOk result (λ given. IsNone given → All HoldsLittle self.new.streams) }
        ensures after { OnOk result (self.new ≡ (poll_recv_step now self.old).1) }
        ensures no_memory { OnErr result (EndsAfterSteps now self.old self.new) }
        ensures wanted { OnErr result (EndsInNeed now self.old self.new) }
        ensures free { IsBoundFirst self.old → IsOk result }
    {
        match self.process_ready(now)? {
            Some(given) => Ok(Some(read(given.transport, given.peer, given.bytes.as_slice()))),
            None => Ok(None),
        }
    }
}
