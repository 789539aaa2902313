//! A client that reaches its server over TCP.

ghost use Rattle.std.specs.Prelude.{◌≡◌, All, IfOk, IsNone, IsOk, OnErr, OnOk};
ghost use Rattle.turn_client_api.specs.Answers.{EndsAfterSteps};
ghost use Rattle.turn_client_api.specs.State.{initial};
ghost use Rattle.turn_client_api.specs.Streams.{HoldsLittle, poll_recv_step};
ghost use Rattle.turn_client_tcp.specs.Lent.{IsLentInPlace, IsReadIfAny};

use crate::over::TurnClientOver;
use std::alloc::{AllocError, Global};
use std::net::SocketAddr;
use turn_client_api::TurnConfig;
pub use turn_client_api::{
    BindChannelError, CreatePermissionError, DeleteError, KeepError, SendError, TcpAllocateError,
    TcpConnectError, TurnEvent, TurnPollRet, TurnRecvRet,
};
use turn_client_tcp::TurnClientTcpProtocol;
use turn_stun::instant::Instant;
use turn_stun::transport::TransportType;

/// A client that reaches its server over TCP, for allocations over UDP or over TCP. Contracts describe it
/// by its `State`.
pub type TurnClientTcp = TurnClientOver<TurnClientTcpProtocol>;

impl TurnClientTcp {
    /// A client whose control connection goes from `local` to the server at `remote`, and which draws its
    /// transaction IDs from this seed. It has requested nothing yet: `poll_transmit` returns the first
    /// request.
    ///
    /// RFC 8489, section 5, requires IDs that cannot be guessed. They are as good as the seed is secret.
    /// The allocation relays over UDP, or over TCP (RFC 6062, section 4.1), as the configuration says.
    ///
    /// # Errors
    ///
    /// If memory allocation fails.
    pub fn allocate(
        alloc: Global,
        local: SocketAddr,
        remote: SocketAddr,
        config: TurnConfig,
        seed: [u8; 32],
    ) -> Result<TurnClientTcp, AllocError>
        ensures { IfOk result (λ client. client ≡ initial TransportType.Tcp local remote config seed) }
    {
        let carrier = TurnClientTcpProtocol::new(alloc, local, remote, config, seed)?;
        Ok(TurnClientOver { carrier })
    }

    /// Lends the next payload of a peer that the streams hold to `read`, with its transport and its peer, and
    /// returns what `read` returns. If the streams hold none, `read` is not called. It is the payload that
    /// [`TurnClientApi::poll_recv`](crate::api::TurnClientApi::poll_recv) would return, and the call leaves what that
    /// call would leave.
    ///
    /// The payload of a ChannelData message at the front of the control stream is lent from where it is buffered
    /// (RFC 8656, section 12.6). So are all buffered bytes of a data connection (RFC 6062, section 4.3), and no
    /// memory is allocated for either. The payload of a DATA indication, or of a ChannelData message behind
    /// another frame, is copied first.
    ///
    /// # Errors
    ///
    /// As of that call, and none if the control connection is not broken and the first frame of its stream is a
    /// ChannelData message of an active channel.
    pub fn poll_recv_with<R, F: FnOnce(TransportType, SocketAddr, &[u8]) -> R + Drop>(
        &mut self,
        now: Instant,
        read: F,
    ) -> Result<Option<R>, AllocError>
        requires callable { F.IsAlwaysCallable read }
        ensures answer { IfOk result (IsReadIfAny (F.post read) (poll_recv_step now self.old).0) }
        ensures little { IfOk result (λ given. IsNone given → All HoldsLittle self.new.streams) }
        ensures after { OnOk result (self.new ≡ (poll_recv_step now self.old).1) }
        ensures no_memory { OnErr result (EndsAfterSteps now self.old self.new) }
        ensures free { IsLentInPlace self.old → IsOk result }
    {
        self.carrier.poll_recv_with(now, read)
    }
}
