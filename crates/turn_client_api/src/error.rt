//! Why a client refuses a call: one enum for each call.
//!
//! A refused call changes nothing that a caller can see, unless the call says otherwise.

use std::alloc::AllocError;
use thiserror::Error;
use turn_stun::instant::Instant;

/// Why a channel is not bound.
#[derive(Clone, Copy, Debug, PartialEq, Eq, Error)]
pub enum BindChannelError {
    /// The peer has an active or a pending channel, or all channel numbers are taken.
    #[error("The channel identifier already exists and cannot be recreated.")]
    AlreadyExists,
    /// The peer had a channel, and may have another only after this time (RFC 8656, section 12).
    #[error("The channel for requested peer address has expired and cannot be recreated until {0}.")]
    ExpiredChannelExists(Instant),
    /// No allocation relays over this transport to addresses of the peer's IP version, it has
    /// expired, or the client has ended.
    #[error("There is no connection to the TURN server that can handle this channel.")]
    NoAllocation,
    /// Memory allocation for the request failed.
    #[error("out of memory")]
    OutOfMemory,
}

/// Why a permission is not requested.
#[derive(Clone, Copy, Debug, PartialEq, Eq, Error)]
pub enum CreatePermissionError {
    /// The permission is active or pending.
    #[error("The permission already exists and cannot be recreated.")]
    AlreadyExists,
    /// No allocation relays over this transport to addresses of the peer's IP version, it has
    /// expired, or the client has ended.
    #[error("There is no connection to the TURN server that can handle this permission")]
    NoAllocation,
    /// Memory allocation for the request failed.
    #[error("out of memory")]
    OutOfMemory,
}

/// Why the allocations are not deleted.
#[derive(Clone, Copy, Debug, PartialEq, Eq, Error)]
pub enum DeleteError {
    /// The server has not granted an allocation yet, or the client has ended. A client whose
    /// allocations have all expired is not refused: it sends the request all the same.
    #[error("There is no connection to the TURN server")]
    NoAllocation,
    /// Memory allocation for the request failed.
    #[error("out of memory")]
    OutOfMemory,
}

/// Why it is not changed whether a permission or a channel is kept.
#[derive(Clone, Copy, Debug, PartialEq, Eq, Error)]
pub enum KeepError {
    /// There is no such permission, or no channel to this peer, that is pending or active, or the
    /// allocations do not relay over this transport.
    #[error("There is no such permission or channel")]
    NotGranted,
}

/// Why data is not sent to a peer.
#[derive(Clone, Copy, Debug, PartialEq, Eq, Error)]
pub enum SendError {
    /// There is no allocation. The clients of this project return `NoPermission` then (our choice).
    #[error("There is no connection to the TURN server")]
    NoAllocation,
    /// No allocation of this transport has a permission for the peer, or it is marked as expired.
    #[error("There is no permission installed for the requested peer")]
    NoPermission,
    /// The allocation relays over TCP, and no data connection to the peer is bound (RFC 6062, section
    /// 4.5).
    #[error("There is no local TCP socket for the requested peer")]
    NoTcpSocket,
    /// Memory allocation for the packet failed. The clients of this project never return this,
    /// since a packet is built only when it is sent.
    #[error("out of memory")]
    OutOfMemory,
}

/// Why no connection to a peer is requested.
#[derive(Clone, Copy, Debug, PartialEq, Eq, Error)]
pub enum TcpConnectError {
    /// A data connection to the peer exists, is pending, or is offered to the caller.
    #[error("The TCP connection already exists and cannot be recreated.")]
    AlreadyExists,
    /// No allocation relays over TCP to addresses of the peer's IP version, it has expired, or the
    /// client has ended.
    #[error("There is no connection to the TURN server that can handle this TCP socket.")]
    NoAllocation,
    /// The allocation has no permission for the peer.
    #[error("There is no permission installed for the requested peer")]
    NoPermission,
    /// Memory allocation for the request failed.
    #[error("out of memory")]
    OutOfMemory,
}

/// Why a data connection that the caller opened is not accepted.
#[derive(Clone, Copy, Debug, PartialEq, Eq, Error)]
pub enum TcpAllocateError {
    /// The local address is that of the control connection or of another data connection.
    #[error("The TCP connection already exists and cannot be recreated.")]
    AlreadyExists,
    /// The client has no such offer over this control connection, or has ended.
    #[error("There is no connection to the TURN server that can handle this TCP socket.")]
    NoAllocation,
    /// Memory allocation for the request failed.
    #[error("out of memory")]
    OutOfMemory,
}

impl From<AllocError> for BindChannelError {
    ghost use Rattle.std.specs.Prelude.{◌≡◌};
    ghost use Rattle.turn_client_api.specs.declared.error.BindChannelError.TheVariants.{OutOfMemory};

    ghost from_gives = { λ _ error. error ≡ OutOfMemory };

    fn from(_error: AllocError) -> BindChannelError {
        BindChannelError::OutOfMemory
    }
}

impl From<AllocError> for CreatePermissionError {
    ghost use Rattle.std.specs.Prelude.{◌≡◌};
    ghost use Rattle.turn_client_api.specs.declared.error.CreatePermissionError.TheVariants.{OutOfMemory};

    ghost from_gives = { λ _ error. error ≡ OutOfMemory };

    fn from(_error: AllocError) -> CreatePermissionError {
        CreatePermissionError::OutOfMemory
    }
}

impl From<AllocError> for DeleteError {
    ghost use Rattle.std.specs.Prelude.{◌≡◌};
    ghost use Rattle.turn_client_api.specs.declared.error.DeleteError.TheVariants.{OutOfMemory};

    ghost from_gives = { λ _ error. error ≡ OutOfMemory };

    fn from(_error: AllocError) -> DeleteError {
        DeleteError::OutOfMemory
    }
}

impl From<AllocError> for SendError {
    ghost use Rattle.std.specs.Prelude.{◌≡◌};
    ghost use Rattle.turn_client_api.specs.declared.error.SendError.TheVariants.{OutOfMemory};

    ghost from_gives = { λ _ error. error ≡ OutOfMemory };

    fn from(_error: AllocError) -> SendError {
        SendError::OutOfMemory
    }
}

impl From<AllocError> for TcpConnectError {
    ghost use Rattle.std.specs.Prelude.{◌≡◌};
    ghost use Rattle.turn_client_api.specs.declared.error.TcpConnectError.TheVariants.{OutOfMemory};

    ghost from_gives = { λ _ error. error ≡ OutOfMemory };

    fn from(_error: AllocError) -> TcpConnectError {
        TcpConnectError::OutOfMemory
    }
}

impl From<AllocError> for TcpAllocateError {
    ghost use Rattle.std.specs.Prelude.{◌≡◌};
    ghost use Rattle.turn_client_api.specs.declared.error.TcpAllocateError.TheVariants.{OutOfMemory};

    ghost from_gives = { λ _ error. error ≡ OutOfMemory };

    fn from(_error: AllocError) -> TcpAllocateError {
        TcpAllocateError::OutOfMemory
    }
}
