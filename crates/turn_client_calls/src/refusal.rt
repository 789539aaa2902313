//! The error of a call, for all calls.

use turn_client_api::{
    BindChannelError, CreatePermissionError, DeleteError, KeepError, SendError, TcpAllocateError,
    TcpConnectError,
};
use turn_stun::instant::Instant;

/// The error of a call.
#[derive(Clone, Copy, Debug, PartialEq, Eq)]
pub enum Refusal {
    /// What the call requests is active, offered, or requested already; no channel number is
    /// free; or the local address is in use.
    AlreadyExists,
    /// There is no allocation for it.
    NoAllocation,
    /// The peer has no permission.
    NoPermission,
    /// No data connection to the peer is bound.
    NoSocket,
    /// The peer had a channel, and no other may be bound to it until this time has passed.
    Expired(Instant),
    /// There is no such permission, or no channel to the peer.
    NotGranted,
    /// Memory allocation failed. A run ends then, so that no answer of a run holds this.
    OutOfMemory,
}

impl From<SendError> for Refusal {
    ghost use Rattle.std.specs.Prelude.{◌≡◌};
    ghost use Rattle.turn_client_calls.specs.Refusal.{send_refusal};

    ghost from_gives = { λ error refusal. refusal ≡ send_refusal error };

    fn from(error: SendError) -> Refusal {
        match error {
            SendError::NoAllocation => Refusal::NoAllocation,
            SendError::NoPermission => Refusal::NoPermission,
            SendError::NoTcpSocket => Refusal::NoSocket,
            SendError::OutOfMemory => Refusal::OutOfMemory,
        }
    }
}

impl From<CreatePermissionError> for Refusal {
    ghost use Rattle.std.specs.Prelude.{◌≡◌};
    ghost use Rattle.turn_client_calls.specs.Refusal.{create_permission_refusal};

    ghost from_gives = { λ error refusal. refusal ≡ create_permission_refusal error };

    fn from(error: CreatePermissionError) -> Refusal {
        match error {
            CreatePermissionError::AlreadyExists => Refusal::AlreadyExists,
            CreatePermissionError::NoAllocation => Refusal::NoAllocation,
            CreatePermissionError::OutOfMemory => Refusal::OutOfMemory,
        }
    }
}

impl From<BindChannelError> for Refusal {
    ghost use Rattle.std.specs.Prelude.{◌≡◌};
    ghost use Rattle.turn_client_calls.specs.Refusal.{bind_channel_refusal};

    ghost from_gives = { λ error refusal. refusal ≡ bind_channel_refusal error };

    fn from(error: BindChannelError) -> Refusal {
        match error {
            BindChannelError::AlreadyExists => Refusal::AlreadyExists,
            BindChannelError::ExpiredChannelExists(until) => Refusal::Expired(until),
            BindChannelError::NoAllocation => Refusal::NoAllocation,
            BindChannelError::OutOfMemory => Refusal::OutOfMemory,
        }
    }
}

impl From<TcpConnectError> for Refusal {
    ghost use Rattle.std.specs.Prelude.{◌≡◌};
    ghost use Rattle.turn_client_calls.specs.Refusal.{tcp_connect_refusal};

    ghost from_gives = { λ error refusal. refusal ≡ tcp_connect_refusal error };

    fn from(error: TcpConnectError) -> Refusal {
        match error {
            TcpConnectError::AlreadyExists => Refusal::AlreadyExists,
            TcpConnectError::NoAllocation => Refusal::NoAllocation,
            TcpConnectError::NoPermission => Refusal::NoPermission,
            TcpConnectError::OutOfMemory => Refusal::OutOfMemory,
        }
    }
}

impl From<TcpAllocateError> for Refusal {
    ghost use Rattle.std.specs.Prelude.{◌≡◌};
    ghost use Rattle.turn_client_calls.specs.Refusal.{tcp_allocate_refusal};

    ghost from_gives = { λ error refusal. refusal ≡ tcp_allocate_refusal error };

    fn from(error: TcpAllocateError) -> Refusal {
        match error {
            TcpAllocateError::AlreadyExists => Refusal::AlreadyExists,
            TcpAllocateError::NoAllocation => Refusal::NoAllocation,
            TcpAllocateError::OutOfMemory => Refusal::OutOfMemory,
        }
    }
}

impl From<DeleteError> for Refusal {
    ghost use Rattle.std.specs.Prelude.{◌≡◌};
    ghost use Rattle.turn_client_calls.specs.Refusal.{delete_refusal};

    ghost from_gives = { λ error refusal. refusal ≡ delete_refusal error };

    fn from(error: DeleteError) -> Refusal {
        match error {
            DeleteError::NoAllocation => Refusal::NoAllocation,
            DeleteError::OutOfMemory => Refusal::OutOfMemory,
        }
    }
}

impl From<KeepError> for Refusal {
    ghost use Rattle.std.specs.Prelude.{◌≡◌};
    ghost use Rattle.turn_client_calls.specs.Refusal.{keep_refusal};

    ghost from_gives = { λ error refusal. refusal ≡ keep_refusal error };

    fn from(error: KeepError) -> Refusal {
        match error {
            KeepError::NotGranted => Refusal::NotGranted,
        }
    }
}
