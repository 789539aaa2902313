//! The interface of every client, with its parameters and results.
//!
//! A client reads no clock and opens no socket. Its caller passes in the bytes that it receives and
//! the current time, sends the packets that `poll_transmit` returns, processes the events that
//! `poll_event` returns, and calls `poll` again at the time that it returned.

pub use turn_client_api::{
    BindChannelError, CreatePermissionError, Data, DataRange, DataRangeOrOwned,
    DelayedMessageOrChannelSend, DelayedTransmit, DeleteError, KeepError, PermissionAddressesIter,
    RelayedAddressesIter, RequestTimers, RequestView, SendError, Socket5Tuple, TcpAllocateError,
    TcpConnectError, Transmit, TransmitBuild, TurnClientApi, TurnConfig, TurnEvent, TurnPeerData,
    TurnPollRet, TurnRecvRet,
};
