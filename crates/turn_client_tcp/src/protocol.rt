//! A client over TCP: the control machine, and the streams beside it.
//!
//! A piece of a stream arrives in `carrier`, and `piece` takes its first frame; `poll_recv` takes those that are
//! buffered. What a frame does stands in `frame`, and the data of a channel that is read where it is buffered
//! in `control_data`. `carrier` also opens a stream, and lends the control machine for what concerns none.

mod carrier;
mod control_data;
mod frame;
mod piece;
mod poll_recv;
mod poll_recv_with;
mod stream_end;

ghost use Rattle.std.specs.Prelude.{◌≡◌, IfOk};
ghost use Rattle.turn_client_api.specs.State.{initial};

use std::alloc::{AllocError, Global};
use std::marker::Model;
use std::net::SocketAddr;
use turn_client_api::TurnConfig;
use turn_client_core::TurnClientProtocol;
use turn_client_streams::Streams;
use turn_stun::transport::TransportType;

/// A client over TCP: the control machine, which has no streams, and the streams of its connections.
/// Contracts describe both by one `State`.
#[derive(Debug, Drop)]
pub struct TurnClientTcpProtocol {
    alloc: Global,
    control: Box<TurnClientProtocol>,
    streams: Streams,
}

impl Model for TurnClientTcpProtocol {
    ghost use Rattle.turn_client_api.specs.State.{State};

    ghost Value = { State };

    ghost view = { λ c. record c.control.value { streams = c.streams.list } };
}

impl TurnClientTcpProtocol {
    /// A client that sends from `local` to the server at `remote`, over TCP, and draws its transaction IDs from
    /// this seed. It has requested nothing yet.
    ///
    /// # Errors
    ///
    /// `AllocError` if memory allocation fails.
    pub fn new(
        alloc: Global,
        local: SocketAddr,
        remote: SocketAddr,
        config: TurnConfig,
        seed: [u8; 32],
    ) -> Result<TurnClientTcpProtocol, AllocError>
        ensures { IfOk result (λ client. client ≡ initial TransportType.Tcp local remote config seed) }
    {
        let streams = Streams::new(alloc, TransportType::Tcp, local)?;
        let control = TurnClientProtocol::boxed(
            alloc,
            TransportType::Tcp,
            local,
            remote,
            config,
            seed,
        )?;
        Ok(TurnClientTcpProtocol {
            alloc,
            control,
            streams,
        })
    }
}
