//! The result of `poll` as text.

ghost use Rattle.std.specs.Prelude.{◌≡◌, IfOk, string_bytes};
ghost use Rattle.std.specs.declared.net.socket_addr.SocketAddr.{SocketAddr};
ghost use Rattle.turn_client_api.specs.declared.poll.Socket5Tuple.{Socket5Tuple};
ghost use Rattle.turn_lines.specs.Text.{fields_text, poll_fields, socket_fields};

use crate::print::field::{address_text, transport_text};
use std::alloc::{AllocError, Global};
use std::net::SocketAddr;
use turn_client_api::{Socket5Tuple, TurnPollRet};

/// The wake-up time, the data connection to open or to close, or that the client has ended.
pub fn poll_text(alloc: Global, polled: &TurnPollRet) -> Result<String, AllocError>
    ensures { IfOk result (λ text. string_bytes text ≡ fields_text (poll_fields polled.now)) }
{
    match polled {
        TurnPollRet::WaitUntil(time) => {
            let nanos = time.as_nanos();
            format!(in alloc; "wait {nanos}")
        }
        TurnPollRet::AllocateTcpSocket {
            id,
            socket,
            peer_addr,
        } => socket_text(alloc, *id, socket, *peer_addr),
        TurnPollRet::TcpClose {
            local_addr,
            remote_addr,
        } => {
            let local = address_text(alloc, *local_addr)?;
            let remote = address_text(alloc, *remote_addr)?;
            format!(in alloc; "close {local} {remote}")
        }
        TurnPollRet::Closed => String::from_str(alloc, "closed"),
    }
}

/// A data connection that the caller is to open.
fn socket_text(
    alloc: Global,
    id: u32,
    socket: &Socket5Tuple,
    peer: SocketAddr,
) -> Result<String, AllocError>
    ensures { IfOk result (λ text. string_bytes text ≡ fields_text (socket_fields id socket.now peer)) }
{
    let transport = transport_text(socket.transport);
    let from = address_text(alloc, socket.from)?;
    let to = address_text(alloc, socket.to)?;
    let peer = address_text(alloc, peer)?;
    format!(in alloc; "socket {id} {transport} {from} {to} {peer}")
}
