//! The run of calls on the client of a head, as text.

ghost use Rattle.std.specs.Prelude.{◌≡◌, All, IfOk, string_bytes};
ghost use Rattle.turn_client_calls.specs.Run.{IsCallable};
ghost use Rattle.turn_line_client.specs.Answered.{answered_text};

use crate::client::timed_configuration;
use std::alloc::{AllocError, Global};
use turn_client_calls::Call;
use turn_client_proto::replay;
use turn_lines::head::Head;
use turn_lines::print::answers_text;
use turn_types::TransportType;

/// The lines that answer these calls on a new client, as [`replay`] answers them.
///
/// # Errors
///
/// If memory allocation for the client, for a call or for the text fails.
pub fn replayed_text(alloc: Global, head: Head, calls: &[Call]) -> Result<String, AllocError>
    requires allocation { head.ends.transport ≡ TransportType.Udp → head.request.allocation ≡ TransportType.Udp }
    requires callable { All (IsCallable head.request.allocation) calls.now }
    ensures { IfOk result (λ text. string_bytes text ≡ answered_text head calls.now) }
{
    let Head {
        ends,
        request,
        credentials,
        seed,
        waits,
        timed_from_send,
    } = head;
    let config = timed_configuration(alloc, request, credentials, waits, timed_from_send);
    let replayed = replay(
        alloc,
        ends.transport,
        ends.local,
        ends.remote,
        config,
        seed,
        calls,
    )?;
    let text = answers_text(alloc, replayed.replies.as_slice());
    // a scope at whose end a client is dropped can take minutes to prove
    drop(replayed);
    text
}
