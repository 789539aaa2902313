//! The client of a head.

ghost use Rattle.std.specs.Prelude.{◌≡◌, IfOk};
ghost use Rattle.turn_client_proto.specs.Client.{state_of};
ghost use Rattle.turn_line_client.specs.Client.{client_of, timed_config};

use std::alloc::{AllocError, Global};
use turn_auth::credentials::TurnCredentials;
use turn_client_api::TurnConfig;
use turn_client_calls::settings::{Request, Waits, configuration};
use turn_client_proto::client::TurnClient;
use turn_lines::head::Head;
use turn_types::TransportType;

/// A new client, as the head describes it.
///
/// # Errors
///
/// If memory allocation for the client fails.
pub fn new_client(alloc: Global, head: Head) -> Result<TurnClient, AllocError>
    requires allocation { head.ends.transport ≡ TransportType.Udp → head.request.allocation ≡ TransportType.Udp }
    ensures { IfOk result (λ client. state_of client ≡ client_of head) }
{
    let Head {
        ends,
        request,
        credentials,
        seed,
        waits,
        timed_from_send,
    } = head;
    let config = timed_configuration(alloc, request, credentials, waits, timed_from_send);
    TurnClient::allocate(alloc, ends.transport, ends.local, ends.remote, config, seed)
}

/// The configuration of a client that makes this request with these credentials, and how its requests are timed.
pub(crate) fn timed_configuration(
    alloc: Global,
    request: Request,
    credentials: TurnCredentials,
    waits: Option<Waits>,
    timed_from_send: bool,
) -> TurnConfig
    ensures { result ≡ timed_config request credentials waits timed_from_send }
{
    let mut config = configuration(alloc, request, credentials, waits);
    config.set_requests_timed_from_send(timed_from_send);
    config
}
