//! The first line of a trace: the client and its server.

ghost use Rattle.std.specs.Prelude.{◌≡◌, Some, None, MatchOption};
ghost use Rattle.turn_lines.specs.Field.{Gives};
ghost use Rattle.turn_lines.specs.Head.{head_of, ends_of, request_of, credentials_of};

use crate::address::parse_address;
use crate::field::{FieldError, parse_bytes, parse_seed, parse_transport};
use crate::head::waits::take_timing;
use crate::head::words::{parse_algorithms, parse_families, parse_feature};
use crate::parts::Parts;
use std::alloc::Global;
use turn_auth::credentials::{CredentialsError, TurnCredentials};
use turn_client_calls::settings::relayed_for;

mod waits;
mod words;

pub use turn_client_calls::settings::{Ends, Request, Waits};

/// The client and its server, as the first line describes them.
#[derive(Debug, Drop)]
pub struct Head {
    /// The addresses of the client and its server.
    pub ends: Ends,
    /// The allocation that the client requests, and how.
    pub request: Request,
    /// The credentials of the client.
    pub credentials: TurnCredentials,
    /// The seed of its transaction IDs.
    pub seed: [u8; 32],
    /// The retransmission times, or `None` for the default ones.
    pub waits: Option<Waits>,
    /// Whether a queued request waits for its response from when its first copy is sent.
    pub timed_from_send: bool,
}

/// The client and its server.
///
/// # Errors
///
/// `Malformed` if the line is not a head, `OutOfMemory` if memory allocation for the credentials failed.
#[tactic(auto, unfolding(crate::specs::Head::head_of))]
pub fn parse_head(alloc: Global, line: &[u8]) -> Result<Head, FieldError>
    ensures { Gives (λ head. head) result (head_of line.now) }
{
    let mut fields = Parts::new(line, b' ');
    let ends = take_ends(&mut fields).ok_or(FieldError::Malformed)?;
    let request = take_request(&mut fields).ok_or(FieldError::Malformed)?;
    relayed_for(ends.transport, request.allocation).ok_or(FieldError::Malformed)?;
    let credentials = take_credentials(alloc, &mut fields)?;
    let seed = parse_seed(fields.next().ok_or(FieldError::Malformed)?).ok_or(
        FieldError::Malformed,
    )?;
    let (waits, timed_from_send) = take_timing(&mut fields).ok_or(FieldError::Malformed)?;
    Ok(Head {
        ends,
        request,
        credentials,
        seed,
        waits,
        timed_from_send,
    })
}

#[tactic(auto, unfolding(crate::specs::Head::ends_of))]
fn take_ends(fields: &mut Parts<'_>) -> Option<Ends>
    ensures { MatchOption result (ends_of fields.old ≡ None) (λ ends. ends_of fields.old ≡ Some (ends, fields.new)) }
{
    let transport = parse_transport(fields.next()?)?;
    let local = parse_address(fields.next()?)?;
    let remote = parse_address(fields.next()?)?;
    Some(Ends {
        transport,
        local,
        remote,
    })
}

#[tactic(auto, unfolding(crate::specs::Head::request_of))]
fn take_request(fields: &mut Parts<'_>) -> Option<Request>
    ensures { MatchOption result (request_of fields.old ≡ None) (λ request. request_of fields.old ≡ Some (request, fields.new)) }
{
    let allocation = parse_transport(fields.next()?)?;
    let families = parse_families(fields.next()?)?;
    let algorithms = parse_algorithms(fields.next()?)?;
    let anonymous = parse_feature(fields.next()?)?;
    Some(Request {
        allocation,
        families,
        algorithms,
        anonymous,
    })
}

#[tactic(auto, unfolding(crate::specs::Head::credentials_of))]
fn take_credentials(alloc: Global, fields: &mut Parts<'_>) -> Result<TurnCredentials, FieldError>
    ensures { Gives (λ credentials. (credentials, fields.new)) result (credentials_of fields.old) }
{
    let user = parse_bytes(alloc, fields.next().ok_or(FieldError::Malformed)?)?;
    let password = parse_bytes(alloc, fields.next().ok_or(FieldError::Malformed)?)?;
    match TurnCredentials::new(alloc, user.as_slice(), password.as_slice()) {
        Ok(credentials) => Ok(credentials),
        Err(CredentialsError::OutOfMemory) => Err(FieldError::OutOfMemory),
        Err(_) => Err(FieldError::Malformed),
    }
}
