//! A line that is a call of a session.

ghost use Rattle.std.specs.Prelude.{◌≡◌, MatchOption, None, Some};
ghost use Rattle.std.specs.Option.{option_map};
ghost use Rattle.turn_lines.specs.Call.{instant_of};
ghost use Rattle.turn_lines.specs.Fault.{Reads};
ghost use Rattle.turn_lines.specs.Parts.{ends, next};
ghost use Rattle.turn_session_lines.specs.Call.{key_call, name_of, own_call_with, plain_call, report_with, session_call_of, shared};

use crate::arguments::{take_closed, take_key, take_optional_tag, take_tag};
use crate::call::{Report, SessionCall};
use crate::parse::name::{KeyName, Name, OwnName, PlainName, ReportName, parse_name};
use std::alloc::Global;
use turn_client_calls::Call;
use turn_lines::call::parse_call;
use turn_lines::fault::{BadKind, ReadError};
use turn_lines::number::parse_decimal;
use turn_lines::parts::Parts;
use turn_session_book::keys::Key;
use turn_stun::instant::Instant;
use turn_stun::transport::TransportType;

mod name;

/// The largest time of a line, in nanoseconds: 2^62.
const GREATEST_TIME: u64 = 0x4000_0000_0000_0000;

/// The call of a line: its time, its name and its arguments. Data for a peer may be of any length: the session says whether it is too
/// long.
///
/// # Errors
///
/// The first of these: `Time` if the first field is not a time, `Call` if the second is not the name of a call of a session,
/// `Argument` if the other fields are not its arguments. `OutOfMemory` if memory allocation for the bytes of a `recv` or `send` failed.
#[tactic(auto, unfolding(crate::specs::Call::session_call_of))]
pub fn parse_session_call(alloc: Global, line: &[u8]) -> Result<SessionCall, ReadError<BadKind>>
    ensures { Reads (λ call. call) result (session_call_of line.now) }
{
    let mut fields = Parts::new(line, b' ');
    let now = take_time(&mut fields).ok_or(ReadError::Bad(BadKind::Time))?;
    let name = take_name(&mut fields).ok_or(ReadError::Bad(BadKind::Call))?;
    match name {
        Name::OfClient => shared(parse_call(alloc, TransportType::Tcp, line)?),
        Name::Own(own) => match own_call(own, now, &mut fields) {
            Some(call) => Ok(call),
            None => Err(ReadError::Bad(BadKind::Argument)),
        },
    }
}

fn take_time(fields: &mut Parts<'_>) -> Option<Instant>
    ensures { MatchOption result (next instant_of fields.old ≡ None) (λ now. next instant_of fields.old ≡ Some (now, fields.new)) }
{
    let nanos = parse_decimal(fields.next()?, GREATEST_TIME)?;
    Some(Instant::from_nanos(nanos))
}

fn take_name(fields: &mut Parts<'_>) -> Option<Name>
    ensures { MatchOption result (next name_of fields.old ≡ None) (λ name. next name_of fields.old ≡ Some (name, fields.new)) }
{
    parse_name(fields.next()?)
}

/// A call that a session has in common with its client.
fn shared(call: Call) -> Result<SessionCall, ReadError<BadKind>>
    ensures { Reads (λ call. call) result (shared call) }
{
    match call {
        Call::Poll { now } => Ok(SessionCall::Poll { now }),
        Call::PollTransmit { now } => Ok(SessionCall::PollTransmit { now }),
        Call::PollEvent => Ok(SessionCall::PollEvent),
        Call::Recv { transmit, now } => Ok(SessionCall::Recv { transmit, now }),
        Call::PollRecv { now } => Ok(SessionCall::PollRecv { now }),
        Call::SendTo {
            transport,
            to,
            data,
            now,
        } => Ok(SessionCall::Send {
            transport,
            to,
            data,
            now,
        }),
        Call::HavePermission { transport, to } => Ok(SessionCall::HavePermission { transport, to }),
        Call::AllocatedTcpSocket {
            id,
            five_tuple,
            peer_addr,
            local_addr,
            now,
        } => Ok(match local_addr {
            Some(local) => SessionCall::DataOpened {
                id,
                socket: five_tuple,
                peer: peer_addr,
                local,
                now,
            },
            None => SessionCall::DataFailed {
                id,
                socket: five_tuple,
                peer: peer_addr,
                now,
            },
        }),
        _ => Err(ReadError::Bad(BadKind::Call)),
    }
}

/// A call that only a session has, with these arguments.
fn own_call(name: OwnName, now: Instant, fields: &mut Parts<'_>) -> Option<SessionCall>
    ensures { result ≡ own_call_with name now fields.old }
{
    match name {
        OwnName::OfKey(name) => {
            let key = take_key(fields)?;
            Some(key_call(name, key, now))
        }
        OwnName::Plain(name) => {
            fields.end()?;
            Some(plain_call(name, now))
        }
        OwnName::Report(name) => {
            let report = take_report(name, fields)?;
            Some(SessionCall::Report { report, now })
        }
        OwnName::Closed => {
            let (local, peer, tag) = take_closed(fields)?;
            Some(SessionCall::DataClosed {
                local,
                peer,
                tag,
                now,
            })
        }
    }
}

/// The call of this name, for this key.
fn key_call(name: KeyName, key: Key, now: Instant) -> SessionCall
    ensures { result ≡ key_call name key now }
{
    match name {
        KeyName::Request => SessionCall::Request {
            key,
            is_for_data: false,
            now,
        },
        KeyName::RequestForData => SessionCall::Request {
            key,
            is_for_data: true,
            now,
        },
        KeyName::Keep => SessionCall::SetKept { key, is_kept: true },
        KeyName::Release => SessionCall::SetKept {
            key,
            is_kept: false,
        },
        KeyName::Grant => SessionCall::GrantOf { key, now },
    }
}

/// The call of this name, which has no arguments.
fn plain_call(name: PlainName, now: Instant) -> SessionCall
    ensures { result ≡ plain_call name now }
{
    match name {
        PlainName::Next => SessionCall::Next { now },
        PlainName::Grants => SessionCall::Grants,
        PlainName::Until => SessionCall::KeptUntil,
        PlainName::Counters => SessionCall::Counters,
        PlainName::Check => SessionCall::Check { now },
        PlainName::Abandon => SessionCall::Abandon { now },
    }
}

/// What the caller reports, with these arguments.
fn take_report(name: ReportName, fields: &mut Parts<'_>) -> Option<Report>
    ensures { result ≡ report_with name fields.old }
{
    match name {
        ReportName::Error => Some(Report::SocketError(take_tag(fields)?)),
        ReportName::Ended => Some(Report::SocketEnded(take_optional_tag(fields)?)),
        ReportName::NoRoute => Some(Report::NoRoute(take_tag(fields)?)),
        ReportName::Moved => Some(Report::HostMoved(take_tag(fields)?)),
        ReportName::Full => alone(fields, Report::Full),
        ReportName::Room => alone(fields, Report::Room),
        ReportName::Written => alone(fields, Report::DataWritten),
        ReportName::Leave => alone(fields, Report::Leave),
    }
}

/// A report that has no arguments.
fn alone(fields: &Parts<'_>, report: Report) -> Option<Report>
    ensures { result ≡ option_map (λ _. report) (ends fields.now) }
{
    fields.end()?;
    Some(report)
}
