//! The first line: the client of a session, and the session's settings.

ghost use Rattle.std.specs.Prelude.{◌≡◌, None, Some};
ghost use Rattle.std.specs.Option.{option_copied, option_map};
ghost use Rattle.std.specs.Duration.{as_nanos};
ghost use Rattle.turn_lines.specs.Field.{Gives};
ghost use Rattle.turn_session_lines.specs.Head.{after_word, chosen_in, described_in, head_with, if_ever, other_seed, settings_of};
ghost use Rattle.turn_session_lines.specs.Head.{session_head_of, split_settings};

use std::alloc::Global;
use std::time::Duration;
use turn_lines::field::FieldError;
use turn_lines::head::{Head, parse_head};
use turn_lines::number::parse_decimal;
use turn_lines::parts::Parts;
use turn_session::settings::SessionSettings;

/// The client of a session, and the session's settings.
#[derive(Debug, Drop)]
pub struct SessionHead {
    /// The client and its server. Its requests are timed from when their first copies are sent.
    pub client: Head,
    /// The settings of the session.
    pub settings: SessionSettings,
    /// The seed of the transaction IDs of its checks: that of the client, with the bits of the first byte flipped.
    pub seed: [u8; 32],
}

/// `session`, the settings if the next field has them, and the head of a client.
///
/// # Errors
///
/// `Malformed` if the line is not such a head, `OutOfMemory` if memory allocation for the credentials failed.
#[tactic(auto, unfolding(crate::specs::Head::session_head_of))]
pub fn parse_session_head(alloc: Global, line: &[u8]) -> Result<SessionHead, FieldError>
    ensures { Gives described_in result (session_head_of line.now) }
{
    let rest = after_word(line).ok_or(FieldError::Malformed)?;
    let (settings, described) = split_settings(rest);
    let client = parse_head(alloc, described)?;
    Ok(head_with(client, settings))
}

/// What follows the word `session`, and the space after it.
fn after_word(line: &[u8]) -> Option<&[u8]>
    ensures { option_copied result ≡ after_word line.now }
{
    match line {
        [b's', b'e', b's', b's', b'i', b'o', b'n', b' ', rest @ ..] => Some(rest),
        _ => None,
    }
}

/// The settings, if the first field has them, and the text after it.
fn split_settings(text: &[u8]) -> (Option<SessionSettings>, &[u8])
    ensures { (option_map chosen_in result.0, result.1.now) ≡ split_settings text.now }
{
    let mut fields = Parts::new(text, b' ');
    let Some(first) = fields.next() else {
        return (None, text);
    };
    match parse_settings(first) {
        Some(settings) => (Some(settings), text.get(first.len() + 1..).unwrap_or(&[])),
        None => (None, text),
    }
}

/// The head with this client, whose requests are timed from when their first copies are sent, and these settings.
fn head_with(client: Head, settings: Option<SessionSettings>) -> SessionHead
    ensures { described_in result ≡ head_with client (option_map chosen_in settings) }
{
    let settings = settings.unwrap_or(SessionSettings::new(client.ends.transport));
    let seed = other_seed(client.seed);
    let mut client = client;
    client.timed_from_send = true;
    SessionHead {
        client,
        settings,
        seed,
    }
}

/// The seed with the bits of the first byte flipped, so that it is another one.
fn other_seed(seed: [u8; 32]) -> [u8; 32]
    ensures { result ≡ other_seed seed }
{
    let mut other = seed;
    other[0] = 255 - seed[0];
    other
}

/// `PROBE,CHECKS,IDLE,LEAVE`: times in nanoseconds, 0 for never, and 0 or 1 for CHECKS.
#[tactic(auto, unfolding(crate::specs::Head::settings_of))]
fn parse_settings(text: &[u8]) -> Option<SessionSettings>
    ensures { option_map chosen_in result ≡ settings_of text.now }
{
    let mut parts = Parts::new(text, b',');
    let probe = parse_decimal(parts.next()?, u64::MAX)?;
    let checks_allocation = parse_decimal(parts.next()?, 1)? == 1;
    let idle = parse_decimal(parts.next()?, u64::MAX)?;
    let leave_wait = parse_decimal(parts.next()?, u64::MAX)?;
    parts.end()?;
    Some(SessionSettings {
        probe: if_ever(probe),
        checks_allocation,
        idle: if_ever(idle),
        leave_wait: Duration::from_nanos(leave_wait),
    })
}

/// A time, or never for 0.
fn if_ever(nanos: u64) -> Option<Duration>
    ensures { option_map as_nanos result ≡ if_ever nanos }
{
    if nanos == 0 {
        return None;
    }
    Some(Duration::from_nanos(nanos))
}
