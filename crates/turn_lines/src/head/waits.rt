//! How requests are timed, from the head's last fields.

ghost use Rattle.std.specs.Prelude.{◌≡◌};
ghost use Rattle.turn_lines.specs.Head.{from_send_of, timing_of, waits_of};

use crate::number::parse_decimal;
use crate::parts::Parts;
use turn_client_calls::settings::Waits;

/// The word for requests that are timed from when their first copies are sent.
const FROM_SEND: &[u8] = b"timed_from_send";

/// The retransmission times, if there is a field for them, and whether the word `timed_from_send` is the last field. `None`
/// if a field is neither, or another one follows.
pub fn take_timing(fields: &mut Parts<'_>) -> Option<(Option<Waits>, bool)>
    ensures { result ≡ timing_of fields.old }
{
    let Some(field) = fields.next() else {
        return Some((None, false));
    };
    if field == FROM_SEND {
        fields.end()?;
        return Some((None, true));
    }
    let waits = parse_waits(field)?;
    let timed_from_send = take_from_send(fields)?;
    Some((Some(waits), timed_from_send))
}

/// Whether the word `timed_from_send` is left. `None` if another field is, or one after it.
fn take_from_send(fields: &mut Parts<'_>) -> Option<bool>
    ensures { result ≡ from_send_of fields.old }
{
    let Some(field) = fields.next() else {
        return Some(false);
    };
    if field != FROM_SEND {
        return None;
    }
    fields.end()?;
    Some(true)
}

/// `INITIAL,MAX,COUNT,FINAL`.
#[tactic(auto, unfolding(crate::specs::Head::waits_of))]
fn parse_waits(text: &[u8]) -> Option<Waits>
    ensures { result ≡ waits_of text.now }
{
    let mut parts = Parts::new(text, b',');
    let initial = parse_decimal(parts.next()?, u64::MAX)?;
    let max = parse_decimal(parts.next()?, u64::MAX)?;
    let count = parse_decimal(parts.next()?, 0xffff_ffff)? as u32;
    let last = parse_decimal(parts.next()?, u64::MAX)?;
    parts.end()?;
    Some(Waits {
        initial,
        max,
        count,
        last,
    })
}
