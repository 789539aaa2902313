//! The arguments of the calls that only a session has.

ghost use Rattle.std.specs.Prelude.{◌≡◌};
ghost use Rattle.turn_session_lines.specs.Arguments.{closed_of, key_in, key_of, optional_tag_in, optional_tag_of, tag_in, tag_of};

use std::net::SocketAddr;
use turn_lines::address::{parse_address, parse_ip};
use turn_lines::number::parse_decimal;
use turn_lines::parts::Parts;
use turn_session_book::keys::Key;
use turn_session_book::tags::Tag;

/// `permission IP`, `channel PEER` or `connect PEER`, and nothing else.
#[tactic(auto, unfolding(crate::specs::Arguments::key_of))]
pub(crate) fn take_key(fields: &mut Parts<'_>) -> Option<Key>
    ensures { result ≡ key_of fields.old }
{
    let kind = fields.next()?;
    let whose = fields.next()?;
    fields.end()?;
    parse_key(kind, whose)
}

/// The key of this kind, for this IP address or peer.
fn parse_key(kind: &[u8], whose: &[u8]) -> Option<Key>
    ensures { result ≡ key_in kind.now whose.now }
{
    if kind == b"permission".as_slice() {
        return Some(Key::Permission(parse_ip(whose)?));
    }
    if kind == b"channel".as_slice() {
        return Some(Key::Channel(parse_address(whose)?));
    }
    if kind == b"connect".as_slice() {
        return Some(Key::Connect(parse_address(whose)?));
    }
    None
}

/// The caller's number of an error, and nothing else.
#[tactic(auto, unfolding(crate::specs::Arguments::tag_of))]
pub(crate) fn take_tag(fields: &mut Parts<'_>) -> Option<Tag>
    ensures { result ≡ tag_of fields.old }
{
    let tag = parse_tag(fields.next()?)?;
    fields.end()?;
    Some(tag)
}

/// The caller's number of an error, or `-` for none, and nothing else.
#[tactic(auto, unfolding(crate::specs::Arguments::optional_tag_of))]
pub(crate) fn take_optional_tag(fields: &mut Parts<'_>) -> Option<Option<Tag>>
    ensures { result ≡ optional_tag_of fields.old }
{
    let tag = parse_optional_tag(fields.next()?)?;
    fields.end()?;
    Some(tag)
}

fn parse_tag(text: &[u8]) -> Option<Tag>
    ensures { result ≡ tag_in text.now }
{
    let number = parse_decimal(text, 0xffff_ffff)? as u32;
    Some(Tag(number))
}

fn parse_optional_tag(text: &[u8]) -> Option<Option<Tag>>
    ensures { result ≡ optional_tag_in text.now }
{
    if text == b"-".as_slice() {
        return Some(None);
    }
    Some(Some(parse_tag(text)?))
}

/// A data connection that was closed: its local end, its peer, and the caller's number of the error.
#[tactic(auto, unfolding(crate::specs::Arguments::closed_of))]
pub(crate) fn take_closed(fields: &mut Parts<'_>) -> Option<(SocketAddr, SocketAddr, Tag)>
    ensures { result ≡ closed_of fields.old }
{
    let local = parse_address(fields.next()?)?;
    let peer = parse_address(fields.next()?)?;
    let tag = take_tag(fields)?;
    Some((local, peer, tag))
}
