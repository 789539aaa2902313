//! Where the value of an attribute lies in the bytes of its message.

ghost use Rattle.std.specs.Prelude.{◌≡◌, ◌≤◌, ◌<◌, ◌+◌, length, option_and_then, IfSome};
ghost use Rattle.std.specs.Option.{option_map};
ghost use Rattle.turn_stun.specs.Attributes.{first_of, seen_of};
ghost use Rattle.turn_hints.specs.Hints.{place_of, reason_place};

use std::ops::Range;
use turn_stun::attribute::AttributeType;
use turn_stun::attribute::error_code::ErrorCode;
use turn_stun::message::Message;

/// Where the value of the first attribute of this type lies in the message, without its padding. Only attributes that count
/// are looked at (RFC 8489, sections 14.5 and 14.6).
pub fn place_of(message: &Message<'_>, attribute_type: AttributeType) -> Option<Range<usize>>
    ensures place { result ≡ option_map place_of (first_of attribute_type.value (seen_of message.now)) }
    ensures inside { IfSome result (λ place. (place.start ≤ place.end) × (place.end ≤ length message.now)) }
{
    let _bytes = message.as_bytes();
    let (offset, raw) = message.raw_attribute(attribute_type)?;
    let start = offset + 4;
    Some(start..start + raw.value.len())
}

/// Where the reason of the first ERROR-CODE lies in the message, or `None` if there is none, or if it is malformed (RFC
/// 8489, section 14.8).
pub fn reason_place_of(message: &Message<'_>) -> Option<Range<usize>>
    ensures place { result ≡ option_and_then reason_place (first_of 0x0009 (seen_of message.now)) }
    ensures inside { IfSome result (λ place. (place.start ≤ place.end) × (place.end ≤ length message.now)) }
{
    let place = place_of(message, AttributeType::ERROR_CODE)?;
    let _error: ErrorCode<'_> = message.attribute().ok()?;
    Some(place.start + 4..place.end)
}

/// How many bytes the message has, with its header: fewer than 65,556, since its length field has 16 bits.
pub fn len_of(message: &Message<'_>) -> usize
    ensures len { result ≡ length message.now }
    ensures short { result < 65_556 }
{
    let bytes = message.as_bytes();
    20 + usize::from(u16::from_be_bytes([bytes[2], bytes[3]]))
}
