//! The seen attributes of a message, one after the other.

ghost use Rattle.std.specs.Prelude.{◌≡◌, ◌+◌, ◌^◌, ◌<◌, length, is_some, true};
ghost use Rattle.std.specs.Iterator.{YieldsFirstBy, item_count};
ghost use Rattle.turn_stun.specs.Message.{attributes_from};
ghost use Rattle.turn_stun.specs.Attributes.{seen_attributes};
ghost use Rattle.turn_stun.specs.Iterator.{attributes_left, found_from, placed};

use crate::attribute::RawAttribute;
use crate::attribute::walk::AttributeWalk;
use crate::message::seen::IntegrityBefore;

/// The attributes of a message that are seen, each with its offset, in the order of the message.
///
/// Attributes that follow an integrity attribute and are to be ignored are skipped (RFC 8489, sections
/// 14.5 and 14.6).
#[derive(Debug, Drop)]
pub struct MessageAttributesIter<'a> {
    walk: AttributeWalk<'a>,
    before: IntegrityBefore,
}

impl<'a> MessageAttributesIter<'a> {
    /// The seen ones of the attributes in these bytes, the first of which has that offset.
    pub(crate) fn new(bytes: &'a [u8], offset: usize) -> MessageAttributesIter<'a>
        requires fits { offset + length bytes.now < 2 ^ 64 }
        requires whole { is_some (attributes_from 0 offset bytes.now) ≡ true }
        ensures { attributes_left result ≡ seen_attributes (found_from offset bytes.now) }
    {
        MessageAttributesIter {
            walk: AttributeWalk::new(bytes, offset),
            before: IntegrityBefore::NONE,
        }
    }
}

impl<'a> Iterator for MessageAttributesIter<'a> {
    type Item = (usize, RawAttribute<'a>);

    ghost next_gives = { YieldsFirstBy placed attributes_left };

    ghost remaining = { item_count attributes_left };

    fn next(&mut self) -> Option<(usize, RawAttribute<'a>)> {
        while let Some((offset, raw)) = self.walk.next() {
            let seen = self.before.lets_see(raw.attribute_type);
            self.before = self.before.behind(raw.attribute_type);
            if seen {
                return Some((offset, raw));
            }
        }
        None
    }
}
