//! Attributes, one after the other.

ghost use Rattle.std.specs.Prelude.{◌≡◌, ◌+◌, ◌^◌, ◌<◌, length, is_some, true};
ghost use Rattle.turn_stun.specs.Message.{attributes_from};

use crate::attribute::RawAttribute;

/// All attributes of some bytes with their offsets, in order, whether they are seen or not.
#[derive(Debug, Drop)]
pub(crate) struct AttributeWalk<'a> {
    rest: &'a [u8],
    offset: usize,
    ghost fits: { offset + length rest.now < 2 ^ 64 },
    ghost whole: { is_some (attributes_from 0 offset rest.now) ≡ true },
}

impl<'a> AttributeWalk<'a> {
    ghost use Rattle.turn_stun.specs.Iterator.{attributes_ahead, found_from};

    /// The attributes in these bytes, the first of which has that offset.
    pub(crate) fn new(bytes: &'a [u8], offset: usize) -> AttributeWalk<'a>
        requires fits { offset + length bytes.now < 2 ^ 64 }
        requires whole { is_some (attributes_from 0 offset bytes.now) ≡ true }
        ensures { attributes_ahead result ≡ found_from offset bytes.now }
    {
        AttributeWalk {
            rest: bytes,
            offset,
        }
    }
}

impl<'a> Iterator for AttributeWalk<'a> {
    ghost use Rattle.std.specs.Iterator.{YieldsFirstBy, item_count};
    ghost use Rattle.turn_stun.specs.Iterator.{attributes_ahead, placed};

    type Item = (usize, RawAttribute<'a>);

    ghost next_gives = { YieldsFirstBy placed attributes_ahead };

    ghost remaining = { item_count attributes_ahead };

    fn next(&mut self) -> Option<(usize, RawAttribute<'a>)> {
        if self.rest.is_empty() {
            return None;
        }
        let raw = RawAttribute::at_front(self.rest);
        let offset = self.offset;
        let size = raw.size();
        *self = AttributeWalk {
            rest: &self.rest[size..],
            offset: offset + size,
        };
        Some((offset, raw))
    }
}
