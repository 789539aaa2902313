//! DONT-FRAGMENT (RFC 8656, section 18.9).

ghost use Rattle.std.specs.Prelude.{◌≡◌, ◌==◌, [], length, is_some};

use std::alloc::AllocError;
use turn_stun::attribute::AttributeType;
use turn_stun::attribute::typed::{AttributeFromRaw, AttributeWrite};
use turn_stun::transaction::TransactionId;

/// Requests that the server forbids routers to fragment what it sends to peers (RFC 8656, section 18.9).
#[derive(Clone, Copy, Debug, PartialEq, Eq)]
pub struct DontFragment;

impl DontFragment {
    /// The type of the attribute.
    pub const TYPE: AttributeType = AttributeType { value: 0x001a };
}

impl<'a> AttributeFromRaw<'a> for DontFragment {
    ghost kind = { 0x001a };

    ghost decodes = { λ value id found. is_some found ≡ (length value == 0) };

    fn attribute_type() -> AttributeType
        ensures { result.value ≡ 0x001a }
    {
        DontFragment::TYPE
    }

    fn from_value(value: &'a [u8], _id: TransactionId) -> Option<DontFragment> {
        if value.is_empty() {
            Some(DontFragment)
        } else {
            None
        }
    }
}

impl AttributeWrite for DontFragment {
    ghost written_kind = { λ _. 0x001a };

    ghost encoded = { λ _ id. [] };

    fn get_type(&self) -> AttributeType {
        DontFragment::TYPE
    }

    fn value_len(&self) -> usize {
        0
    }

    fn write_value(&self, _id: TransactionId, _out: &mut Vec<u8>) -> Result<(), AllocError> {
        Ok(())
    }
}
