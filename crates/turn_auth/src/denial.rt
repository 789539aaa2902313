//! The attributes of an error response that say why, and what to sign with (RFC 8489, section 9.2.5).

ghost use Rattle.std.specs.Prelude.{◌≡◌, option_copied};
ghost use Rattle.turn_auth.specs.Denial.{first_value};
ghost use Rattle.turn_stun.specs.Iterator.{placed};
ghost use Rattle.turn_stun.specs.Read.{value_in};

use turn_stun::attribute::{AttributeType, RawAttribute};
use turn_stun::message::Message;

/// The values that a denial consists of, well formed or not. Of several attributes of one type the first
/// one counts.
#[derive(Debug, Drop)]
pub(crate) struct DenialValues<'a> {
    /// The first REALM.
    pub(crate) realm: Option<&'a [u8]>,
    /// The first NONCE.
    pub(crate) nonce: Option<&'a [u8]>,
    /// The first ERROR-CODE.
    pub(crate) error_code: Option<&'a [u8]>,
}

impl<'a> DenialValues<'a> {
    /// The values of the seen attributes of this message. It reads them once, since anyone may send an error with
    /// thousands of them.
    pub(crate) fn in_message(message: &Message<'a>) -> DenialValues<'a>
        ensures realm { option_copied result.realm ≡ value_in 0x0014 message.now }
        ensures nonce { option_copied result.nonce ≡ value_in 0x0015 message.now }
        ensures error_code { option_copied result.error_code ≡ value_in 0x0009 message.now }
    {
        let mut found = DenialValues {
            realm: None,
            nonce: None,
            error_code: None,
        };
        for (offset, raw) in message.iter_attributes() {
            found.read(offset, raw);
        }
        found
    }

    /// Reads the next attribute.
    fn read(&mut self, offset: usize, raw: RawAttribute<'a>)
        ensures realm { option_copied self.new.realm ≡ first_value 0x0014 (option_copied self.old.realm) (placed (offset, raw.entry)) }
        ensures nonce { option_copied self.new.nonce ≡ first_value 0x0015 (option_copied self.old.nonce) (placed (offset, raw.entry)) }
        ensures error_code { option_copied self.new.error_code ≡ first_value 0x0009 (option_copied self.old.error_code) (placed (offset, raw.entry)) }
    {
        self.realm = first_value(AttributeType::REALM, self.realm, offset, raw);
        self.nonce = first_value(AttributeType::NONCE, self.nonce, offset, raw);
        self.error_code = first_value(AttributeType::ERROR_CODE, self.error_code, offset, raw);
    }
}

/// The value that was found before, or else that of this attribute if it has the type.
fn first_value<'a>(
    kind: AttributeType,
    before: Option<&'a [u8]>,
    offset: usize,
    raw: RawAttribute<'a>,
) -> Option<&'a [u8]>
    ensures { option_copied result ≡ first_value kind.value (option_copied before.entry) (placed (offset, raw.entry)) }
{
    if before.is_none() && raw.attribute_type == kind {
        return Some(raw.value);
    }
    before
}
