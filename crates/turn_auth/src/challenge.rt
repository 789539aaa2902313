//! Which messages are challenges (RFC 8489, sections 9.2.3 to 9.2.5).

ghost use Rattle.std.specs.Prelude.{◌≡◌, option_copied};
ghost use Rattle.std.specs.Str.{bytes_eq};
ghost use Rattle.turn_stun.specs.Attributes.{seen_of, first_of};
ghost use Rattle.turn_auth.specs.LongTerm.{supports};
ghost use Rattle.turn_auth.specs.Challenge.{denial_in, offers_sha256, picked};
ghost use Rattle.turn_stun.specs.Read.{value_in};

use crate::denial::DenialValues;
use crate::integrity::IntegrityAlgorithm;
use turn_stun::attribute::AttributeType;
use turn_stun::attribute::error_code::ErrorCode;
use turn_stun::attribute::nonce::Nonce;
use turn_stun::attribute::password_algorithms::{PasswordAlgorithm, PasswordAlgorithms};
use turn_stun::attribute::realm::Realm;
use turn_stun::attribute::typed::AttributeFromRaw;
use turn_stun::message::Message;
use turn_stun::message::header::MessageClass;

/// The most bytes of a PASSWORD-ALGORITHMS that is sent back (our choice: they are kept inline).
pub(crate) const MAX_ALGORITHMS_LEN: usize = 64;

/// The contents of an error response for a client: why, and what to sign the request with.
#[derive(Drop)]
pub(crate) struct Denial<'a> {
    /// The protection space in which the credentials are valid.
    pub(crate) realm: Realm<'a>,
    /// The nonce that the server expects in the next request.
    pub(crate) nonce: Nonce<'a>,
    /// The code of the ERROR-CODE.
    pub(crate) code: u16,
}

impl<'a> Denial<'a> {
    /// The contents of the message, or `None` if it is no error response, or lacks one of the three
    /// attributes in good form. The attributes are read once.
    pub(crate) fn in_message(message: &Message<'a>) -> Option<Denial<'a>>
        ensures { result ≡ denial_in message.now }
    {
        if !message.has_class(MessageClass::Error) {
            return None;
        }
        let found = DenialValues::in_message(message);
        let id = message.transaction_id();
        let realm = Realm::from_value(found.realm?, id)?;
        let nonce = Nonce::from_value(found.nonce?, id)?;
        let error = ErrorCode::from_value(found.error_code?, id)?;
        Some(Denial {
            realm,
            nonce,
            code: error.code(),
        })
    }
}

/// The value of the first seen PASSWORD-ALGORITHMS, well formed or not.
pub(crate) fn offered_in<'a>(message: &Message<'a>) -> Option<&'a [u8]>
    ensures { option_copied result ≡ value_in 0x8002 message.now }
{
    match message.raw_attribute(AttributeType::PASSWORD_ALGORITHMS) {
        Some((_, raw)) => Some(raw.value),
        None => None,
    }
}

/// Whether the value of a PASSWORD-ALGORITHMS offers SHA-256, and is short enough to be sent back.
fn offers_sha256(value: &[u8]) -> bool
    ensures { result ≡ offers_sha256 value.now }
{
    if value.len() > MAX_ALGORITHMS_LEN {
        return false;
    }
    match PasswordAlgorithms::from_bytes(value) {
        Some(algorithms) => algorithms.contains(PasswordAlgorithm::Sha256),
        None => false,
    }
}

/// Whether the algorithm is among these.
pub(crate) fn supports(algorithms: &[IntegrityAlgorithm], algorithm: IntegrityAlgorithm) -> bool
    ensures { result ≡ supports algorithms.now algorithm }
{
    algorithms.iter().any(|each| *each == algorithm)
}

/// The algorithm that a first challenge selects: the better one that both sides have.
pub(crate) fn picked(
    supported: &[IntegrityAlgorithm],
    offered: Option<&[u8]>,
) -> Option<IntegrityAlgorithm>
    ensures { result ≡ picked supported.now (option_copied offered.entry) }
{
    // The better one that both sides have (our choice).
    if supports(supported, IntegrityAlgorithm::Sha256) {
        if let Some(value) = offered {
            if offers_sha256(value) {
                return Some(IntegrityAlgorithm::Sha256);
            }
        }
    }
    if supports(supported, IntegrityAlgorithm::Sha1) {
        return Some(IntegrityAlgorithm::Sha1);
    }
    None
}
