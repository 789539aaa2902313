//! ERROR-CODE (RFC 8489, section 14.8).

ghost use Rattle.std.specs.Prelude.{◌≡◌, ◌+◌, ◌≤◌, length};
ghost use Rattle.turn_stun.specs.Values.{error_code_of, error_code_value};

use crate::attribute::AttributeType;
use crate::attribute::typed::{AttributeFromRaw, AttributeWrite};
use crate::transaction::TransactionId;
use std::alloc::AllocError;
use std::marker::Model;

/// Why a request is refused (RFC 8489, section 14.8): a code from 300 to 699, and a text for people.
#[derive(Debug, Drop)]
pub struct ErrorCode<'a> {
    code: u16,
    reason: &'a [u8],
}

impl<'a> Model for ErrorCode<'a> {
    ghost use Rattle.std.specs.Prelude.{◌≤◌};
    ghost use Rattle.turn_stun.specs.Refusal.{Refusal};

    ghost Value = { Refusal };

    ghost view = { λ error. record { code = error.code; reason = error.reason.now } };

    ghost invariant = { λ error. (300 ≤ error.code) × (error.code ≤ 699) };
}

impl<'a> ErrorCode<'a> {
    /// 400 Bad Request (section 14.8): the request is malformed.
    pub const BAD_REQUEST: u16 = 400;
    /// 401 Unauthenticated (section 14.8): the request lacks valid integrity.
    pub const UNAUTHORIZED: u16 = 401;
    /// 403 Forbidden (RFC 8656, section 19): the server's policy forbids what is requested.
    pub const FORBIDDEN: u16 = 403;
    /// 420 Unknown Attribute (section 14.8): the request has a required attribute that the server
    /// does not know.
    pub const UNKNOWN_ATTRIBUTE: u16 = 420;
    /// 437 Allocation Mismatch (RFC 8656, section 19): an allocation is requested that exists already, or
    /// needed but does not exist.
    pub const ALLOCATION_MISMATCH: u16 = 437;
    /// 438 Stale Nonce (section 14.8): the nonce is no longer valid.
    pub const STALE_NONCE: u16 = 438;
    /// 440 Address Family not Supported (RFC 8656, section 19): the server has no relayed addresses
    /// of the family.
    pub const ADDRESS_FAMILY_NOT_SUPPORTED: u16 = 440;
    /// 446 Connection Already Exists (RFC 6062, section 6.3): the allocation has a connection to the
    /// peer.
    pub const CONNECTION_ALREADY_EXISTS: u16 = 446;
    /// 447 Connection Timeout or Failure (RFC 6062, section 6.3): the peer could not be connected to.
    pub const CONNECTION_TIMEOUT_OR_FAILURE: u16 = 447;
    /// 486 Allocation Quota Reached (RFC 8656, section 19): the user has as many allocations as it
    /// may.
    pub const ALLOCATION_QUOTA_REACHED: u16 = 486;
    /// 508 Insufficient Capacity (RFC 8656, section 19): the server has no room for more.
    pub const INSUFFICIENT_CAPACITY: u16 = 508;

    /// The attribute with this code and reason. The reason should be text of at most 127 characters
    /// (section 14.8), which nothing here checks.
    pub fn new(code: u16, reason: &'a [u8]) -> ErrorCode<'a>
        requires least { 300 ≤ code }
        requires greatest { code ≤ 699 }
        ensures code { result.code ≡ code }
        ensures reason { result.reason ≡ reason.now }
    {
        ErrorCode { code, reason }
    }

    /// The code, from 300 to 699.
    pub fn code(&self) -> u16
        ensures code { result ≡ self.now.code }
        ensures least { 300 ≤ result }
        ensures greatest { result ≤ 699 }
    {
        self.code
    }

    /// The bytes of the reason.
    pub fn reason(&self) -> &'a [u8]
        ensures { result.now ≡ self.now.reason }
    {
        self.reason
    }
}

impl<'a> AttributeFromRaw<'a> for ErrorCode<'a> {
    ghost kind = { 0x0009 };

    ghost decodes = { λ value id found. found ≡ error_code_of value };

    fn attribute_type() -> AttributeType
        ensures { result.value ≡ 0x0009 }
    {
        AttributeType::ERROR_CODE
    }

    fn from_value(value: &'a [u8], _id: TransactionId) -> Option<ErrorCode<'a>> {
        if value.len() < 4 {
            return None;
        }
        // The first 21 bits are reserved, and ignored (section 14.8).
        let class = value[2] % 8;
        let number = value[3];
        if class < 3 || class > 6 || number > 99 {
            return None;
        }
        Some(ErrorCode {
            code: u16::from(class) * 100 + u16::from(number),
            reason: &value[4..],
        })
    }
}

impl AttributeWrite for ErrorCode<'_> {
    ghost written_kind = { λ _. 0x0009 };

    ghost encoded = { λ error id. error_code_value error };

    fn get_type(&self) -> AttributeType {
        AttributeType::ERROR_CODE
    }

    fn value_len(&self) -> usize {
        4 + self.reason.len()
    }

    fn write_value(&self, _id: TransactionId, out: &mut Vec<u8>) -> Result<(), AllocError> {
        let class = (self.code / 100) as u8;
        let number = (self.code % 100) as u8;
        out.extend_from_slice(&[0, 0, class, number])?;
        out.extend_from_slice(self.reason)
    }
}
