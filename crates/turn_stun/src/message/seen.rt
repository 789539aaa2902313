//! Which attributes are seen after an integrity attribute.

ghost use Rattle.std.specs.Prelude.{◌≡◌, ◌||◌};
ghost use Rattle.turn_stun.specs.Attributes.{is_seen, is_sha1, is_sha256};

use crate::attribute::AttributeType;

/// The integrity attributes that precede a place in a message.
#[derive(Clone, Copy, Debug)]
pub(crate) struct IntegrityBefore {
    /// One of the two precedes it.
    pub(crate) any: bool,
    /// MESSAGE-INTEGRITY-SHA256 precedes it.
    pub(crate) sha256: bool,
}

impl IntegrityBefore {
    /// At the start of a message none precedes.
    pub(crate) const NONE: IntegrityBefore = IntegrityBefore {
        any: false,
        sha256: false,
    };

    /// Whether an attribute of the type is seen there (RFC 8489, sections 14.5 and 14.6).
    pub(crate) fn lets_see(self, kind: AttributeType) -> bool
        ensures { result ≡ is_seen self.any self.sha256 kind.value }
    {
        !self.any
            || kind == AttributeType::FINGERPRINT
            || (kind == AttributeType::MESSAGE_INTEGRITY_SHA256 && !self.sha256)
    }

    /// What precedes the next place, with an attribute of the type in between.
    pub(crate) fn behind(self, kind: AttributeType) -> IntegrityBefore
        ensures any { result.any ≡ (self.any || is_sha1 kind.value || is_sha256 kind.value) }
        ensures sha256 { result.sha256 ≡ (self.sha256 || is_sha256 kind.value) }
    {
        let is_sha1 = kind == AttributeType::MESSAGE_INTEGRITY;
        let is_sha256 = kind == AttributeType::MESSAGE_INTEGRITY_SHA256;
        IntegrityBefore {
            any: self.any || is_sha1 || is_sha256,
            sha256: self.sha256 || is_sha256,
        }
    }
}
