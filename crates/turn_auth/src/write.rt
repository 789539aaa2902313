//! Attributes of a message that is to be signed.

ghost use Rattle.std.specs.Prelude.{◌≡◌, ◌+◌, ◌≤◌, length, OnOk};
ghost use Rattle.turn_auth.specs.Signature.{StaysUnsigned, written_len};
ghost use Rattle.turn_stun.specs.Message.{id_of};
ghost use Rattle.turn_stun.specs.Writer.{AddsAttribute, Extends, with_attribute};

use std::alloc::AllocError;
use turn_stun::attribute::typed::AttributeWrite;
use turn_stun::error::WriteError;
use turn_stun::message::write::MessageWriteVec;

/// Adds an attribute for which there is room in a message.
///
/// # Errors
///
/// If memory allocation fails. The bytes before it stay, but for the length in the header.
pub fn add<A: AttributeWrite>(
    message: &mut MessageWriteVec,
    attribute: &A,
) -> Result<(), AllocError>
    requires room { length message.old + written_len (A.encoded attribute.now (id_of message.old)) ≤ 65552 }
    ensures text { OnOk result (message.new ≡ with_attribute (A.written_kind attribute.now) (A.encoded attribute.now (id_of message.old)) message.old) }
    ensures added { OnOk result (AddsAttribute message.old message.new (A.written_kind attribute.now) (A.encoded attribute.now (id_of message.old))) }
    ensures plain { OnOk result (StaysUnsigned (A.written_kind attribute.now) message.old message.new) }
    ensures len { OnOk result (length message.new ≡ length message.old + written_len (A.encoded attribute.now (id_of message.old))) }
    ensures kept { Extends message.old message.new }
{
    let _ = message.as_bytes();
    match message.add_attribute(attribute) {
        Ok(()) => Ok(()),
        Err(WriteError::OutOfMemory) => Err(AllocError),
        Err(WriteError::TooLong) => unreachable!(),
    }
}
