//! Messages that are read and written.

use crate::fixture::{ALLOCATE, FIRST_ID};
use std::alloc::Global;
use std::process::Abort;
use turn_stun::attribute::typed::AttributeWrite;
use turn_stun::message::Message;
use turn_stun::message::write::MessageWriteVec;
use turn_stun::transaction::TransactionId;

/// The message in these bytes.
pub(crate) fn parsed<'a>(rt: &impl Abort, bytes: &'a [u8]) -> Message<'a> {
    Message::from_bytes(bytes).expect(rt, "a message")
}

/// An ALLOCATE with the first ID, without attributes.
pub(crate) fn request(rt: &impl Abort, alloc: Global) -> MessageWriteVec {
    let id = TransactionId::from_bytes(FIRST_ID);
    MessageWriteVec::builder_request(alloc, ALLOCATE, id).expect(rt, "memory")
}

/// Adds an attribute to a message that has room for it.
pub(crate) fn add<A: AttributeWrite>(
    rt: &impl Abort,
    message: &mut MessageWriteVec,
    attribute: &A,
) {
    message
        .add_attribute(attribute)
        .expect(rt, "memory and room");
}
