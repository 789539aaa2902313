//! Each `OutOfMemory` is an answer here, and the state after it is asserted. So these pass for any memory
//! allocation that fails.

use crate::fixture::{ALLOCATE, FIRST_ID, check, raw, same};
use std::process::Abort;
use turn_stun::error::WriteError;
use turn_stun::message::Message;
use turn_stun::message::write::MessageWriteVec;
use turn_stun::transaction::TransactionId;

/// Adds an attribute of 304 bytes, or leaves the message as it was.
fn adds_or_leaves(rt: &impl Abort, message: &mut MessageWriteVec) {
    let before = message.as_bytes().len();
    let refusal = message.add_attribute(&raw(0x0013, &[1; 300])).err();
    let added = match refusal {
        None => 304,
        Some(_) => 0,
    };
    same(rt, message.as_bytes().len().wrapping_sub(before), added);
    same(
        rt,
        refusal.unwrap_or(WriteError::OutOfMemory),
        WriteError::OutOfMemory,
    );
    check(rt, Message::from_bytes(message.as_bytes()).is_ok());
}

#[test]
fn a_writer_without_memory_is_unchanged(rt: HostRuntime) {
    let id = TransactionId::from_bytes(FIRST_ID);
    let Ok(mut message) = MessageWriteVec::builder_request(rt.alloc(), ALLOCATE, id) else {
        return;
    };
    for _ in 0usize..8 {
        adds_or_leaves(&rt, &mut message);
    }
}
