//! What no clause says: external values, and that each call succeeds while memory allocation does.

mod again;
mod attributes;
mod frames;
mod memory;
mod tcp;

use crate::fixture::{FIRST_ID, SECOND_ID};
use turn_stun::transaction::TransactionId;

fn first_id() -> TransactionId {
    TransactionId::from_bytes(FIRST_ID)
}

fn second_id() -> TransactionId {
    TransactionId::from_bytes(SECOND_ID)
}
