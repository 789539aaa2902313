//! A list of calls of a gatherer.

ghost use Rattle.std.specs.Prelude.{◌≡◌, All, IfOk, OnOk, filter_map};
ghost use Rattle.turn_gather.specs.Drive.{IsGatherCallable, all_replies, after_all, checked_payloads, passed_up};

mod call;
mod one;
mod reply;

use crate::calls::one::reply_to;
use crate::gatherer::Gatherer;
pub use call::GatherCall;
pub use reply::GatherReply;
use std::alloc::{AllocError, Global};
use turn_client_api::TurnClientApi;

/// The result of a list of calls.
#[derive(Debug, Drop)]
pub struct Driven<C: TurnClientApi> {
    /// The answer of each call, in order.
    pub replies: Vec<GatherReply>,
    /// The gatherer after the last call.
    pub gatherer: Gatherer<C>,
}

/// Makes these calls on the gatherer in order. A packet for a peer is built at once, and the data of a
/// peer is copied.
///
/// The payloads passed up are, in order, exactly those that the client delivers from peers whose pairs
/// were checked before. This holds for every client. Times are at most 2^62 ns, and may go back from call
/// to call. Where the server relays over UDP, data for a peer is at most 65,504 bytes.
///
/// # Errors
///
/// Memory allocation failed, for a call or for its answer. No further call is made, and the gatherer is
/// dropped.
pub fn drive<C: TurnClientApi>(
    alloc: Global,
    mut gatherer: Gatherer<C>,
    calls: &[GatherCall],
) -> Result<Driven<C>, AllocError>
    requires { All (IsGatherCallable gatherer.client.config.allocation_transport) calls.now }
    ensures replies { IfOk result (λ driven. driven.replies.items ≡ all_replies gatherer calls.now) }
    ensures gatherer { IfOk result (λ driven. driven.gatherer ≡ after_all gatherer calls.now) }
    ensures payloads { IfOk result (λ driven. filter_map passed_up driven.replies.items ≡ checked_payloads gatherer calls.now) }
{
    let replies = replies_to(alloc, &mut gatherer, calls)?;
    Ok(Driven { replies, gatherer })
}

/// The answers of these calls.
fn replies_to<C: TurnClientApi>(
    alloc: Global,
    gatherer: &mut Gatherer<C>,
    calls: &[GatherCall],
) -> Result<Vec<GatherReply>, AllocError>
    requires { All (IsGatherCallable gatherer.old.client.config.allocation_transport) calls.now }
    ensures replies { IfOk result (λ replies. replies.items ≡ all_replies gatherer.old calls.now) }
    ensures gatherer { OnOk result (gatherer.new ≡ after_all gatherer.old calls.now) }
{
    let mut replies = Vec::with_capacity(alloc, calls.len())?;
    for call in calls {
        replies.push(reply_to(alloc, gatherer, call)?)?;
    }
    Ok(replies)
}
