//! What a signed reply of the server to a request changes (RFC 8656, sections 8.3, 10.3 and 12.3; RFC
//! 6062, section 4.3).

ghost use Rattle.std.specs.Prelude.{◌≡◌, ◌≤◌, ◌||◌, Some, option_to_list};
ghost use Rattle.turn_client_api.specs.Effect.{allocation_mismatch, effect, delete_answered, has_code, prolonged, refreshed};
ghost use Rattle.turn_client_api.specs.State.{State};
ghost use Rattle.turn_client_core.specs.Effects.{AnswersPurposes, after, connect_replied};
ghost use Rattle.turn_client_grants.specs.Failures.{added_for, grants_added};
ghost use Rattle.turn_client_grants.specs.Ledger.{LessRoom, SameRoomBut, with_ledger};
ghost use Rattle.turn_client_grants.specs.GrantFilter.{purposes_in};
ghost use Rattle.turn_stun.specs.Message.{id_of};

use crate::reply::{connection_id_in, has_code, lifetime_in};
use std::net::SocketAddr;
use turn_client_api::Purpose;
use turn_client_grants::{GrantLedger, Purposes};
use turn_stun::attribute::error_code::ErrorCode;
use turn_stun::instant::Instant;
use turn_stun::message::Message;
use turn_types::AddressFamily;

/// The least lifetime that is accepted in a reply to a REFRESH, in seconds (RFC 8656, section 7.2: a
/// server grants at least the default of 600).
const MIN_LIFETIME: u32 = 600;

/// What a reply changes in the client, apart from its grants.
#[derive(Clone, Copy, Debug, PartialEq, Eq)]
pub(crate) enum Effect {
    /// Nothing.
    Nothing,
    /// A signed reply with effect: the count of challenges is reset.
    Taken,
    /// The server deleted all allocations: the count of challenges is reset, and the client ends.
    AllocationsDeleted,
}

impl Effect {
    /// Both effects, this one first.
    fn then(self, other: Effect) -> Effect
        ensures { (s : State) → after result s ≡ after other (after self s) }
    {
        match self {
            Effect::Nothing => other,
            Effect::Taken => match other {
                Effect::Nothing => Effect::Taken,
                Effect::Taken => Effect::Taken,
                Effect::AllocationsDeleted => Effect::AllocationsDeleted,
            },
            Effect::AllocationsDeleted => Effect::AllocationsDeleted,
        }
    }
}

/// Processes the reply for all of these purposes, in order.
pub(crate) fn answer_all(
    ledger: &mut GrantLedger,
    purposes: &Purposes,
    message: &Message<'_>,
    is_granted: bool,
    now: Instant,
) -> Effect
    requires grant_room { grants_added purposes.now ≤ ledger.old.grant_room }
    requires event_room { 6 ≤ ledger.old.event_room }
    ensures state { AnswersPurposes (purposes_in purposes.now) is_granted message.now now ledger.old ledger.new result }
    ensures room { LessRoom (grants_added purposes.now) 0 6 0 ledger.old ledger.new }
{
    let first = answer_one(ledger, &purposes.first, message, is_granted, now);
    let second = answer_one(ledger, &purposes.second, message, is_granted, now);
    first.then(second)
}

/// Processes the reply for the purpose, if there is one.
fn answer_one(
    ledger: &mut GrantLedger,
    purpose: &Option<Purpose>,
    message: &Message<'_>,
    is_granted: bool,
    now: Instant,
) -> Effect
    requires grant_room { added_for purpose.now ≤ ledger.old.grant_room }
    requires event_room { 3 ≤ ledger.old.event_room }
    ensures state { AnswersPurposes (option_to_list purpose.now) is_granted message.now now ledger.old ledger.new result }
    ensures room { LessRoom (added_for purpose.now) 0 3 0 ledger.old ledger.new }
{
    match purpose {
        Some(purpose) => answer(ledger, purpose, message, is_granted, now),
        None => Effect::Nothing,
    }
}

/// Processes the reply for the purpose.
fn answer(
    ledger: &mut GrantLedger,
    purpose: &Purpose,
    message: &Message<'_>,
    is_granted: bool,
    now: Instant,
) -> Effect
    requires grant_room { added_for (Some purpose.now) ≤ ledger.old.grant_room }
    requires event_room { 3 ≤ ledger.old.event_room }
    ensures state { (s : State) → after result (with_ledger ledger.new s)
        ≡ effect (id_of message.now) is_granted message.now now (with_ledger ledger.old s) purpose.now }
    ensures room { LessRoom (added_for (Some purpose.now)) 0 3 0 ledger.old ledger.new }
{
    match purpose {
        Purpose::ForAllocation => Effect::Nothing,
        Purpose::ForRefresh(family, lifetime) => {
            refreshed(ledger, *family, *lifetime, message, is_granted, now)
        }
        Purpose::ForPermission(ip) => {
            ledger.permission_answered(*ip, is_granted, now);
            Effect::Taken
        }
        Purpose::ForChannel(number, _) => {
            ledger.channel_answered(*number, message.transaction_id(), is_granted, now);
            Effect::Taken
        }
        Purpose::ForConnect(peer) => connected(ledger, *peer, message, is_granted),
        Purpose::ForBind(_, _, _) => Effect::Nothing,
    }
}

/// Processes the reply to a REFRESH that requested a lifetime of so many seconds.
fn refreshed(
    ledger: &mut GrantLedger,
    family: AddressFamily,
    lifetime: u32,
    message: &Message<'_>,
    is_granted: bool,
    now: Instant,
) -> Effect
    ensures state { (s : State) → after result (with_ledger ledger.new s) ≡ refreshed family lifetime is_granted message.now now (with_ledger ledger.old s) }
    ensures room { SameRoomBut 0 0 ledger.old ledger.new }
{
    if lifetime == 0 {
        return delete_answered(ledger, message, is_granted);
    }
    if !is_granted {
        return Effect::Nothing;
    }
    match lifetime_in(message) {
        Some(granted) => prolonged(ledger, family, granted, now),
        None => Effect::Nothing,
    }
}

/// Removes what was to be deleted, if the server confirms the deletion or reports that there was
/// nothing to delete (RFC 8656, section 8.3).
fn delete_answered(ledger: &mut GrantLedger, message: &Message<'_>, is_granted: bool) -> Effect
    ensures state { (s : State) → after result (with_ledger ledger.new s) ≡ delete_answered is_granted message.now (with_ledger ledger.old s) }
    ensures room { SameRoomBut 0 0 ledger.old ledger.new }
{
    if is_gone(message, is_granted) {
        ledger.clear();
        ledger.unlist_allocates();
        return Effect::AllocationsDeleted;
    }
    Effect::Nothing
}

/// Whether the server deleted the allocations, or reports that it has none.
fn is_gone(message: &Message<'_>, is_granted: bool) -> bool
    ensures { result ≡ (is_granted || has_code allocation_mismatch message.now) }
{
    is_granted || has_code(message, ErrorCode::ALLOCATION_MISMATCH)
}

/// Gives the allocations of the family the lifetime that the server granted, unless it is too short.
fn prolonged(ledger: &mut GrantLedger, family: AddressFamily, lifetime: u32, now: Instant) -> Effect
    ensures state { (s : State) → after result (with_ledger ledger.new s) ≡ prolonged family lifetime now (with_ledger ledger.old s) }
    ensures room { SameRoomBut 0 0 ledger.old ledger.new }
{
    if lifetime < MIN_LIFETIME {
        return Effect::Nothing;
    }
    ledger.prolong(family, lifetime, now);
    Effect::Taken
}

/// Processes the reply to a CONNECT.
fn connected(
    ledger: &mut GrantLedger,
    peer: SocketAddr,
    message: &Message<'_>,
    is_granted: bool,
) -> Effect
    requires grant_room { 1 ≤ ledger.old.grant_room }
    requires event_room { 1 ≤ ledger.old.event_room }
    ensures state { (s : State) → after result (with_ledger ledger.new s) ≡ connect_replied peer is_granted message.now (with_ledger ledger.old s) }
    ensures room { LessRoom 1 0 1 0 ledger.old ledger.new }
{
    let connection_id = if is_granted {
        connection_id_in(message)
    } else {
        None
    };
    ledger.connect_answered(peer, &connection_id);
    Effect::Taken
}
