//! Laws of every TURN client that meets `TurnClientApi`: what its machine (`docs/rattle/MACHINE.md`) keeps, call by
//! call. The functions do nothing, or return a constant: their contract is the law.
#![tactic(auto)]

mod alarm;
mod allocates;
mod bodies;
mod bound;
mod doubles;
mod expiries;
mod gone;
mod grant_allocations;
mod granted;
mod ids;
mod inputs;
mod kept;
mod messages;
mod numbers;
mod order;
mod payloads;
mod peers;
mod purposes;
mod received;
mod replies;
mod requests;
mod rows;
mod sockets;
mod standards;
mod states;
mod steps;
mod streams;
mod wakeup;

pub use alarm::no_deadline_is_missed;
pub use allocates::allocates_ask_for_families;
pub use bodies::{
    drained_streams_rest, events_are_bounded, inputs_leave_other_streams,
    least_free_number_is_bound, least_time_has_parts, nothing_expires_early,
};
pub use bound::only_a_signed_success_binds;
pub use doubles::grants_are_distinct;
pub use expiries::grants_expire;
pub use gone::grants_go_by_kind;
pub use grant_allocations::grants_have_allocations;
pub use granted::only_a_signed_success_grants;
pub use ids::drawn_ids_are_free;
pub use inputs::{calls_process_inputs, inputs_are_frames, messages_leave_streams};
pub use messages::{
    allocations_are_answered, challenges_are_answered, connects_are_answered, grants_are_answered,
    refreshes_are_answered,
};
pub use numbers::numbers_are_distinct;
pub use order::clients_fit_their_phase;
pub use payloads::payloads_are_answered;
pub use peers::only_permitted;
pub use purposes::requests_have_two_purposes;
pub use received::{connections_are_bound, datagrams_are_judged, pieces_are_cut};
pub use replies::{ids_are_drawn, replies_count_once};
pub use requests::{requests_are_made, unsent_requests_wait};
pub use rows::{
    channel_numbers_count_up, delete_is_one_request, failures_jump, first_allocate_is_spelled,
    silence_is_timed, wakeups_are_reported,
};
pub use sockets::{peers_may_connect, sockets_are_taken};
pub use standards::numbers_are_the_standards;
pub use states::{
    challenges_are_held, channel_numbers_are_in_range, indicated_offers_are_few,
    listings_have_grants, requests_go_to_the_server,
};
pub use steps::{challenges_are_counted, phases_go_on, realm_stays, stays_closed};
pub use streams::{
    calls_leave_streams, one_stream_is_opened_or_bound, streams_are_drained, streams_stay_apart,
};
pub use wakeup::wakeup_is_the_least_time;
