//! Laws over whole runs of a client: what holds after any list of calls (RFC 8656, RFC 6062).
//!
//! ```text
//!  a new client --call--> state --call--> state --call--> ..    each by its own step of the machine
//!                 |               |               |
//!               answer          answer          answer          the laws speak of all of these
//! ```
//!
//! The functions of this crate do nothing: their contracts are the laws. A proof uses one by calling its
//! function, or names it. A law that does not speak of failed memory allocations holds for runs without
//! one. Only [`kept_grants`] and [`longest_cadence`] compute something: the room that a law needs.
//!
//! ```rust
//! replies_count_once_in_runs();
//! ```
#![tactic(auto)]

mod bound;
mod busy;
mod calm;
mod challenges;
mod cut;
mod deliveries;
mod ends;
mod granted;
mod handshake;
mod lasting;
mod leaving;
mod numbers;
mod offers;
mod order;
mod paced;
mod peers;
mod promises;
mod replies;
mod reported;
mod room;
mod sends;
mod sent;
mod server;
mod silence;
mod sleeps;
mod tried;

pub use bound::{bound_connections_have_their_success, bound_streams_have_their_success};
pub use busy::without_waits_a_client_is_busy_for_ever;
pub use calm::{traffic_is_calm, traffic_is_worked};
pub use challenges::{few_challenges_are_answered, realm_stays_in_runs};
pub use cut::{
    polled_clients_are_quiet, runs_give_the_same_for_any_cut, streams_are_worked,
    streams_give_the_same_for_any_cut, wholes_are_frames,
};
pub use deliveries::{data_of_peers_is_returned, deliveries_are_worked};
pub use ends::{ends_are_told, ends_are_worked};
pub use granted::grants_have_replies;
pub use handshake::{a_handshake_succeeds, handshakes_succeed};
pub use lasting::{
    a_burst_costs_no_grant, a_relay_stays_up, grants_last_while_the_server_answers,
    thousands_of_peers_stay_up,
};
pub use leaving::{messages_are_worked, only_own_messages_leave};
pub use numbers::numbers_stay_distinct;
pub use offers::bound_connections_have_their_offers;
pub use order::{inputs_are_worked, inputs_follow_each_other};
pub use paced::{
    first_copies_are_paced, first_copies_are_worked, queues_drain, requests_name_themselves,
};
pub use peers::only_permitted_is_received;
pub use promises::runs_keep_their_promises;
pub use replies::replies_count_once_in_runs;
pub use reported::{causes_are_reported_once, events_are_counted};
pub use room::{Load, kept_grants, longest_cadence};
pub use sends::{reachable_peers_are_sent_to, refusals_are_worked};
pub use sent::{packets_are_worked, packets_go_out};
pub use server::requests_can_be_granted;
pub use silence::silence_ends_a_client;
pub use sleeps::runs_miss_no_deadline;
pub use tried::{requests_are_tried, tries_are_worked};
