//! Laws of one session: what its caller may rely on, as theorems of the definitions that `turn_session_client` and `turn_session` are
//! proved to follow. There is no code to run.
//!
//! ```text
//!  sessions_are_runs        a session changes its client by calls of the client's own alone
//!  granted_by_event         an outcome is that of an event of the client
//!  refusals_are_accepted    a refusal is that of an error response that the client has accepted
//!  few_unsent               while eight requests are queued, none of the caller is made
//!  one_outcome              each ticket has one outcome
//!  ends_have_causes         an end has a cause, and the first one stays
//!  over_is_last             the end is reported once, and nothing after it
//!  nothing_follows_the_end  no call changes a session that has ended
//!  leaves_in_time           a session that leaves has ended once its wait is over
//!  healthy_paths_stay       a path that carries packets ends no session
//!  sleeps_through_nothing   who calls again at the time that `poll` returned misses nothing
//!  data_makes_nothing_due   data of peers makes nothing due before the time that `poll` returned
//!  data_is_the_clients      data of peers goes through the client, and nothing is noted of it but a use of the peer
//! ```
#![tactic(auto)]

mod calm;
mod causes;
mod ends;
mod events;
mod health;
mod outcomes;
mod payloads;
mod requests;
mod runs;
mod sleeps;

pub use calm::{data_makes_nothing_due, probes_in_quick_succession_are_due_earlier};
pub use causes::ends_have_causes;
pub use ends::{leaves_in_time, nothing_follows_the_end, over_is_last};
pub use events::granted_by_event;
pub use health::{healthy_paths_are_worked, healthy_paths_stay};
pub use outcomes::one_outcome;
pub use payloads::data_is_the_clients;
pub use requests::{few_unsent, refusals_are_accepted};
pub use runs::sessions_are_runs;
pub use sleeps::{sleep_is_worked, sleeps_through_nothing};
