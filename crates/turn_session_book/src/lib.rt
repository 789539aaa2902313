//! What a session notes of its requests and of what the server granted and refused, and how soon a refused request is made again.
//! There is no client here and no IO: the caller passes in what has happened.
//!
//! ```text
//!  a request             -- add ------> OpenRequests  -- settle --------> one outcome
//!  a grant               -- granted --> Held          -- ended ---------> whether it was kept
//!  a refusal             -- refused --> Rests         -- rest_of -------> not before this time
//!  all three             -------------> Book          -- next_event ----> an outcome, a grant that is lost or has expired
//! ```
//!
//! [`keys::Key`] names what is requested, [`answers::Answer`] is how a session answers, and [`answers::Outcome`] what became of a
//! request. [`events::Event`] is what a session reports, and [`causes::Why`] why it ends.
#![tactic(auto)]

pub mod answers;
pub mod book;
pub mod causes;
pub mod constants;
pub mod events;
pub mod held;
pub mod keys;
pub mod open_requests;
pub mod replies;
pub mod rests;
pub mod tags;
