//! Lives of a client over UDP or over TCP, against a server that is a table, with a simulated clock: those that no transcript can
//! say.
//!
//! ```text
//!  Caller: a clock, and what is on its way <--calls, answers--> client
//!    ^
//!    +--packets, after a delay--> Server: signs by the key of the password, and checks what the client signs
//! ```
//!
//! A caller polls, sends due packets, passes input in, and sleeps until the time that `poll` returns. To run the
//! scenarios, unproved, in this folder:
//!
//! ```text
//! rt try --test
//! ```
#![tactic(auto)]

#[cfg(test)]
mod burst;
#[cfg(test)]
mod caller;
#[cfg(test)]
mod cuts;
#[cfg(test)]
mod fixture;
#[cfg(test)]
mod gathered;
#[cfg(test)]
mod given_up;
#[cfg(test)]
mod looped;
#[cfg(test)]
mod memory;
#[cfg(test)]
mod messages;
#[cfg(test)]
mod places;
#[cfg(test)]
mod server;
#[cfg(test)]
mod slow_link;
#[cfg(test)]
mod timed_from_send;
#[cfg(test)]
mod times;
