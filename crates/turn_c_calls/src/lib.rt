//! The calls of a client as a C program makes them: structs of numbers in, structs of numbers out. Nothing here is unsafe.
//!
//! ```text
//!  Settings, user, password, seed -- start --> Session
//!  Request, data ------------------- step ---> Answer, and bytes in the buffer
//! ```
//!
//! A [`Session`](session::Session) is a client, with the bytes that did not fit into a buffer and are to be read. Each
//! [`Request`](request::Request) is a call of the client, and its [`Answer`](answer::Answer) says the reply of the machine's
//! step; a request that is not made (kinds 2 to 6) changes nothing but the answer's kind. [`library`] has the three
//! functions that a C library exports, and [`code`] the numbers.
#![tactic(auto)]

mod abandon;
pub mod address;
pub mod answer;
mod buffer;
mod by_kind;
mod channel;
pub mod code;
mod fault;
mod give;
mod handle;
mod head;
pub mod hints;
pub mod library;
mod make;
mod next_permission;
pub mod opening;
pub mod request;
pub mod room;
pub mod session;
pub mod settings;
mod unread;
