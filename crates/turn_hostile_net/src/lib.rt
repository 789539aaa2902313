//! A server, a hostile network between it and a client, and a model of what the client may hold.
//!
//! ```text
//!  request --Network--> packets on their way --> client
//!                          |
//!                          +--> Model: what the signed responses that came through have granted
//! ```
//!
//! The server signs with the password, and the network repeats, reorders, delays, drops and spoils what it sends. Each
//! packet says what a client may believe of it, which is nothing where its integrity is missing or wrong. Begin with
//! [`Network`](network::Network) and [`Model`](model::Model).
#![tactic(auto)]

pub mod cuts;
pub mod draws;
pub mod events;
pub mod facts;
pub mod fault;
pub mod forge;
pub mod head;
pub mod marks;
pub mod message;
pub mod model;
pub mod network;
pub mod numbers;
pub mod offers;
pub mod packet;
pub mod request;
pub mod response;
pub mod strays;
pub mod words;
pub mod world;
