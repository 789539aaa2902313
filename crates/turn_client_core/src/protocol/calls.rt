//! What the caller requests of the client (RFC 8656, sections 7 to 12; RFC 6062, section 4.3).
//!
//! Each call tests its errors in one order, allocation failure last (our choice), so that a caller can
//! conclude what an error rules out.

mod abandon;
mod allocation;
mod bind_channel;
mod create_permission;
mod data_socket;
mod delete;
mod events;
mod getters;
mod keep;
mod request;
mod send_to;
mod tcp_connect;
