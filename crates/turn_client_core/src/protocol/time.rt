//! What is due: timeouts and expiries, the next wake-up time, the next packet.

mod left;
mod poll;
mod poll_transmit;
mod wakeup;
