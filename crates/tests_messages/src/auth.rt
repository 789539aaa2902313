//! Values from the standards, worked messages, each public call once, and failed memory allocations.

mod configuration;
mod fixture;
mod hmac;
mod judging;
mod memory;
mod signing;
