//! Values from the standards, limits, each public call once, and failed memory allocations.

mod fixture;
mod memory;
mod messages;
mod text;
mod times;
mod values;
mod writing;
