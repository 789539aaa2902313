//! What no clause says: external bytes, and that calls succeed while memory allocation does. Whole runs are transcripts.

mod calls;
mod fixture;
mod memory;
mod original_paths;
mod paths;
