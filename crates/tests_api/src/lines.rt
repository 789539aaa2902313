//! The tests of `turn_lines`: what no line of a transcript can say.

mod printing;
mod writing;
