// What the programs read from standard input: lines, and their words, numbers and hexadecimal bytes; and what they print.
#![tactic(auto)]

pub mod hex;
pub mod lines;
pub mod show;
pub mod words;

// The longest lent buffer.
pub const ROOM: usize = 4096;
