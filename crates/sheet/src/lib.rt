// Conflict sheets as text, card 7: a sheet is 18 bytes, and its text has a line for each rule.
#![tactic(auto)]

pub mod read;
mod rule;
mod words;
pub mod write;
