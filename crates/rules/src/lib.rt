// The rules engine: one request on a lent table, its written bits and a tally, proved equal to the definitions of the crate `model`. It works in place.
#![tactic(auto)]

use model::{Name, Refusal, Tally};

pub mod answers;
pub mod count;
pub mod lent;
mod marks;
pub mod records;
mod settle;
mod states;
pub mod steps;

// What a request leaves of the tally, and its answer.
#[derive(Clone, Copy)]
pub struct Outcome {
    pub tally: Tally,
    pub answer: Result<Name, Refusal>,
}

// The same, and how many rows live then.
#[derive(Clone, Copy)]
pub struct Progress {
    pub outcome: Outcome,
    pub live: usize,
}
