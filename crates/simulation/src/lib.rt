// A pool on paper: a run of trials, from the bytes that the program reads to the lines that it prints.
#![tactic(auto)]

mod input;
mod lines;

use arithmetic::Symbol;
pub use input::{open, open_in};
pub use lines::{next_line, refused_line};
use plans::Plan;
use records::READ_TABLE;

// What a run has before its first round, but for its key table.
#[derive(Clone, Copy, Debug, PartialEq, Eq)]
pub struct Opened {
    pub plan: Plan,
    pub cap: u32,
    pub rounds: u32,
}

// A run of rounds: a plan and its key table with 0 past it, a cap, how many rounds there are, the next one's number and the generator's state before it.
#[derive(Clone, Copy)]
pub struct Run {
    pub plan: Plan,
    pub table: [Symbol; READ_TABLE],
    pub cap: u32,
    pub rounds: u32,
    pub number: u32,
    pub state: u32,
}
