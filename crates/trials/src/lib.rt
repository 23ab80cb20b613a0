// A round on paper: a plan with made-up readings and keys, through the library's own entries.
#![tactic(auto)]

mod draws;
mod generator;
mod sums;
mod trials;
mod uploads;

use arithmetic::Symbol;
pub use generator::{next_state, value_of};
pub use trials::try_round;

// What is told of a round: the last sender's index, relay 1's sum, the true sum of the readings, the shown total, and the generator's state after it.
#[derive(Clone, Copy, Debug, PartialEq, Eq)]
pub struct Trial {
    pub last: usize,
    pub first: Symbol,
    pub sum: u32,
    pub shown: i32,
    pub state: u32,
}

// What the relays and the server make of a round.
#[derive(Clone, Copy, Debug, PartialEq, Eq)]
pub struct Settled {
    pub first: Symbol,
    pub shown: i32,
}
