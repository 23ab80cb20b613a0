// Plans: their counts, their bounds, and what is asked of a key table before anything is done with it.
#![tactic(auto)]

mod bounds;
mod tables;

use arithmetic::Symbol;
pub use bounds::{counts_fit, length_fits, one_of};
pub use tables::check_plan;

// U clusters of V users each, a coalition limit T, R source symbols a position, and a prime q. Key tables are lent beside it.
#[derive(Clone, Copy, Debug, PartialEq, Eq)]
pub struct Plan {
    pub clusters: usize,
    pub size: usize,
    pub limit: usize,
    pub rate: usize,
    pub q: Symbol,
}
