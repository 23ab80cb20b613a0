// One key stream for several pools: each has a reserve and a limit, and what all have drawn makes the position.
#![tactic(auto)]

mod draws;
mod entries;
mod soundness;

// The number of pools, and for each its reserve, its limit and what it has drawn, in symbols: 0 past the pools.
#[derive(Clone, Copy, Debug, PartialEq, Eq)]
pub struct Stock {
    pub pools: usize,
    pub reserves: [usize; Stock::MAX_POOLS],
    pub limits: [usize; Stock::MAX_POOLS],
    pub drawn: [usize; Stock::MAX_POOLS],
}
