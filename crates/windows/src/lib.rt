// The rolling hour: the sum and the largest of the last shown totals.
#![tactic(auto)]

mod places;
mod rolling;

pub use rolling::push_total;

// What is kept of a run of totals: how many are asked for, how many are held, those, oldest first, with 0 past them, and their sum.
#[derive(Clone, Copy, Debug, PartialEq, Eq)]
pub struct Window {
    pub span: usize,
    pub held: usize,
    pub totals: [i32; Window::MAX_SPAN],
    pub sum: i64,
}

// What a window has beside its totals: how many are held, and their sum.
#[derive(Clone, Copy, Debug, PartialEq, Eq)]
pub struct Tally {
    pub held: usize,
    pub sum: i64,
}
