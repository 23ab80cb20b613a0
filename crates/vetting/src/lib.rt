// Vetting: the exact verdict on the secrecy of a plan.
#![tactic(auto)]

mod checks;
mod largest;
mod length;
mod under_lock;
mod walk;

pub use checks::{vet, vet_counted};
pub use largest::accepts;
pub use length::count_pairs;
use refusals::Refusal;
pub use under_lock::vet_joint;

// A coalition, and an observer: relay 1 to U, 0 for the server, or U + 1 for the joint observer.
#[derive(Clone, Copy, Debug, PartialEq, Eq)]
pub struct Pair {
    pub coalition: u16,
    pub observer: u16,
}

// What the walk finds, the first pair that leaks, and how many pairs it looked at.
#[derive(Clone, Copy, Debug, PartialEq, Eq)]
pub struct Walked {
    pub found: Option<Pair>,
    pub looked: u32,
}

// The vet's verdict, and how many pairs it looked at: all of them, or up to the first that leaks; 0 where the walk did not start, and where only the joint
// observer leaks.
#[derive(Clone, Copy, Debug, PartialEq, Eq)]
pub struct Report {
    pub verdict: Result<(), Refusal>,
    pub looked: u32,
}

// Two relays that stand under one lock, the lower number first.
#[derive(Clone, Copy, Debug, PartialEq, Eq)]
pub struct RelayPair {
    pub first: usize,
    pub second: usize,
}
