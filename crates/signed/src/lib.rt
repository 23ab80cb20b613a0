// Signed readings: uploads of them, taking a key off, and totals shown. A plan comes with a cap, which stands beside it in every call.
#![tactic(auto)]

mod blocks;
mod caps;
mod numbers;

pub use blocks::{show_totals, signed_unmask, signed_upload};
