// Entries of whoever deals keys, for callers in other languages: numbers, slices and arrays alone, and the same promises as the functions that they call.
#![tactic(auto)]

mod dealing;
mod pools;

pub use dealing::{kortyghai_derive_keys, kortyghai_draw};
pub use pools::{kortyghai_stock_draw, kortyghai_stock_open};
