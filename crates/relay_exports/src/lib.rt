// Entries of a relay for callers in other languages: numbers, slices and arrays alone, and the same promises as the functions that they call.
#![tactic(auto)]

mod frames;
mod saves;

pub use frames::{
    kortyghai_relay_advance, kortyghai_relay_count, kortyghai_relay_give, kortyghai_relay_open,
};
pub use saves::{kortyghai_relay_restore, kortyghai_relay_save};
