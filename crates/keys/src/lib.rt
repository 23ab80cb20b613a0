// Keys: the table maker, and individual keys.
#![tactic(auto)]

mod columns;
mod derive;
mod maker;
mod products;
mod rates;
mod verdict;

pub use derive::{derive_keys, derive_unvetted};
pub use maker::make_table;
pub use rates::rate_needed;
