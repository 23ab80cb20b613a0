// Entries of the server for callers in other languages: numbers, slices and arrays alone, and the same promises as the functions that they call.
#![tactic(auto)]

mod hours;
mod totals;

pub use hours::{
    kortyghai_window_largest, kortyghai_window_open, kortyghai_window_push, kortyghai_window_sum,
};
pub use totals::{
    kortyghai_server_count, kortyghai_server_give, kortyghai_server_open, kortyghai_show_totals,
};
