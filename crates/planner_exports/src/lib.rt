// Entries of a planner for callers in other languages: numbers, slices and arrays alone, and the same promises as the functions that they call.
#![tactic(auto)]

mod plans_and_tables;
mod records_of_plans;

pub use plans_and_tables::{
    kortyghai_check_prime, kortyghai_count_pairs, kortyghai_make_table, kortyghai_rate,
    kortyghai_vet, kortyghai_vet_joint,
};
pub use records_of_plans::{kortyghai_read_record, kortyghai_vet_record, kortyghai_write_record};
