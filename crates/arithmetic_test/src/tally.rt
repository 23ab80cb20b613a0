// How many comparisons were made, and how many of them agree.
use std::io;
use std::num::wrapping_add_u64;

#[derive(Clone, Copy, Debug, PartialEq, Eq)]
pub struct Tally {
    pub cases: u64,
    pub same: u64,
}

pub fn none() -> Tally {
    Tally { cases: 0, same: 0 }
}

pub fn counted(tally: Tally, same: bool) -> Tally {
    let cases = wrapping_add_u64(tally.cases, 1);
    if same {
        Tally {
            cases,
            same: wrapping_add_u64(tally.same, 1),
        }
    } else {
        Tally {
            cases,
            same: tally.same,
        }
    }
}

pub fn joined(a: Tally, b: Tally) -> Tally {
    Tally {
        cases: wrapping_add_u64(a.cases, b.cases),
        same: wrapping_add_u64(a.same, b.same),
    }
}

// A line's name, the two numbers, and what is true of the first.
pub fn print_tally(rt: &impl Print, name: &str, tally: Tally, end: &str) -> io::Result<()> {
    println!(rt; "{name}: {} of {} {end}", tally.same, tally.cases)
}
