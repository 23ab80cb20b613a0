// Holds the library signed to a second implementation in 64-bit integers. Writes how often each number was answered (0: nothing is refused) where the two
// agree, and how often they differ: in the number, or in what a buffer holds after the call. A case is made of its number alone, so that each can be
// looked at by itself.
#![tactic(auto)]

mod calls;
mod drawn;
mod model;
mod numbers;
mod runs;
mod small;

use calls::Call;
use model::DIFFER;
use runs::round;
use small::{KEYED, SINGLES};
use std::io;
use std::num::wrapping_add_usize;
use std::ops::Range;
use testing::{clip, print_counts};

// How many inputs of each call are drawn, and how many rounds.
const DRAWN: usize = 9000;

const ROUNDS: usize = 300;

// Asks each case, and prints how often each number was answered, and how often the two differ.
fn report<F: Fn(usize) -> usize>(
    rt: &impl Print,
    name: &str,
    cases: Range<usize>,
    outcome: F,
) -> io::Result<()>
    requires { F.IsAlwaysCallable outcome }
{
    let mut tally = [0usize; DIFFER + 1];
    for case in cases {
        let n = clip(outcome(case), DIFFER);
        tally[n] = wrapping_add_usize(tally[n], 1);
    }
    print!(rt; "{name}")?;
    print_counts(rt, "answered", &tally)
}

// A call's small inputs, and its drawn ones.
fn report_small(rt: &impl Print, name: &str, call: Call, cases: usize) -> io::Result<()> {
    report(rt, name, 0..cases, |case| small::answer(call, case))
}

fn report_drawn(rt: &impl Print, name: &str, call: Call) -> io::Result<()> {
    report(rt, name, 0..DRAWN, |case| drawn::answer(call, case))
}

fn main(rt: HostRuntime) -> io::Result<()> {
    report_small(&rt, "uploads, q below 60:         ", Call::Upload, KEYED)?;
    report_small(&rt, "keys taken off, q below 60:  ", Call::Unmask, KEYED)?;
    report_small(
        &rt,
        "totals shown, q below 60:    ",
        Call::ShowTotals,
        SINGLES,
    )?;
    report_drawn(&rt, "uploads, drawn:              ", Call::Upload)?;
    report_drawn(&rt, "keys taken off, drawn:       ", Call::Unmask)?;
    report_drawn(&rt, "totals shown, drawn:         ", Call::ShowTotals)?;
    report(&rt, "whole rounds:                ", 0..ROUNDS, round)
}
