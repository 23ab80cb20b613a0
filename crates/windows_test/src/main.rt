// Holds the library windows to a second implementation, which keeps the whole run of totals and works everything out afresh from it. Writes how often each
// number was answered (0: nothing is refused) where the two agree, and how often they differ: in the number, the figure, or the window handed back. A case
// is made of its number alone, so that each can be looked at by itself.
#![tactic(auto)]

mod afresh;
mod calls;
mod hours;
mod numbers;
mod runs;
mod spoiled;

use numbers::DIFFER;
use runs::Play;
use std::io;
use std::num::wrapping_add_usize;
use std::ops::Range;
use testing::{clip, print_counts};

// Asks each case, and prints how often each number was answered, and how often the two differ.
fn report<F: Fn(usize) -> usize>(
    rt: &impl Print,
    name: &str,
    cases: Range<usize>,
    outcome: F,
) -> io::Result<()>
    requires { F.IsAlwaysCallable outcome }
{
    let mut tally = [0usize; DIFFER + 1];
    for case in cases {
        let n = clip(outcome(case), DIFFER);
        tally[n] = wrapping_add_usize(tally[n], 1);
    }
    print!(rt; "{name}")?;
    print_counts(rt, "answered", &tally)
}

fn whole_runs(rt: &impl Print) -> io::Result<()> {
    report(rt, "openings:      ", 0..1000, calls::opened)?;
    report(rt, "runs:          ", 50000..70000, |case| {
        runs::played(case, Play::Right)
    })?;
    report(rt, "hours:         ", 0..96, |case| {
        runs::played(case, Play::Fed)
    })
}

// Of the last, a mistake is in what is expected.
fn single_steps(rt: &impl Print) -> io::Result<()> {
    report(rt, "totals:        ", 100000..140000, calls::pushed)?;
    report(rt, "figures:       ", 200000..240000, calls::asked)?;
    report(rt, "mistaken runs: ", 250000..250200, |case| {
        runs::played(case, Play::mistaken(case))
    })
}

// No two kinds have a case in common but those of openings and of hours, which draw nothing.
fn main(rt: HostRuntime) -> io::Result<()> {
    whole_runs(&rt)?;
    single_steps(&rt)
}
