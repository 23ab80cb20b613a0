// Holds the library checkpoints to a second implementation, which says each byte of a save by its place and finds a save by a walk that stays at 0 once it is
// lost. Writes how often each number was answered (0: nothing is refused) where the two agree, and how often they differ: in the number, the bytes, the
// number of used bytes or the round. A case is made of its number alone, so that each can be looked at by itself.
#![tactic(auto)]

mod calls;
mod replays;
mod second;
mod states;

use replays::{Repeat, replayed};
use states::DIFFER;
use std::io;
use std::num::wrapping_add_usize;
use std::ops::Range;
use testing::{clip, print_counts};

// Asks each case, and prints how often each number was answered, and how often the two differ.
fn report<F: Fn(usize) -> usize>(
    rt: &impl Print,
    name: &str,
    cases: Range<usize>,
    outcome: F,
) -> io::Result<()>
    requires { F.IsAlwaysCallable outcome }
{
    let mut tally = [0usize; DIFFER + 1];
    for case in cases {
        let n = clip(outcome(case), DIFFER);
        tally[n] = wrapping_add_usize(tally[n], 1);
    }
    print!(rt; "{name}")?;
    print_counts(rt, "answered", &tally)
}

fn saves(rt: &impl Print) -> io::Result<()> {
    report(rt, "saves: ", 0..8000, calls::saved)?;
    report(rt, "one after the other: ", 50000..53000, calls::chained)?;
    report(rt, "damaged: ", 100000..120000, calls::damaged)
}

// Of the last, a mistake is in what is repeated.
fn repeats(rt: &impl Print) -> io::Result<()> {
    report(rt, "all repeated: ", 150000..153000, |case| {
        replayed(case, Repeat::All)
    })?;
    report(rt, "changes repeated: ", 200000..203000, |case| {
        replayed(case, Repeat::Changes)
    })?;
    report(rt, "one change left out: ", 250000..250200, |case| {
        replayed(case, Repeat::ChangesButFirst)
    })
}

// No two kinds have a case in common. Of the last, a mistake is in what is repeated.
fn main(rt: HostRuntime) -> io::Result<()> {
    saves(&rt)?;
    repeats(&rt)
}
