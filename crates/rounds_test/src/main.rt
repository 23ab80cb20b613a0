// Holds the libraries rounds, masking and streams to a second implementation, written another way. Writes how often each number was answered (0: nothing
// is refused) where the two agree, and how often they differ: in the number, its details, the state, the position, or what a buffer holds after the
// call. A case is made of its number alone, so that each can be looked at by itself. Most are one call on a state that the model gives; a day is a relay's
// whole run of calls from its opening on, held to a list of what was counted.
#![tactic(auto)]

mod days;
mod draws;
mod faults;
mod ledger;
mod masks;
mod model;
mod named;
mod numbers;
mod path;
mod shapes;
mod steps;
mod turns;

use days::wrong_day;
use numbers::DIFFER;
use std::io;
use std::num::wrapping_add_usize;
use std::ops::Range;
use testing::{clip, print_counts};
use turns::wrong_frame;

// Asks each case, and prints how often each number was answered, and how often the two differ.
fn report<F: Fn(usize) -> usize>(
    rt: &impl Print,
    name: &str,
    verb: &str,
    cases: Range<usize>,
    outcome: F,
) -> io::Result<()>
    requires { F.IsAlwaysCallable outcome }
{
    let mut tally = [0usize; DIFFER + 1];
    for case in cases {
        let n = clip(outcome(case), DIFFER);
        tally[n] = wrapping_add_usize(tally[n], 1);
    }
    print!(rt; "{name}")?;
    print_counts(rt, verb, &tally)
}

fn single_steps(rt: &impl Print) -> io::Result<()> {
    report(
        rt,
        "openings:        ",
        "answered",
        0..16000,
        turns::opening,
    )?;
    report(rt, "frames:          ", "answered", 0..150000, |case| {
        turns::frame(case, None)
    })?;
    report(rt, "sums:            ", "answered", 0..36000, turns::sums)
}

fn blocks(rt: &impl Print) -> io::Result<()> {
    report(rt, "upload, unmask:  ", "answered", 0..24000, masks::masked)?;
    report(rt, "draws:           ", "answered", 0..200000, draws::drawn)?;
    report(rt, "whole ways:      ", "answered", 0..2000, path::total)?;
    report(rt, "named cases:     ", "answered", 0..10, named::tried)
}

// A day's number is how often it has moved on; all other numbers are answers.
fn runs(rt: &impl Print) -> io::Result<()> {
    report(rt, "moves on:        ", "answered", 0..24000, turns::moved)?;
    report(rt, "days:            ", "moved on", 0..5000, |case| {
        days::played(case, None)
    })
}

// A mistake is in what is expected.
fn mistakes(rt: &impl Print) -> io::Result<()> {
    report(rt, "mistaken frames: ", "answered", 0..200, |case| {
        turns::frame(case, Some(wrong_frame(case % 2)))
    })?;
    report(rt, "mistaken days:   ", "answered", 0..120, |case| {
        days::played(case, Some(wrong_day(case % 6)))
    })
}

fn main(rt: HostRuntime) -> io::Result<()> {
    single_steps(&rt)?;
    blocks(&rt)?;
    runs(&rt)?;
    mistakes(&rt)
}
