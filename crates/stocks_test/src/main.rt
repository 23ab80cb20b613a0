// Holds the library stocks to a second implementation, which keeps an opening and the list of the answered draws and adds everything up from it; a stock that
// is handed in is left by draws where this list can be drawn symbol after symbol. Writes how often each number was answered (0: nothing is refused) where
// the two agree, and how often they differ: in the number, the stock handed back, or what the buffer holds. A case is made of its number alone, so that
// each can be looked at by itself.
#![tactic(auto)]

mod calls;
mod cases;
mod log;

use calls::DIFFER;
use cases::SMALL;
use std::io;
use std::num::wrapping_add_usize;
use std::ops::Range;
use testing::{clip, print_counts};

// How many cases are drawn of openings, of stocks and of runs; the last are runs with a mistake in what is expected, which shows where a draw is answered.
const OPENINGS: usize = 20000;

const STOCKS: usize = 40000;

const RUNS: usize = 4000;

const MISTAKEN: usize = 200;

// Asks each case, and prints how often each number was answered, and how often the two differ.
fn report<F: Fn(usize) -> usize>(
    rt: &impl Print,
    name: &str,
    cases: Range<usize>,
    outcome: F,
) -> io::Result<()>
    requires { F.IsAlwaysCallable outcome }
{
    let mut tally = [0usize; DIFFER + 1];
    for case in cases {
        let n = clip(outcome(case), DIFFER);
        tally[n] = wrapping_add_usize(tally[n], 1);
    }
    print!(rt; "{name}")?;
    print_counts(rt, "answered", &tally)
}

fn single_stocks(rt: &impl Print) -> io::Result<()> {
    report(rt, "openings:      ", 0..OPENINGS, cases::drawn_opening)?;
    report(rt, "small stocks:  ", 0..SMALL, cases::small_stock)?;
    report(rt, "drawn stocks:  ", 0..STOCKS, cases::drawn_stock)
}

fn runs_of_draws(rt: &impl Print) -> io::Result<()> {
    report(rt, "runs of draws: ", 0..RUNS, |case| {
        cases::run(case, 0)
    })?;
    report(rt, "mistaken runs: ", 0..MISTAKEN, |case| {
        cases::run(case, 1)
    })
}

fn main(rt: HostRuntime) -> io::Result<()> {
    single_stocks(&rt)?;
    runs_of_draws(&rt)
}
