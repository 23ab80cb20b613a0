// Holds plans, records, the table maker and individual keys to a second implementation. Writes how often each number was answered (0: nothing is refused)
// where the two agree, and how often they differ: in the number, its details, the plan, or what a buffer holds after the call.
#![tactic(auto)]

mod format;
mod individual;
mod making;
mod named;
mod numbers;
mod reading;
mod shapes;
mod writing;

use numbers::DIFFER;
use std::io;
use std::num::wrapping_add_usize;
use testing::{clip, print_counts};

// Asks the first cases of a kind, and prints how often each number was answered, and how often the two differ.
fn report<F: Fn(usize) -> usize>(
    rt: &impl Print,
    name: &str,
    cases: usize,
    outcome: F,
) -> io::Result<()>
    requires { F.IsAlwaysCallable outcome }
{
    let mut tally = [0usize; DIFFER + 1];
    for case in 0..cases {
        let n = clip(outcome(case), DIFFER);
        tally[n] = wrapping_add_usize(tally[n], 1);
    }
    print!(rt; "{name}")?;
    print_counts(rt, "answered", &tally)
}

fn main(rt: HostRuntime) -> io::Result<()> {
    report(&rt, "Plan::new:    ", 1256, named::constructed)?;
    report(&rt, "check_plan:   ", 12000, named::checked)?;
    report(&rt, "write_record: ", 15520, writing::written)?;
    report(
        &rt,
        "read damaged: ",
        34560,
        |case| reading::read(reading::damaged(case)),
    )?;
    report(
        &rt,
        "read cut:     ",
        6000,
        |case| reading::read(reading::cut(case)),
    )?;
    report(
        &rt,
        "read lent:    ",
        4096,
        |case| reading::read(reading::lent(case)),
    )?;
    report(
        &rt,
        "read marked:  ",
        4096,
        |case| reading::read(reading::marked(case)),
    )?;
    report(&rt, "make_table:   ", making::CASES, making::made)?;
    report(&rt, "derive_keys:  ", 6600, individual::derived)?;
    report(&rt, "named cases:  ", named::CASES, named::tried)
}
