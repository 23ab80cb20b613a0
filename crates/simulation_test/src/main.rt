// Holds the library simulation to a second implementation, line by line, on whole, damaged and hostile inputs. Writes how often each number was answered (0:
// nothing is refused) where the two agree, and how often they differ: in the number, in a line, or in what comes after the last line.
#![tactic(auto)]

mod inputs;
mod lines;
mod second;

use inputs::Kind;
use lines::{Told, says, says_number};
use refusals::Refusal;
use second::Pool;
use simulation::Run;
use std::io;
use std::num::wrapping_add_usize;
use std::ops::Range;
use testing::{clip, over, print_counts, wide16};

// What a comparison says where the two differ; otherwise it says the number that was answered.
const DIFFER: usize = 19;

// What a run without a next line is refused with.
const NO_ROUND: usize = 18;

// Which number of a line is expected one higher than it is.
#[derive(Clone, Copy, Debug, PartialEq, Eq)]
enum Mistake {
    Number,
    Last,
    First,
    Sum,
    Total,
}

static MISTAKES: [Mistake; 5] = [
    Mistake::Number,
    Mistake::Last,
    Mistake::First,
    Mistake::Sum,
    Mistake::Total,
];

fn mistake_of(case: usize) -> Mistake {
    MISTAKES[case % 5]
}

// The place of the number, from 1; 0 where nothing is mistaken. A refusal's number is so much too high.
fn place_of(mistake: Option<Mistake>) -> usize {
    match mistake {
        None => 0,
        Some(Mistake::Number) => 1,
        Some(Mistake::Last) => 2,
        Some(Mistake::First) => 3,
        Some(Mistake::Sum) => 4,
        Some(Mistake::Total) => 5,
    }
}

fn one_higher(mut t: Told, mistake: Mistake) -> Told {
    match mistake {
        Mistake::Number => t.number = wrapping_add_usize(t.number, 1),
        Mistake::Last => t.last = wrapping_add_usize(t.last, 1),
        Mistake::First => t.first = wrapping_add_usize(t.first, 1),
        Mistake::Sum => t.sum = wrapping_add_usize(t.sum, 1),
        Mistake::Total => t.total = wrapping_add_usize(t.total, 1),
    }
    t
}

fn expected(bytes: &[u8], p: Pool, number: usize, s: usize, mistake: Option<Mistake>) -> Told {
    let t = second::told(bytes, p, number, s);
    match mistake {
        Some(mistake) => one_higher(t, mistake),
        None => t,
    }
}

// After the last round there is no line.
fn ended(mut run: Run) -> usize {
    match simulation::next_line(&mut run) {
        Ok(_) => DIFFER,
        Err(refusal) => over(wide16(refusal.number()) == NO_ROUND, 0, DIFFER),
    }
}

// A run and the second implementation's state, and whether all lines before agree.
#[derive(Clone, Copy)]
struct Turn {
    run: Run,
    state: usize,
    agrees: bool,
}

fn turned(bytes: &[u8], p: Pool, k: usize, t: Turn, mistake: Option<Mistake>) -> Turn {
    let mut run = t.run;
    let told = expected(bytes, p, wrapping_add_usize(k, 1), t.state, mistake);
    let agrees = match simulation::next_line(&mut run) {
        Ok(line) => says(line, told),
        Err(_) => false,
    };
    Turn {
        run,
        state: second::state_after(t.state, second::draws(p)),
        agrees: t.agrees && agrees,
    }
}

fn played(bytes: &[u8], first: Run, mistake: Option<Mistake>) -> usize {
    let p = second::read_pool(bytes);
    let mut t = Turn {
        run: first,
        state: 1,
        agrees: true,
    };
    for k in 0..p.rounds {
        t = turned(bytes, p, k, t, mistake);
    }
    over(t.agrees, ended(t.run), DIFFER)
}

fn refused(refusal: Refusal, number: usize) -> usize {
    let line = simulation::refused_line(Err(refusal));
    over(says_number(line, number), number, DIFFER)
}

fn compared(bytes: &[u8], mistake: Option<Mistake>) -> usize {
    let number = second::number(bytes);
    match simulation::open(bytes) {
        Ok(run) => if number == 0 {
            played(bytes, run, mistake)
        } else {
            DIFFER
        },
        Err(refusal) => if wide16(refusal.number()) == number {
            refused(refusal, wrapping_add_usize(number, place_of(mistake)))
        } else {
            DIFFER
        },
    }
}

// An input outside the buffer would be a fault of this test.
fn outcome(kind: Kind, case: usize, mistake: Option<Mistake>, buffer: &mut [u8]) -> usize {
    let end = inputs::make(kind, case, buffer);
    if end > buffer.len() {
        DIFFER
    } else {
        compared(&buffer[..end], mistake)
    }
}

fn report(
    rt: &impl Print,
    name: &str,
    kind: Kind,
    cases: Range<usize>,
    mistaken: bool,
    buffer: &mut [u8],
) -> io::Result<()> {
    let mut tally = [0usize; DIFFER + 1];
    for case in cases {
        let mistake = if mistaken {
            Some(mistake_of(case))
        } else {
            None
        };
        let n = clip(outcome(kind, case, mistake, buffer), DIFFER);
        tally[n] = wrapping_add_usize(tally[n], 1);
    }
    print!(rt; "{name}")?;
    print_counts(rt, "answered", &tally)
}

fn main(rt: HostRuntime) -> io::Result<()> {
    let mut buffer = [0u8; 65536];
    report(&rt, "whole:    ", Kind::Whole, 0..6000, false, &mut buffer)?;
    report(
        &rt,
        "damaged:  ",
        Kind::Damaged,
        10000..18000,
        false,
        &mut buffer,
    )?;
    report(
        &rt,
        "hostile:  ",
        Kind::Hostile,
        20000..28000,
        false,
        &mut buffer,
    )?;
    report(
        &rt,
        "mistaken: ",
        Kind::Whole,
        30000..30200,
        true,
        &mut buffer,
    )
}
