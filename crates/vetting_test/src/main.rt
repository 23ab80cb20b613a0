// Holds the vet to a second one that counts views one by one, and writes how many plans got which answer, and how many answers differ.
#![tactic(auto)]

mod cases;
mod counting;
mod expected;
mod figures;
mod joint;
mod numbers;
mod tables;
mod wrong;

use arithmetic::Symbol;
use cases::{Case, Group};
use numbers::{first_of, number_of, pack};
use plans::Plan;
use refusals::Refusal;
use std::io;
use std::num::wrapping_add_usize;
use tables::Shape;
use testing::{narrow, wide16};

// One symbol more than the largest table has.
pub(crate) const LONGEST: usize = 257;

pub(crate) fn plan_of(s: Shape) -> Plan {
    Plan {
        clusters: s.clusters,
        size: s.size,
        limit: s.limit,
        rate: s.rate,
        q: narrow(s.q),
    }
}

pub(crate) fn said(verdict: Result<(), Refusal>) -> usize {
    let code = refusals::code_of_result(&verdict);
    pack(wide16(code.number), wide16(code.first), wide16(code.second))
}

// How many pairs are looked at before an answer: up to the one that it names, all where nothing is refused, and none before another refusal.
pub(crate) fn looked_at(s: Shape, answer: usize) -> usize {
    let number = number_of(answer);
    if number == 0 || number == 7 {
        counting::place_of(s, answer)
    } else {
        0
    }
}

// In the last group a table that no other check refuses is all zeros: relay 1 sees every reading of its cluster.
fn leak(c: Case, t: &[Symbol], counts: &mut [u8; 65536]) -> usize {
    if c.group == Group::WrongInputs {
        pack(7, 0, 1)
    } else {
        counting::leak_of(cases::shape(c), t, counts)
    }
}

// The answer of the second implementation.
pub(crate) fn second_answer(c: Case, t: &[Symbol], counts: &mut [u8; 65536]) -> usize {
    let refused = expected::refusal(cases::shape(c), t);
    if refused != 0 {
        refused
    } else {
        leak(c, t, counts)
    }
}

// The number of an answer; 7 is told apart by who learns something: a relay alone, 9 a relay with a coalition, 10 the server.
fn class(answer: usize) -> usize {
    let number = number_of(answer);
    if number != 7 {
        number
    } else if answer % 65536 == 0 {
        10
    } else if first_of(answer) == 0 {
        7
    } else {
        9
    }
}

// Whether the vet says the same with its count, which is right, and whether a plan is accepted without its walk just where the vet accepts it.
fn says_again(s: Shape, t: &[Symbol], answer: usize) -> bool {
    if vetting::accepts(plan_of(s), t) != (answer == 0) {
        return false;
    }
    let report = vetting::vet_counted(plan_of(s), t);
    said(report.verdict) == answer && report.looked as usize == looked_at(s, answer)
}

// The class of the answer, or 8 where the two answers differ.
fn compare(c: Case, t: &mut [Symbol], counts: &mut [u8; 65536]) -> usize {
    cases::fill(c, t);
    let s = cases::shape(c);
    let answer = said(vetting::vet(plan_of(s), t));
    if !says_again(s, t, answer) || answer != second_answer(c, t, counts) {
        8
    } else {
        class(answer)
    }
}

fn outcome(c: Case, counts: &mut [u8; 65536]) -> usize {
    let n = cases::length(c);
    if n > LONGEST {
        return 8;
    }
    let mut t = [0 as Symbol; LONGEST];
    compare(c, &mut t[..n], counts)
}

fn increase(tally: &mut [usize; 11], n: usize) {
    if n < 11 {
        tally[n] = wrapping_add_usize(tally[n], 1);
    }
}

fn count(group: Group, counts: &mut [u8; 65536], tally: &mut [usize; 11], total: &mut [usize; 11]) {
    for number in 0..group.cases() {
        let n = outcome(Case { group, number }, counts);
        increase(tally, n);
        increase(total, n);
    }
}

fn print_line(rt: &impl Print, name: &str, tally: &[usize; 11]) -> io::Result<()> {
    print!(rt; "{name}: {} accepted, ", tally[0])?;
    for number in [1usize, 2, 3, 4, 6] {
        print!(rt; "{} refused {number}, ", tally[number])?;
    }
    print!(rt; "{} refused 7 (relay alone), ", tally[7])?;
    print!(rt; "{} refused 7 (relay and coalition), ", tally[9])?;
    println!(rt; "{} refused 7 (server), {} differ", tally[10], tally[8])
}

fn report(
    rt: &impl Print,
    group: Group,
    counts: &mut [u8; 65536],
    total: &mut [usize; 11],
) -> io::Result<()> {
    let mut tally = [0usize; 11];
    count(group, counts, &mut tally, total);
    print_line(rt, group.name(), &tally)
}

fn main(rt: HostRuntime) -> io::Result<()> {
    let mut counts = [0u8; 65536];
    let mut total = [0usize; 11];
    for group in [
        Group::TinyTwo,
        Group::TinyThree,
        Group::TinyFive,
        Group::SmallPool,
        Group::WrongInputs,
    ] {
        report(&rt, group, &mut counts, &mut total)?;
    }
    print_line(&rt, "total", &total)?;
    figures::report(&rt)?;
    joint::report(&rt, &mut counts)
}
