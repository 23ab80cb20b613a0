// The vet with relays under one lock, and without, against the same literal counts: tiny plans of three clusters or more, the small pool, which has two, and
// inputs that are no good, each with every pair below.
use crate::cases::{Case, Group};
use crate::counting::joint_leak_of;
use crate::numbers::{first_of, number_of, pack};
use crate::tables::Shape;
use crate::{LONGEST, cases, looked_at, plan_of, said, second_answer};
use arithmetic::Symbol;
use std::io;
use std::num::wrapping_add_usize;
use vetting::RelayPair;

// Places in the tally: the number of the answer, but one more for 19 where it names a coalition of some users, and another for two answers that differ.
const ACCEPTED: usize = 0;

const OUT_OF_BOUNDS: usize = 1;

const NOT_PRIME: usize = 2;

const NOT_A_SYMBOL: usize = 3;

const WRONG_LENGTH: usize = 4;

const NOT_ZERO_SUM: usize = 6;

const LEAKS: usize = 7;

const UNKNOWN_NUMBER: usize = 8;

const JOINT_LEAKS: usize = 19;

const WITH_COALITION: usize = 20;

const DIFFER: usize = 21;

// And the plans whose answer without a pair is as it should be.
const ALONE: usize = 22;

const PLACES: usize = 23;

// Of the tiny plans those that have at least so many.
const CLUSTERS: usize = 3;

// The first 3 fit three clusters, the first 5 four. The others are equal, reversed, or outside: 2^32 + 2 would be cut to 2.
static RELAYS: [[usize; 2]; 10] = [
    [1, 2],
    [1, 3],
    [2, 3],
    [2, 4],
    [3, 4],
    [2, 2],
    [2, 1],
    [3, 1],
    [0, 1],
    [1, 4294967298],
];

fn fit(s: Shape, r: RelayPair) -> bool {
    r.first != 0 && r.second > r.first && r.second <= s.clusters
}

// What is refused before the pair is looked at.
fn comes_first(number: usize) -> bool {
    match number {
        OUT_OF_BOUNDS | WRONG_LENGTH | NOT_PRIME | NOT_A_SYMBOL => true,
        _ => false,
    }
}

// From the answer without a pair: 8 comes after 1, 4, 2 and 3, and before 6 and 7; 19 comes last.
fn expected(s: Shape, r: RelayPair, alone: usize, t: &[Symbol], counts: &mut [u8; 65536]) -> usize {
    if comes_first(number_of(alone)) {
        alone
    } else if !fit(s, r) {
        pack(UNKNOWN_NUMBER, 0, 0)
    } else if alone != ACCEPTED {
        alone
    } else {
        joint_leak_of(s, t, r.first, r.second, counts)
    }
}

// Whether the vet gives this answer, and the count of pairs that goes with it.
fn agrees(s: Shape, t: &[Symbol], joint: Option<RelayPair>, answer: usize) -> bool {
    let report = vetting::vet_joint(plan_of(s), t, joint);
    said(report.verdict) == answer && report.looked as usize == looked_at(s, answer)
}

// Where an answer is counted.
fn place(answer: usize) -> usize {
    let number = number_of(answer);
    if number == JOINT_LEAKS && first_of(answer) != 0 {
        WITH_COALITION
    } else {
        number
    }
}

// The place of the answer with a pair, or that the two answers differ.
fn compare(s: Shape, r: RelayPair, alone: usize, t: &[Symbol], counts: &mut [u8; 65536]) -> usize {
    let answer = expected(s, r, alone, t, counts);
    if agrees(s, t, Some(r), answer) {
        place(answer)
    } else {
        DIFFER
    }
}

fn increase(tally: &mut [usize; PLACES], n: usize) {
    if n < PLACES {
        tally[n] = wrapping_add_usize(tally[n], 1);
    }
}

fn try_pairs(
    s: Shape,
    alone: usize,
    t: &[Symbol],
    counts: &mut [u8; 65536],
    tally: &mut [usize; PLACES],
) {
    for &[first, second] in &RELAYS {
        let relays = RelayPair { first, second };
        increase(tally, compare(s, relays, alone, t, counts));
    }
}

// The slow counts of the answer without a pair are made once, for all comparisons.
fn try_plan(c: Case, t: &mut [Symbol], counts: &mut [u8; 65536], tally: &mut [usize; PLACES]) {
    cases::fill(c, t);
    let s = cases::shape(c);
    let alone = second_answer(c, t, counts);
    let place = if agrees(s, t, None, alone) {
        ALONE
    } else {
        DIFFER
    };
    increase(tally, place);
    try_pairs(s, alone, t, counts, tally);
}

fn is_tried(c: Case) -> bool {
    let s = cases::shape(c);
    s.clusters >= CLUSTERS || c.group == Group::SmallPool || c.group == Group::WrongInputs
}

fn try_case(c: Case, counts: &mut [u8; 65536], tally: &mut [usize; PLACES]) {
    if !is_tried(c) {
        return;
    }
    let n = cases::length(c);
    if n > LONGEST {
        increase(tally, DIFFER);
        return;
    }
    let mut t = [0 as Symbol; LONGEST];
    try_plan(c, &mut t[..n], counts, tally);
}

fn count(group: Group, counts: &mut [u8; 65536], tally: &mut [usize; PLACES]) {
    for number in 0..group.cases() {
        try_case(Case { group, number }, counts, tally);
    }
}

fn print_line(rt: &impl Print, tally: &[usize; PLACES]) -> io::Result<()> {
    let (alone, accepted) = (tally[ALONE], tally[ACCEPTED]);
    print!(rt; "joint pairs: {alone} plans without one as before; {accepted} accepted, ")?;
    print!(rt; "{} refused 1, ", tally[OUT_OF_BOUNDS])?;
    print!(rt; "{} refused 4, ", tally[WRONG_LENGTH])?;
    print!(rt; "{} refused 2, ", tally[NOT_PRIME])?;
    print!(rt; "{} refused 3, ", tally[NOT_A_SYMBOL])?;
    print!(rt; "{} refused 8, ", tally[UNKNOWN_NUMBER])?;
    print!(rt; "{} refused 6, ", tally[NOT_ZERO_SUM])?;
    print!(rt; "{} refused 7, ", tally[LEAKS])?;
    print!(rt; "{} refused 19 (no coalition), ", tally[JOINT_LEAKS])?;
    print!(rt; "{} refused 19 (a coalition), ", tally[WITH_COALITION])?;
    println!(rt; "{} differ", tally[DIFFER])
}

pub fn report(rt: &impl Print, counts: &mut [u8; 65536]) -> io::Result<()> {
    let mut tally = [0usize; PLACES];
    count(Group::TinyTwo, counts, &mut tally);
    count(Group::TinyThree, counts, &mut tally);
    count(Group::SmallPool, counts, &mut tally);
    count(Group::WrongInputs, counts, &mut tally);
    print_line(rt, &tally)
}
