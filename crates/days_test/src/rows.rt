// Every run of source keys under both days, a row of what is seen for each; and how often each row occurs.
use crate::keys_of::{fill_keys, fill_sums, fill_uploads};
use crate::machines::{relay_day, server_day};
use crate::numbers::{ALIKE, ANSWERS, APART, CALLS, REFUSED, ROW, RUNS, VARY, is_member};
use crate::readings::{fill_first, fill_second};
use crate::shapes::{Kind, Setup, set_up};
use arithmetic::Symbol;
use std::num::wrapping_add_usize;
use testing::{at, clip, mul_add, over, power, product, put, wide};

#[derive(Clone, Copy, Debug, PartialEq, Eq)]
pub struct Seen {
    pub outcome: usize,
    pub transcripts: usize,
}

// What is seen of the calls, by whoever watches.
fn watch(s: Setup, uploads: &[Symbol], row: &mut [Symbol]) {
    if s.observer == 0 {
        let mut sums = [0 as Symbol; 16];
        fill_sums(s, uploads, &mut sums);
        server_day(s, &sums, row);
    } else if s.other == 0 {
        relay_day(s, s.observer, 0, uploads, row);
    } else {
        relay_day(s, s.observer, 0, uploads, row);
        relay_day(s, s.other, CALLS, uploads, row);
    }
}

// The coalition's keys, behind what is seen of the calls.
fn put_known(coalition: usize, keys: &[Symbol], row: &mut [Symbol]) {
    for i in 0usize..16 {
        let member = is_member(coalition, i / 2 % 4);
        let known = over(member, at(keys, i), 0);
        put(row, wrapping_add_usize(3 * ANSWERS, i), known);
    }
}

// The day under one run of source keys; 0 where no upload is refused.
fn fill_row(s: Setup, readings: &[Symbol], keys: &[Symbol], row: &mut [Symbol]) -> usize {
    let mut uploads = [0 as Symbol; 16];
    let number = fill_uploads(s, readings, keys, &mut uploads);
    watch(s, &uploads, row);
    put_known(s.coalition, keys, row);
    number
}

fn row_of(rows: &mut [Symbol], run: usize) -> &mut [Symbol] {
    let from = clip(product(run, ROW), rows.len());
    &mut rows[from..]
}

fn fill_rows(
    s: Setup,
    runs: usize,
    first: &[Symbol],
    second: &[Symbol],
    rows: &mut [Symbol],
    others: &mut [Symbol],
) -> usize {
    let mut numbers: usize = 0;
    for run in 0..runs {
        let mut keys = [0 as Symbol; 16];
        fill_keys(s, run, 0, &mut keys);
        fill_keys(s, run, 1, &mut keys);
        numbers = numbers | fill_row(s, first, &keys, row_of(rows, run));
        numbers = numbers | fill_row(s, second, &keys, row_of(others, run));
    }
    numbers
}

// Whether row i of the one and row j of the other begin with the same n numbers.
fn same_row(rows: &[Symbol], i: usize, others: &[Symbol], j: usize, n: usize) -> bool {
    for p in 0..n {
        if at(rows, mul_add(p, i, ROW)) != at(others, mul_add(p, j, ROW)) {
            return false;
        }
    }
    true
}

// How many of the first rows are row i of the others.
fn count_rows(rows: &[Symbol], runs: usize, others: &[Symbol], i: usize, n: usize) -> usize {
    let mut many: usize = 0;
    for j in 0..runs {
        if same_row(rows, j, others, i, n) {
            many = wrapping_add_usize(many, 1);
        }
    }
    many
}

// Each row that occurs under the first day is looked at once, where it occurs first.
fn compare(rows: &[Symbol], others: &[Symbol], runs: usize) -> Seen {
    let mut outcome = ALIKE;
    let mut transcripts: usize = 0;
    for i in 0..runs {
        if count_rows(rows, i, rows, i, ROW) == 0 {
            transcripts = wrapping_add_usize(transcripts, 1);
            if count_rows(rows, runs, rows, i, ROW) != count_rows(others, runs, rows, i, ROW) {
                outcome = APART;
            }
        }
    }
    Seen {
        outcome,
        transcripts,
    }
}

fn answers_vary(rows: &[Symbol], others: &[Symbol], runs: usize) -> bool {
    count_rows(rows, runs, rows, 0, ANSWERS) != runs
        || count_rows(others, runs, rows, 0, ANSWERS) != runs
}

pub fn judged(kind: Kind, case: usize) -> Seen {
    let s = set_up(kind, case);
    let plan = s.plan;
    let symbols = product(wrapping_add_usize(s.first, s.second), plan.rate);
    let runs = clip(power(65536, wide(plan.q), symbols), RUNS);
    let mut first = [0 as Symbol; 16];
    fill_first(s, &mut first);
    let mut second = [0 as Symbol; 16];
    fill_second(s, &first, &mut second);
    let mut rows = [0 as Symbol; 11016];
    let mut others = [0 as Symbol; 11016];
    if fill_rows(s, runs, &first, &second, &mut rows, &mut others) > 0 {
        Seen {
            outcome: REFUSED,
            transcripts: 0,
        }
    } else if answers_vary(&rows, &others, runs) {
        Seen {
            outcome: VARY,
            transcripts: 0,
        }
    } else {
        compare(&rows, &others, runs)
    }
}
