// Individual keys of a run of source keys, and the uploads and relay sums under them, all by the libraries' own calls.
ghost use Rattle.std.specs.Prelude.{◌≤◌};

use crate::numbers::place;
use crate::readings::{pair, signed_of};
use crate::shapes::{Setup, fill_table};
use arithmetic::Symbol;
use keys::derive_keys;
use masking::upload;
use plans::Plan;
use refusals::Refusal;
use rounds::RelayRound;
use signed::signed_upload;
use std::num::wrapping_add_usize;
use testing::{at, clip, mul_add, over, power, product, put, quotient, residue, wide, wide16};

// The number that was answered; 0 where nothing is refused.
pub fn number_of<T>(answer: &Result<T, Refusal>) -> usize {
    wide16(refusals::code_of_result(answer).number)
}

pub fn length_of(s: Setup, k: usize) -> usize
    ensures { result ≤ 2 }
{
    clip(over(k == 0, s.first, s.second), 2)
}

// Symbols of the source keys of a run, from a place on: the digits of the run's number.
fn fill_source(t: &mut [Symbol], q: usize, run: usize, from: usize) {
    for j in 0..t.len() {
        put(
            t,
            j,
            residue(
                quotient(run, power(65536, q, wrapping_add_usize(from, j))),
                q,
            ),
        );
    }
}

// The keys of round k, each at its place.
fn derived(
    plan: Plan,
    length: usize,
    k: usize,
    table: &[Symbol],
    source: &[Symbol],
    all: &mut [Symbol],
    keys: &mut [Symbol],
) {
    if derive_keys(plan, table, length, source, all).is_ok() {
        spread(length, k, all, keys);
    }
}

// Where the source keys are not apart, the second round begins with the symbols of the first.
pub fn fill_keys(s: Setup, run: usize, k: usize, keys: &mut [Symbol]) {
    let plan = s.plan;
    let length = length_of(s, k);
    let users = wrapping_add_usize(plan.rate, 1);
    let mut table = [0 as Symbol; 12];
    fill_table(plan, &mut table);
    let mut source = [0 as Symbol; 6];
    let from = over(s.apart && k == 1, product(s.first, plan.rate), 0);
    fill_source(&mut source, wide(plan.q), run, from);
    let mut all = [0 as Symbol; 8];
    let n = clip(product(users, plan.rate), 12);
    let m = clip(product(length, plan.rate), 6);
    let room = clip(product(users, length), 8);
    derived(
        plan,
        length,
        k,
        &table[..n],
        &source[..m],
        &mut all[..room],
        keys,
    );
}

fn spread(many: usize, k: usize, all: &[Symbol], keys: &mut [Symbol]) {
    for i in 0usize..4 {
        let from = product(i, many);
        put(keys, place(k, i, 0), at(all, from));
        let second = at(all, wrapping_add_usize(from, 1));
        put(keys, place(k, i, 1), over(many == 2, second, 0));
    }
}

// What user i sends in round k; the number that is answered.
fn send(
    s: Setup,
    k: usize,
    i: usize,
    readings: &[Symbol],
    keys: &[Symbol],
    sent: &mut [Symbol],
) -> usize {
    let plan = s.plan;
    let n = length_of(s, k);
    let w = pair(readings, place(k, i, 0));
    let z = pair(keys, place(k, i, 0));
    let mut out = [0 as Symbol; 2];
    let answer = if s.signed {
        let r = [signed_of(wide(w[0])), signed_of(wide(w[1]))];
        signed_upload(plan, 1, n, &r[..n], &z[..n], &mut out[..n])
    } else {
        upload(plan.q, n, &w[..n], &z[..n], &mut out[..n])
    };
    put(sent, place(k, i, 0), wide(out[0]));
    put(sent, place(k, i, 1), wide(out[1]));
    number_of(&answer)
}

// The users' uploads of both rounds; 0 where none is refused.
pub fn fill_uploads(s: Setup, readings: &[Symbol], keys: &[Symbol], sent: &mut [Symbol]) -> usize {
    let plan = s.plan;
    let users = wrapping_add_usize(plan.rate, 1);
    let mut numbers: usize = 0;
    for i in 0..users {
        numbers = numbers | send(s, 0, i, readings, keys, sent);
        numbers = numbers | send(s, 1, i, readings, keys, sent);
    }
    numbers
}

// What relay u, from 0, gives out in round k, once its users have sent.
fn relay_sum(s: Setup, k: usize, u: usize, uploads: &[Symbol]) -> [Symbol; 2] {
    let plan = s.plan;
    let n = length_of(s, k);
    let mut out = [0 as Symbol; 2];
    let number = wrapping_add_usize(u, 1);
    let Ok(mut relay) = RelayRound::open(plan.clusters, plan.size, plan.q, n, number, 7) else {
        return out;
    };
    for v in 0..clip(plan.size, 8) {
        let block = pair(uploads, place(k, mul_add(v, u, plan.size), 0));
        relay = relay.count(wrapping_add_usize(v, 1), 7, &block[..n]).state;
    }
    relay.give(&mut out[..n]);
    out
}

fn put_sum(s: Setup, k: usize, u: usize, uploads: &[Symbol], sums: &mut [Symbol]) {
    let sum = relay_sum(s, k, u, uploads);
    put(sums, place(k, u, 0), wide(sum[0]));
    put(sums, place(k, u, 1), wide(sum[1]));
}

// Of both rounds; what is not a relay's is 0.
pub fn fill_sums(s: Setup, uploads: &[Symbol], sums: &mut [Symbol]) {
    for u in 0usize..4 {
        put_sum(s, 0, u, uploads, sums);
        put_sum(s, 1, u, uploads, sums);
    }
}
