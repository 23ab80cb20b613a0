// Whole rounds: every user's readings are sent under keys that add up to 0 modulo q, and what is shown of the sums is the true sum of the readings.
use crate::calls::{given_back, totalled};
use crate::drawn::{drawn_reading, fill_readings, plan_of};
use crate::model::{DIFFER, Shape, UNSHOWN, UNTOUCHED, largest_cap};
use crate::numbers::{of_reading, plus, reading_at};
use arithmetic::Symbol;
use plans::Plan;
use std::num::{wrapping_add_usize, wrapping_sub_usize};
use testing::{at, mul_add, narrow, over, product, put, residue, seed, state, wide};

// A symbol that two users share: one adds it to its key, and the one before takes it off.
fn shared(q: usize, x: usize, user: usize, p: usize) -> usize {
    residue(state(x, mul_add(p, user, 64)), q)
}

// The user's own symbols less those of the next user, who is the first after the last.
fn fill_keys(t: &mut [Symbol], q: usize, x: usize, user: usize, next: usize) {
    for p in 0..t.len() {
        let off = wrapping_sub_usize(q, shared(q, x, next, p));
        put(
            t,
            p,
            residue(wrapping_add_usize(shared(q, x, user, p), off), q),
        );
    }
}

fn add(sums: &mut [Symbol], block: &[Symbol], q: usize) {
    for p in 0..sums.len() {
        put(
            sums,
            p,
            residue(wrapping_add_usize(at(sums, p), at(block, p)), q),
        );
    }
}

fn true_sum(cap: usize, x: usize, users: usize, p: usize) -> i64 {
    let mut sum: i64 = 0;
    for user in 0..users {
        let y = seed(wrapping_add_usize(x, user));
        sum = plus(sum, of_reading(drawn_reading(cap, y, p)));
    }
    sum
}

fn holds_sums(cap: usize, x: usize, users: usize, shown: &[i32]) -> bool {
    for p in 0..shown.len() {
        if reading_at(shown, p) != true_sum(cap, x, users, p) {
            return false;
        }
    }
    true
}

// 0 where nothing is refused and nothing differs.
fn sent(s: Shape, x: usize, user: usize, next: usize, sums: &mut [Symbol]) -> usize {
    let plan = s.plan;
    let q = wide(plan.q);
    let mut readings = [0i32; Plan::MAX_LENGTH];
    fill_readings(
        &mut readings,
        wide(s.cap),
        seed(wrapping_add_usize(x, user)),
    );
    let mut key = [0 as Symbol; Plan::MAX_LENGTH];
    fill_keys(&mut key, q, x, user, next);
    let mut out = [UNTOUCHED; Plan::MAX_LENGTH];
    let mut shown = [UNSHOWN; Plan::MAX_LENGTH];
    let number = given_back(s, &readings, &key, &mut out, &mut shown);
    add(sums, &out, q);
    number
}

fn all_sent(s: Shape, x: usize, users: usize, sums: &mut [Symbol]) -> usize {
    let mut numbers = 0;
    for user in 0..users {
        let next = residue(wrapping_add_usize(user, 1), users);
        numbers = numbers | sent(s, x, user, next, sums);
    }
    numbers
}

// The largest cap in every second round.
pub fn round(case: usize) -> usize {
    let x = seed(case);
    let plan = plan_of(x, 24, 16);
    let users = product(plan.clusters, plan.size);
    let largest = largest_cap(plan);
    let less = wrapping_add_usize(residue(state(x, 17), largest), 1);
    let cap = over(case % 2 == 0, largest, less);
    let s = Shape {
        plan,
        cap: narrow(cap),
        length: Plan::MAX_LENGTH,
    };
    let mut sums = [0 as Symbol; Plan::MAX_LENGTH];
    let numbers = all_sent(s, x, users, &mut sums);
    let mut shown = [UNSHOWN; Plan::MAX_LENGTH];
    let number = totalled(s, &sums, &mut shown);
    let same = numbers == 0 && holds_sums(cap, x, users, &shown);
    over(same, number, DIFFER)
}
