// Two days' readings: user by user, round by round, each at its place. The second day's agree with the first's on the coalition's members and, where they are
// to be balanced, on the total of each round and position.
use crate::numbers::{is_member, place};
use crate::shapes::Setup;
use arithmetic::Symbol;
use std::num::{wrapping_add_usize, wrapping_sub_usize};
use testing::{at, clip, fill, narrow, over, put, residue, seed, wide};

// Signed readings are drawn from 0, 1 and -1.
fn cap_all(t: &mut [Symbol], q: usize) {
    for i in 0..t.len() {
        let a = at(t, i);
        put(t, i, over(a > 1, wrapping_sub_usize(q, 1), a));
    }
}

fn draw_day(s: Setup, x: usize, t: &mut [Symbol]) {
    let plan = s.plan;
    fill(t, wide(plan.q), x);
    if s.signed {
        cap_all(t, wide(plan.q));
    }
}

// The first day is drawn.
pub fn fill_first(s: Setup, t: &mut [Symbol]) {
    draw_day(s, seed(s.x), t);
}

fn sum(t: &[Symbol], users: usize, k: usize, p: usize) -> usize {
    let mut n: usize = 0;
    for i in 0..users {
        n = wrapping_add_usize(n, at(t, place(k, i, p)));
    }
    n
}

// The last user outside the coalition.
fn outsider(coalition: usize, users: usize) -> usize {
    let mut last: usize = 0;
    for i in 0..users {
        if !is_member(coalition, i) {
            last = i;
        }
    }
    last
}

// The last outsider's reading makes up for what the others' differ by.
fn balance(s: Setup, first: &[Symbol], t: &mut [Symbol], k: usize, p: usize) {
    let plan = s.plan;
    let users = wrapping_add_usize(plan.rate, 1);
    let q = wide(plan.q);
    let i = place(k, outsider(s.coalition, users), p);
    let want = wrapping_add_usize(sum(first, users, k, p), q * 8);
    let rest = wrapping_sub_usize(sum(t, users, k, p), at(t, i));
    put(t, i, residue(wrapping_sub_usize(want, rest), q));
}

fn copy_members(coalition: usize, first: &[Symbol], t: &mut [Symbol]) {
    for i in 0..t.len() {
        let member = is_member(coalition, i / 2 % 4);
        put(t, i, over(member, at(first, i), at(t, i)));
    }
}

pub fn fill_second(s: Setup, first: &[Symbol], t: &mut [Symbol]) {
    draw_day(s, seed(seed(s.x)), t);
    copy_members(s.coalition, first, t);
    if s.balanced {
        balance(s, first, t, 0, 0);
        balance(s, first, t, 0, 1);
        balance(s, first, t, 1, 0);
        balance(s, first, t, 1, 1);
    }
}

// A symbol of q 5 as a signed reading.
static SIGNED_OF: [i32; 5] = [0, 1, -3, -2, -1];

pub fn signed_of(a: usize) -> i32 {
    SIGNED_OF[clip(a, 4)]
}

pub fn pair(t: &[Symbol], i: usize) -> [Symbol; 2] {
    [narrow(at(t, i)), narrow(at(t, wrapping_add_usize(i, 1)))]
}
