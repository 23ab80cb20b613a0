// Tiny pools that the vet accepts: as many rows as users, the first ones unit rows, and the last one such that the columns sum to zero.
use crate::numbers::pick;
use arithmetic::Symbol;
use plans::Plan;
use std::num::{wrapping_add_usize, wrapping_sub_usize};
use testing::{clip, over, power, product, put, quotient, residue, seed, wide};

// A pool and its two rounds; who watches (0: the server), with which coalition; and what a kind of case changes.
#[derive(Clone, Copy, Debug, PartialEq, Eq)]
pub struct Setup {
    pub plan: Plan,
    pub first: usize,
    pub second: usize,
    pub observer: usize,
    pub other: usize,
    pub coalition: usize,
    pub x: usize,
    pub signed: bool,
    pub balanced: bool,
    pub apart: bool,
}

// Of two, three and four users: U, V, T and R.
static COUNTS: [[usize; 4]; 5] = [
    [2, 1, 0, 1],
    [3, 1, 1, 2],
    [2, 2, 1, 3],
    [4, 1, 1, 3],
    [2, 1, 0, 1],
];

static MODULUS: [Symbol; 5] = [3, 2, 2, 2, 5];

fn pool(n: usize) -> Plan {
    let place = clip(n, 4);
    let [clusters, size, limit, rate] = COUNTS[place];
    Plan {
        clusters,
        size,
        limit,
        rate,
        q: MODULUS[place],
    }
}

fn entry(plan: Plan, user: usize, column: usize) -> usize {
    if user == plan.rate {
        wrapping_sub_usize(wide(plan.q), 1)
    } else {
        over(user == column, 1, 0)
    }
}

pub fn fill_table(plan: Plan, t: &mut [Symbol]) {
    for i in 0..t.len() {
        put(
            t,
            i,
            entry(plan, quotient(i, plan.rate), residue(i, plan.rate)),
        );
    }
}

// As many members as the limit has, or one more; with nobody in every fourth case.
fn coalition(plan: Plan, x: usize, more: usize) -> usize {
    let users = wrapping_add_usize(plan.rate, 1);
    let i = pick(x, 3, users);
    let members = wrapping_add_usize(plan.limit, more);
    let one = power(65536, 2, i);
    let two = power(65536, 2, residue(wrapping_add_usize(i, 1), users));
    match members {
        0 => 0,
        1 => over(more == 0 && pick(x, 4, 4) == 0, 0, one),
        _ => wrapping_add_usize(one, two),
    }
}

// Blocks of one or two symbols, so that there are at most 81 runs of source keys.
fn length(n: usize, x: usize, k: usize) -> usize {
    match n {
        0 => pick(x, 5, 2) % 2 + 1,
        1 => (pick(x, 5, 2) % 2 + k % 2) % 2 + 1,
        _ => 1,
    }
}

// What a kind of cases looks at, or asks beyond what is promised: totals that differ, one source key for both rounds, a coalition above the limit.
#[derive(Clone, Copy, Debug, PartialEq, Eq)]
pub enum Kind {
    Relay,
    Server,
    UnderLock,
    Signed,
    OtherTotals,
    OneKeyTwice,
    AboveLimit,
}

impl Kind {
    // No two kinds have a seed in common.
    fn first_seed(self) -> usize {
        match self {
            Kind::Relay => 0,
            Kind::Server => 1000,
            Kind::UnderLock => 2000,
            Kind::Signed => 3000,
            Kind::OtherTotals => 4000,
            Kind::OneKeyTwice => 5000,
            Kind::AboveLimit => 6000,
        }
    }
}

fn observer(plan: Plan, x: usize, kind: Kind) -> usize {
    match kind {
        Kind::Relay | Kind::UnderLock => wrapping_add_usize(pick(x, 2, plan.clusters), 1),
        Kind::Server | Kind::OtherTotals => 0,
        _ => pick(x, 2, wrapping_add_usize(plan.clusters, 1)),
    }
}

// The joint pair has four relays; signed readings need a q that leaves room for a cap.
pub fn set_up(kind: Kind, case: usize) -> Setup {
    let x = seed(wrapping_add_usize(kind.first_seed(), case));
    let n = match kind {
        Kind::UnderLock => 3,
        Kind::Signed => 4,
        _ => case % 4,
    };
    let plan = pool(n);
    let observer = observer(plan, x, kind);
    Setup {
        plan,
        first: length(n, x, 0),
        second: length(n, x, 1),
        observer,
        other: over(kind == Kind::UnderLock, observer % 4 + 1, 0),
        coalition: coalition(plan, x, over(kind == Kind::AboveLimit, 1, 0)),
        x,
        signed: kind == Kind::Signed,
        balanced: observer == 0 && kind != Kind::OtherTotals,
        apart: kind != Kind::OneKeyTwice,
    }
}
