// The plans and their key tables, each made of its number alone: tiny ones in all shapes, the small pool, and inputs that are no good.
use crate::tables::{Shape, make, symbols};
use crate::wrong;
use arithmetic::Symbol;
use testing::{clip, product, put, quotient, residue, seed};

// Tiny plans with q 2, 3 and 5, the small pool, and inputs that are no good.
#[derive(Clone, Copy, Debug, PartialEq, Eq)]
pub enum Group {
    TinyTwo,
    TinyThree,
    TinyFive,
    SmallPool,
    WrongInputs,
}

#[derive(Clone, Copy, Debug, PartialEq, Eq)]
pub struct Case {
    pub group: Group,
    pub number: usize,
}

impl Group {
    pub fn name(self) -> &'static str {
        match self {
            Group::TinyTwo => "tiny plans, q 2",
            Group::TinyThree => "tiny plans, q 3",
            Group::TinyFive => "tiny plans, q 5",
            Group::SmallPool => "small pool",
            Group::WrongInputs => "wrong inputs",
        }
    }

    pub fn cases(self) -> usize {
        match self {
            Group::TinyTwo => 6160,
            Group::TinyThree => 4800,
            Group::TinyFive => 3200,
            Group::SmallPool => 2,
            Group::WrongInputs => wrong::CASES,
        }
    }
}

// 11 grids of users: the first 5 have at most 3, the first 8 at most 4, and no grid has more than 6.
static CLUSTERS: [usize; 11] = [1, 1, 2, 1, 3, 1, 2, 4, 5, 2, 3];

fn clusters(grid: usize) -> usize {
    CLUSTERS[clip(grid, 10)]
}

static SIZE: [usize; 11] = [1, 2, 1, 3, 1, 4, 2, 1, 1, 3, 2];

fn size(grid: usize) -> usize {
    SIZE[clip(grid, 10)]
}

// The first grids with each R up to some number and each T.
fn tiny(q: usize, grids: usize, rates: usize, number: usize) -> Shape {
    let grid = residue(number, grids);
    let rest = quotient(number, grids);
    let clusters = clusters(grid);
    let size = size(grid);
    Shape {
        clusters,
        size,
        limit: residue(quotient(rest, rates), product(clusters, size) + 1),
        rate: residue(rest, rates) % 65536 + 1,
        q,
    }
}

// Accepted with T 1, not with T 2.
fn pool(number: usize) -> Shape {
    Shape {
        clusters: 2,
        size: 2,
        limit: number % 2 + 1,
        rate: 3,
        q: 5,
    }
}

static POOL: [usize; 12] = [1, 0, 0, 1, 2, 4, 1, 4, 1, 2, 4, 0];

fn fill_pool(t: &mut [Symbol]) {
    for i in 0..t.len() {
        put(t, i, POOL[clip(i, 11)]);
    }
}

// Few enough users and small enough q for views that 16 bits tell apart, and at most 125 source keys.
pub fn shape(c: Case) -> Shape {
    match c.group {
        Group::TinyTwo => tiny(2, 11, 4, c.number),
        Group::TinyThree => tiny(3, 8, 3, c.number),
        Group::TinyFive => tiny(5, 5, 2, c.number),
        Group::SmallPool => pool(c.number),
        Group::WrongInputs => wrong::shape(c.number),
    }
}

pub fn length(c: Case) -> usize {
    match c.group {
        Group::WrongInputs => wrong::length(c.number),
        _ => symbols(shape(c)),
    }
}

// From a table of zeros.
pub fn fill(c: Case, t: &mut [Symbol]) {
    match c.group {
        Group::SmallPool => fill_pool(t),
        Group::WrongInputs => wrong::fill(c.number, t),
        _ => make(shape(c), t, seed(seed(c.number))),
    }
}
