// All small inputs: blocks of one number, with every q below 60, every cap to 35, and 1, 2, 4 or 16 users.
use crate::calls::{Call, asked};
use crate::model::{Shape, UNSHOWN, UNTOUCHED};
use crate::numbers::reading;
use plans::Plan;
use testing::{clip, narrow};

// How many inputs there are of one number, and how many with each key from 0 to 60, so that every symbol is among them, and q and more.
pub const SINGLES: usize = 630720;

pub const KEYED: usize = 38473920;

static CLUSTERS: [usize; 4] = [1, 2, 2, 8];

fn clusters(n: usize) -> usize {
    CLUSTERS[clip(n, 3)]
}

// Readings from -36 to 36; or as many symbols from 0 on, so that q and more are among them.
pub fn answer(call: Call, case: usize) -> usize {
    let q = case % 60;
    let users = case / 2160 % 4;
    let n = case / 8640 % 73;
    let plan = Plan {
        clusters: clusters(users),
        size: users / 2 + 1,
        limit: 1,
        rate: 1,
        q: narrow(q),
    };
    let s = Shape {
        plan,
        cap: narrow(case / 60 % 36),
        length: 1,
    };
    let readings = [reading(n)];
    let symbols = [narrow(n)];
    let key = [narrow(case / SINGLES % 61)];
    let mut out = [UNTOUCHED];
    let mut shown = [UNSHOWN];
    asked(call, s, &readings, &symbols, &key, &mut out, &mut shown)
}
