// The second implementation. The whole run is kept, and after so many totals the window, its sum and its largest are worked out afresh from it.
use crate::numbers::{HALF, difference, total};
use arithmetic::Symbol;
use std::num::wrapping_add_usize;
use testing::at;
use windows::Window;

// No run is longer.
pub const LONGEST: usize = 240;

// The place of the first of the last n.
fn first(many: usize, n: usize) -> usize {
    if n < many { many - n } else { 0 }
}

// How many of the last n there are.
pub fn held(many: usize, n: usize) -> usize {
    if n < many { n } else { many }
}

// The sum of the last n, and `more` less `fewer` on top.
pub fn sum(run: &[Symbol], many: usize, n: usize, more: usize, fewer: usize) -> i64 {
    let mut kept = more;
    let mut halves = fewer;
    for i in first(many, n)..many {
        kept = wrapping_add_usize(kept, at(run, i));
        halves = wrapping_add_usize(halves, HALF);
    }
    difference(kept, halves)
}

// The largest of the last n.
pub fn largest(run: &[Symbol], many: usize, n: usize) -> i32 {
    let mut most: usize = 0;
    for i in first(many, n)..many {
        let u = at(run, i);
        if most < u {
            most = u;
        }
    }
    total(most)
}

// The totals of the last n, and 0 past them.
fn totals(run: &[Symbol], many: usize, n: usize) -> [i32; Window::MAX_SPAN] {
    let from = first(many, n);
    let last = held(many, n);
    let mut all = [0; Window::MAX_SPAN];
    for k in 0..Window::MAX_SPAN {
        if k < last {
            all[k] = total(at(run, wrapping_add_usize(from, k)));
        }
    }
    all
}

pub fn window(run: &[Symbol], many: usize, n: usize) -> Window {
    let last = totals(run, many, n);
    Window {
        span: n,
        held: held(many, n),
        totals: last,
        sum: sum(run, many, n, 0, 0),
    }
}
