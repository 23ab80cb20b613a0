// Runs of totals, from an opening on: after each total the window and both figures are held to what the whole run gives.
use crate::afresh::LONGEST;
use crate::numbers::{DIFFER, HALF, WORD, pick, total};
use crate::{afresh, hours};
use arithmetic::Symbol;
use std::num::wrapping_add_usize;
use testing::{at, clip, over, product, put, seed, state};
use windows::Window;

// How a run is played: as it is, with a mistake in the last digit of each total or in the span, or through rounds of a server, whose totals are shown.
#[derive(Clone, Copy, Debug, PartialEq, Eq)]
pub enum Play {
    Right,
    OtherDigit,
    LongerSpan,
    Fed,
}

impl Play {
    // The mistake of a case: either in turn.
    pub fn mistaken(case: usize) -> Play {
        if case % 2 == 0 {
            Play::OtherDigit
        } else {
            Play::LongerSpan
        }
    }
}

// Often a quarter of an hour, one hour or a whole day.
pub fn span(x: usize) -> usize {
    match pick(x, 1, 8) {
        0 => 1,
        1 => 4,
        2 => Window::MAX_SPAN,
        3 => Window::MAX_SPAN - 1,
        _ => pick(x, 2, Window::MAX_SPAN) % Window::MAX_SPAN + 1,
    }
}

// From no total to more than two spans.
pub fn length(x: usize, n: usize) -> usize {
    clip(pick(x, 3, wrapping_add_usize(product(n, 2), 12)), LONGEST)
}

// Total i of a run, as it is kept: all at one end of the 32 bits, all at the other, from end to end, all 0, near 0, at either end by chance, or any.
fn kept(x: usize, i: usize) -> usize {
    match pick(x, 4, 9) {
        0 => 0,
        1 => WORD - 1,
        2 => over(i % 2 == 0, 0, WORD - 1),
        3 => HALF,
        4 => HALF - 5 + pick(x, wrapping_add_usize(i, 10), 11) % 11,
        5 => over(pick(x, wrapping_add_usize(i, 10), 2) == 0, 0, WORD - 1),
        _ => state(x, wrapping_add_usize(i, 10)),
    }
}

pub fn fill(run: &mut [Symbol], x: usize, how: Play) {
    for i in 0..run.len() {
        put(run, i, over(how == Play::Fed, hours::load(i), kept(x, i)));
    }
}

// Whether the window and its figures are those of the run.
fn agrees(window: Window, run: &[Symbol], many: usize, n: usize) -> bool {
    window.sum() == Ok(afresh::sum(run, many, n, 0, 0))
        && window.largest() == Ok(afresh::largest(run, many, n))
        && window == afresh::window(run, many, n)
}

// A mistake is one in the last digit of a total, or a span that is one longer; it shows in the window if not in the figures.
fn given(run: &[Symbol], i: usize, how: Play) -> i32 {
    let u = at(run, i);
    if how == Play::Fed {
        hours::shown(u, i)
    } else {
        total(u ^ over(how == Play::OtherDigit, 1, 0))
    }
}

// Those through rounds have every span in turn.
pub fn played(case: usize, how: Play) -> usize {
    let x = seed(case);
    let n = over(how == Play::Fed, case % Window::MAX_SPAN + 1, span(x));
    let many = over(how == Play::Right, length(x, n), LONGEST);
    let more = over(how == Play::LongerSpan, 1, 0);
    let mut run = [0 as Symbol; LONGEST];
    fill(&mut run, x, how);
    let Ok(mut window) = Window::open(n) else {
        return DIFFER;
    };
    let mut number = 0;
    for i in 0..many {
        let step = window.push(given(&run, i, how));
        window = step.state;
        let right = agrees(
            window,
            &run,
            wrapping_add_usize(i, 1),
            wrapping_add_usize(n, more),
        );
        number = over(right && step.answer.is_ok(), number, DIFFER);
    }
    number
}
