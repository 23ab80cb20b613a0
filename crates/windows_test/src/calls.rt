// One call: an opening, or one on a window that a run leaves, which may have been spoiled.
use crate::afresh;
use crate::afresh::LONGEST;
use crate::numbers::{MOST, compared, number_of, total};
use crate::runs::{Play, fill, length, span};
use crate::spoiled::{drawn, spoil};
use arithmetic::Symbol;
use std::num::wrapping_add_usize;
use testing::{at, clip, is_outside, over, seed};
use windows::Window;

// What a window that no run leaves is refused with.
const BAD: usize = 17;

// A window that is handed in, and what it is refused with.
#[derive(Clone, Copy, Debug, PartialEq, Eq)]
struct Judged {
    window: Window,
    number: usize,
}

// With the fault that is drawn, or with none.
fn handed(run: &[Symbol], many: usize, n: usize, x: usize) -> Judged {
    let good = afresh::window(run, many, n);
    match drawn(good, x) {
        Some(fault) => Judged {
            window: spoil(good, run, many, fault, x),
            number: BAD,
        },
        None => Judged {
            window: good,
            number: 0,
        },
    }
}

// Every span up to twice the longest, then any, or the largest number there is.
pub fn opened(case: usize) -> usize {
    let any = over(case % 2 == 0, MOST, seed(case));
    let n = over(case < 2 * Window::MAX_SPAN, case, any);
    let opening = Window::open(n);
    let outside = is_outside(n, Window::MAX_SPAN);
    let run = [0 as Symbol; LONGEST];
    let right = match opening {
        Ok(window) => window == afresh::window(&run, 0, n),
        Err(_) => outside,
    };
    compared(number_of(&opening), over(outside, BAD, 0), right)
}

// A refused window is handed back as it was.
fn after(given: Judged, run: &[Symbol], many: usize, n: usize) -> Window {
    if given.number > 0 {
        given.window
    } else {
        afresh::window(run, many, n)
    }
}

pub fn pushed(case: usize) -> usize {
    let x = seed(case);
    let n = span(x);
    let many = clip(length(x, n), LONGEST - 1);
    let mut run = [0 as Symbol; LONGEST];
    fill(&mut run, x, Play::Right);
    let given = handed(&run, many, n, x);
    let step = given.window.push(total(at(&run, many)));
    let want = after(given, &run, wrapping_add_usize(many, 1), n);
    compared(number_of(&step.answer), given.number, step.state == want)
}

// Both figures of one window. With no total yet, the sum is given and the largest is 12.
pub fn asked(case: usize) -> usize {
    let x = seed(case);
    let n = span(x);
    let many = clip(length(x, n), LONGEST);
    let mut run = [0 as Symbol; LONGEST];
    fill(&mut run, x, Play::Right);
    let given = handed(&run, many, n, x);
    let number = over(given.number > 0, given.number, over(many == 0, 12, 0));
    let sum = given.window.sum();
    let largest = given.window.largest();
    let right = match sum {
        Ok(sum) => sum == afresh::sum(&run, many, n, 0, 0),
        Err(_) => given.number > 0,
    };
    let same = match largest {
        Ok(largest) => largest == afresh::largest(&run, many, n),
        Err(_) => number > 0,
    };
    let agreed = right && same && number_of(&sum) == given.number;
    compared(number_of(&largest), number, agreed)
}
