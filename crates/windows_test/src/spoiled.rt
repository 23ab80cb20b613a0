// Windows that no run leaves: one thing in them is not as it should be.
use crate::afresh::sum;
use crate::numbers::{MOST, pick};
use arithmetic::Symbol;
use std::num::{wrapping_add_usize, wrapping_sub_usize};
use windows::Window;

// What is wrong: a span or a number of held totals that can't be, a total past those held (the next one, or the last place), a sum that is one off, a total
// that is another one, a held total that is past the span, or one that is not held any more.
#[derive(Clone, Copy, Debug, PartialEq, Eq)]
pub enum Fault {
    NoSpan,
    LongSpan,
    LargestSpan,
    HeldPastSpan,
    LargestHeld,
    PastHeld,
    LastPlace,
    LargerSum,
    SmallerSum,
    OtherTotal,
    ShortSpan,
    FewerHeld,
}

static FAULTS: [Fault; 12] = [
    Fault::NoSpan,
    Fault::LongSpan,
    Fault::LargestSpan,
    Fault::HeldPastSpan,
    Fault::LargestHeld,
    Fault::PastHeld,
    Fault::LastPlace,
    Fault::LargerSum,
    Fault::SmallerSum,
    Fault::OtherTotal,
    Fault::ShortSpan,
    Fault::FewerHeld,
];

// The fault that is drawn for a window, if it can have it: one in three is drawn none.
pub fn drawn(window: Window, x: usize) -> Option<Fault> {
    let n = pick(x, 5, 18);
    if n < 12 && applies(window, FAULTS[n]) {
        Some(FAULTS[n])
    } else {
        None
    }
}

// Whether a window that a run leaves can have the fault: a place past those held, a total that is held, two, or one that is not 0.
fn applies(window: Window, fault: Fault) -> bool {
    let held = window.held;
    match fault {
        Fault::PastHeld | Fault::LastPlace => held < Window::MAX_SPAN,
        Fault::OtherTotal => held > 0,
        Fault::ShortSpan => held > 1,
        Fault::FewerHeld => ends_in_other(window),
        _ => true,
    }
}

// Whether the newest total is not 0.
fn ends_in_other(window: Window) -> bool {
    let held = window.held;
    1 <= held && held <= Window::MAX_SPAN && window.totals[held - 1] != 0
}

// A total that is not the one there.
fn other(window: Window, place: usize) -> i32 {
    if window.totals[place % Window::MAX_SPAN] == 0 {
        1
    } else {
        0
    }
}

// The window that this run leaves, with the fault.
pub fn spoil(mut window: Window, run: &[Symbol], many: usize, fault: Fault, x: usize) -> Window {
    let held = window.held;
    let span = window.span;
    let more = sum(run, many, span, 1, 0);
    let less = sum(run, many, span, 0, 1);
    let past = held % Window::MAX_SPAN;
    let place = pick(x, 8, held) % Window::MAX_SPAN;
    let changed = other(window, place);
    match fault {
        Fault::NoSpan => window.span = 0,
        Fault::LongSpan => window.span = Window::MAX_SPAN + 1,
        Fault::LargestSpan => window.span = MOST,
        Fault::HeldPastSpan => window.held = wrapping_add_usize(span, 1),
        Fault::LargestHeld => window.held = MOST,
        Fault::PastHeld => window.totals[past] = 1,
        Fault::LastPlace => window.totals[Window::MAX_SPAN - 1] = 1,
        Fault::LargerSum => window.sum = more,
        Fault::SmallerSum => window.sum = less,
        Fault::OtherTotal => window.totals[place] = changed,
        Fault::ShortSpan => window.span = wrapping_sub_usize(held, 1),
        Fault::FewerHeld => window.held = wrapping_sub_usize(held, 1),
    }
    window
}
