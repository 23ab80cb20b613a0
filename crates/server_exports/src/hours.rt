// The rolling hour. A window is handed over in parts: its span, how many totals it holds, their sum, and its places.
ghost use Rattle.std.specs.Prelude.{◌≡◌, []};
ghost use Rattle.refusals.specs.Codes.{if_accepted};
ghost use Rattle.windows.specs.Windows.{open_code, window_of, window_code, pushed_window, given_sum, largest_code, given_largest};
ghost use Rattle.boundary.specs.Packed.{packed};
ghost use Rattle.server_exports.specs.States.{window_from};

use boundary::{hand_over, pack, pack_verdict};
use windows::{Window, push_total};

// A window that holds no total yet, where the span is not refused.
#[unsafe(no_mangle)]
pub extern "C" fn kortyghai_window_open(
    span: usize,
    held: &mut usize,
    sum: &mut i64,
    totals: &mut [i32; Window::MAX_SPAN],
) -> u64
    ensures code { result ≡ packed (open_code span) }
    ensures window { window_from span held.new sum.new totals.new
        ≡ if_accepted (open_code span) (window_of span []) (window_from span held.old sum.old totals.old) }
{
    match Window::open(span) {
        Ok(window) => {
            let none = window.totals;
            *held = window.held;
            *sum = window.sum;
            *totals = none;
            0
        }
        Err(refusal) => pack(refusal.code()),
    }
}

// One total more.
#[unsafe(no_mangle)]
pub extern "C" fn kortyghai_window_push(
    span: usize,
    held: &mut usize,
    sum: &mut i64,
    totals: &mut [i32; Window::MAX_SPAN],
    total: i32,
) -> u64
    ensures code { result ≡ packed (window_code (window_from span held.old sum.old totals.old)) }
    ensures window { window_from span held.new sum.new totals.new
        ≡ pushed_window (window_from span held.old sum.old totals.old) total }
{
    let step = push_total(totals, span, *held, *sum, total);
    *held = step.state.held;
    *sum = step.state.sum;
    pack_verdict(step.answer)
}

// The sum of the totals that are held.
#[unsafe(no_mangle)]
pub extern "C" fn kortyghai_window_sum(
    span: usize,
    held: usize,
    sum: i64,
    totals: &[i32; Window::MAX_SPAN],
    out: &mut i64,
) -> u64
    ensures code { result ≡ packed (window_code (window_from span held sum totals.now)) }
    ensures out { out.new ≡ if_accepted (window_code (window_from span held sum totals.now))
        (given_sum (window_from span held sum totals.now)) out.old }
{
    let window = Window {
        span,
        held,
        totals: *totals,
        sum,
    };
    hand_over(window.sum(), out)
}

// The largest of the totals that are held.
#[unsafe(no_mangle)]
pub extern "C" fn kortyghai_window_largest(
    span: usize,
    held: usize,
    sum: i64,
    totals: &[i32; Window::MAX_SPAN],
    out: &mut i32,
) -> u64
    ensures code { result ≡ packed (largest_code (window_from span held sum totals.now)) }
    ensures out { out.new ≡ if_accepted (largest_code (window_from span held sum totals.now))
        (given_largest (window_from span held sum totals.now)) out.old }
{
    let window = Window {
        span,
        held,
        totals: *totals,
        sum,
    };
    hand_over(window.largest(), out)
}
