// The places of a window: its totals, oldest first, and what stands past them. They are lent whole, so that nothing is copied.
ghost use Rattle.std.specs.Prelude.{◌≡◌, [], ◌∷◌, ◌++◌, ◌*◌, ◌^◌, ◌<◌, ◌≤◌, nat_abs, take, drop};
ghost use Rattle.windows.specs.Runs.{sum_of, largest_of, all_zero};
ghost use Rattle.windows.specs.Windows.{max_span};

use crate::Window;

pub(crate) fn sum_of(totals: &[i32; Window::MAX_SPAN], held: usize) -> i64
    requires { held ≤ max_span }
    ensures is { result ≡ sum_of (take held totals.now) }
    ensures small { nat_abs result ≤ max_span * 2 ^ 31 }
{
    let mut sum = 0;
    for &total in &totals[..held] {
        sum += total as i64;
    }
    sum
}

pub(crate) fn largest_of(totals: &[i32; Window::MAX_SPAN], held: usize) -> i32
    requires { (0 < held) × (held ≤ max_span) }
    ensures { result ≡ largest_of (take held totals.now) }
{
    let mut best = totals[0];
    for &total in &totals[1..held] {
        if best < total {
            best = total;
        }
    }
    best
}

// Whether nothing but 0 stands past those held. It looks at every place, so that the machine can take several at once.
pub(crate) fn all_zero(totals: &[i32; Window::MAX_SPAN], held: usize) -> bool
    ensures { result ≡ all_zero (drop held totals.now) }
{
    let mut zero = true;
    for k in held..Window::MAX_SPAN {
        zero = zero & (totals[k] == 0);
    }
    zero
}

// The oldest goes, and the newest comes last of those held.
pub(crate) fn shift(totals: &mut [i32; Window::MAX_SPAN], held: usize, newest: i32)
    requires { (0 < held) × (held ≤ max_span) }
    ensures { totals.new ≡ (drop 1 (take held totals.old) ++ (newest ∷ [])) ++ drop held totals.old }
{
    for k in 1..held {
        totals[k - 1] = totals[k];
    }
    totals[held - 1] = newest;
}
