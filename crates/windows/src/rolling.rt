// Windows: opened, pushed into, and asked.
ghost use Rattle.std.specs.Prelude.{◌≡◌, true, [], ◌*◌, ◌^◌, ◌≤◌, pos, nat_abs, replicate};
ghost use Rattle.std.specs.Result.{result_unwrap_or};
ghost use Rattle.refusals.specs.Codes.{code_of_result};
ghost use Rattle.windows.specs.Windows.{max_span, span_fits, is_window, window_of, open_code, opened_window, window_code, pushed_window};
ghost use Rattle.windows.specs.Windows.{given_sum, largest_code, given_largest};

use crate::places::{all_zero, largest_of, shift, sum_of};
use crate::{Tally, Window};
use refusals::{Refusal, Step, refuse_unless};

fn span_fits(span: usize) -> bool
    ensures { result ≡ span_fits span }
{
    1 <= span && span <= Window::MAX_SPAN
}

fn no_totals() -> [i32; Window::MAX_SPAN]
    ensures { result ≡ replicate max_span (pos 0) }
{
    [0; Window::MAX_SPAN]
}

// Whether a run leaves the window of these parts. Then the sum is small, so that one total more or less cannot overflow it.
fn is_left(span: usize, held: usize, sum: i64, totals: &[i32; Window::MAX_SPAN]) -> bool
    ensures is { result ≡ is_window (record { span = span; held = held; totals = totals.now; sum = sum }) }
    ensures small { result ≡ true → nat_abs sum ≤ max_span * 2 ^ 31 }
{
    span_fits(span) && held <= span && all_zero(totals, held) && sum_of(totals, held) == sum
}

// One total more into a window whose totals are lent, so that none is copied; where there is no room, the oldest makes it.
pub fn push_total(
    totals: &mut [i32; Window::MAX_SPAN],
    span: usize,
    held: usize,
    sum: i64,
    total: i32,
) -> Step<Tally>
    ensures code { code_of_result result.answer ≡ window_code (record { span = span; held = held; totals = totals.old; sum = sum }) }
    ensures window { record { span = span; held = result.state.held; totals = totals.new; sum = result.state.sum }
        ≡ pushed_window (record { span = span; held = held; totals = totals.old; sum = sum }) total }
{
    if !is_left(span, held, sum, totals) {
        return Step::refused(Refusal::BadWindow, Tally { held, sum });
    }
    if held < span {
        totals[held] = total;
        return Step::made(Tally {
            held: held + 1,
            sum: sum + total as i64,
        });
    }
    let oldest = totals[0];
    shift(totals, held, total);
    Step::made(Tally {
        held,
        sum: sum - oldest as i64 + total as i64,
    })
}

impl Window {
    // The longest span.
    pub const MAX_SPAN: usize = 96;

    fn empty(span: usize) -> Window
        ensures { result ≡ window_of span [] }
    {
        Window {
            span,
            held: 0,
            totals: no_totals(),
            sum: 0,
        }
    }

    // A window over the last `span` totals. The promise also fixes the bound that stands above by name.
    pub fn open(span: usize) -> Result<Window, Refusal>
        ensures code { code_of_result result ≡ open_code span }
        ensures window { result_unwrap_or result (window_of 0 []) ≡ opened_window span }
        ensures longest { Window.MAX_SPAN ≡ max_span }
    {
        refuse_unless(span_fits(span), Refusal::BadWindow)?;
        Ok(Window::empty(span))
    }

    // One total more; where there is no room, the oldest makes it. A window that is refused is handed back.
    pub fn push(mut self, total: i32) -> Step<Window>
        ensures code { code_of_result result.answer ≡ window_code self }
        ensures window { result.state ≡ pushed_window self total }
    {
        let next = push_total(&mut self.totals, self.span, self.held, self.sum, total);
        self.held = next.state.held;
        self.sum = next.state.sum;
        Step {
            answer: next.answer,
            state: self,
        }
    }

    // Whether some run of totals leaves it: 17.
    fn check_left(&self) -> Result<(), Refusal>
        ensures { code_of_result result ≡ window_code self.now }
    {
        refuse_unless(
            is_left(self.span, self.held, self.sum, &self.totals),
            Refusal::BadWindow,
        )
    }

    // The sum of the totals that are held.
    pub fn sum(self) -> Result<i64, Refusal>
        ensures code { code_of_result result ≡ window_code self }
        ensures value { result_unwrap_or result (pos 0) ≡ given_sum self }
    {
        self.check_left()?;
        Ok(self.sum)
    }

    // The largest of the totals that are held.
    pub fn largest(self) -> Result<i32, Refusal>
        ensures code { code_of_result result ≡ largest_code self }
        ensures value { result_unwrap_or result (pos 0) ≡ given_largest self }
    {
        self.check_left()?;
        refuse_unless(self.held != 0, Refusal::NotFull)?;
        Ok(largest_of(&self.totals, self.held))
    }
}
