// The entries of server_exports, under their names, for one archive of all of them.
ghost use Rattle.std.specs.Prelude.{◌≡◌, []};
ghost use Rattle.refusals.specs.Codes.{if_accepted};
ghost use Rattle.windows.specs.Windows.{open_code, window_of, window_code, pushed_window, given_sum, largest_code, given_largest};
ghost use Rattle.boundary.specs.Packed.{packed};
ghost use Rattle.server_exports.specs.States.{window_from, server_of, server_open_code};
ghost use Rattle.lists.specs.Lists.{zeros};
ghost use Rattle.rounds.specs.Ledger.{frame};
ghost use Rattle.rounds.specs.Rounds.{server_code, server_next, server_give_code, server_sums};
ghost use Rattle.plans.specs.Plans.{max_length};
ghost use Rattle.signed.specs.SignedBlocks.{totals_code, totals_after};
ghost use Rattle.boundary.specs.Counts.{plan_of};

use arithmetic::Symbol;
use boundary::PLAN_NUMBERS;
use plans::Plan;
use windows::Window;

// How many numbers of a round are lent in one run, and where each stands.
const COUNTS: usize = 4;

// A window that holds no total yet, where the span is not refused.
#[unsafe(no_mangle)]
pub extern "C" fn kortyghai_window_open(
    span: usize,
    held: &mut usize,
    sum: &mut i64,
    totals: &mut [i32; Window::MAX_SPAN],
) -> u64
    ensures code { result ≡ packed (open_code span) }
    ensures window { window_from span held.new sum.new totals.new
        ≡ if_accepted (open_code span) (window_of span []) (window_from span held.old sum.old totals.old) }
{
    server_exports::kortyghai_window_open(span, held, sum, totals)
}

// One total more.
#[unsafe(no_mangle)]
pub extern "C" fn kortyghai_window_push(
    span: usize,
    held: &mut usize,
    sum: &mut i64,
    totals: &mut [i32; Window::MAX_SPAN],
    total: i32,
) -> u64
    ensures code { result ≡ packed (window_code (window_from span held.old sum.old totals.old)) }
    ensures window { window_from span held.new sum.new totals.new
        ≡ pushed_window (window_from span held.old sum.old totals.old) total }
{
    server_exports::kortyghai_window_push(span, held, sum, totals, total)
}

// The sum of the totals that are held.
#[unsafe(no_mangle)]
pub extern "C" fn kortyghai_window_sum(
    span: usize,
    held: usize,
    sum: i64,
    totals: &[i32; Window::MAX_SPAN],
    out: &mut i64,
) -> u64
    ensures code { result ≡ packed (window_code (window_from span held sum totals.now)) }
    ensures out { out.new ≡ if_accepted (window_code (window_from span held sum totals.now))
        (given_sum (window_from span held sum totals.now)) out.old }
{
    server_exports::kortyghai_window_sum(span, held, sum, totals, out)
}

// The largest of the totals that are held.
#[unsafe(no_mangle)]
pub extern "C" fn kortyghai_window_largest(
    span: usize,
    held: usize,
    sum: i64,
    totals: &[i32; Window::MAX_SPAN],
    out: &mut i32,
) -> u64
    ensures code { result ≡ packed (largest_code (window_from span held sum totals.now)) }
    ensures out { out.new ≡ if_accepted (largest_code (window_from span held sum totals.now))
        (given_largest (window_from span held sum totals.now)) out.old }
{
    server_exports::kortyghai_window_largest(span, held, sum, totals, out)
}

// A round in which nobody has reported, where the counts are not refused. Any number will do for a round, so that none is asked.
#[unsafe(no_mangle)]
pub extern "C" fn kortyghai_server_open(
    counts: &[Symbol; COUNTS],
    reported: &mut u16,
    sums: &mut [Symbol; Plan::MAX_LENGTH],
) -> u64
    ensures code { result ≡ packed (server_open_code counts.now) }
    ensures bits { reported.new ≡ if_accepted (server_open_code counts.now) 0 reported.old }
    ensures sums { sums.new ≡ if_accepted (server_open_code counts.now) (zeros max_length) sums.old }
{
    server_exports::kortyghai_server_open(counts, reported, sums)
}

// A relay's sums into the round; `said` is the round number that the frame has.
#[unsafe(no_mangle)]
pub extern "C" fn kortyghai_server_count(
    counts: &[Symbol; COUNTS],
    number: u32,
    reported: &mut u16,
    sums: &mut [Symbol; Plan::MAX_LENGTH],
    sender: usize,
    said: u32,
    block: &[Symbol],
) -> u64
    ensures answer { result ≡ packed (server_code (server_of counts.now number reported.old sums.old)
        (frame sender said block.now)) }
    ensures bits { reported.new ≡ (server_next (server_of counts.now number reported.old sums.old)
        (frame sender said block.now)).round.reported }
    ensures totals { sums.new ≡ (server_next (server_of counts.now number reported.old sums.old)
        (frame sender said block.now)).round.sums }
{
    server_exports::kortyghai_server_count(counts, number, reported, sums, sender, said, block)
}

// The total, once every relay has reported: put in the lent block, where nothing is refused.
#[unsafe(no_mangle)]
pub extern "C" fn kortyghai_server_give(
    counts: &[Symbol; COUNTS],
    number: u32,
    reported: u16,
    sums: &[Symbol; Plan::MAX_LENGTH],
    out: &mut [Symbol],
) -> u64
    ensures code { result ≡ packed (server_give_code (server_of counts.now number reported sums.now) out.old) }
    ensures out { out.new ≡ server_sums (server_of counts.now number reported sums.now) out.old }
{
    server_exports::kortyghai_server_give(counts, number, reported, sums, out)
}

// A block of totals as signed numbers, where nothing is refused.
#[unsafe(no_mangle)]
pub extern "C" fn kortyghai_show_totals(
    plan: &[Symbol; PLAN_NUMBERS],
    cap: u32,
    length: usize,
    totals: &[Symbol],
    out: &mut [i32],
) -> u64
    ensures code { result ≡ packed (totals_code (plan_of plan.now) cap length totals.now out.old) }
    ensures out { out.new ≡ totals_after (plan_of plan.now) cap length totals.now out.old }
{
    server_exports::kortyghai_show_totals(plan, cap, length, totals, out)
}
