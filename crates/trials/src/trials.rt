// One round on paper.
ghost use Rattle.std.specs.Prelude.{◌≡◌, ◌+◌, ◌<◌, length, Ok};
ghost use Rattle.std.specs.Result.{result_unwrap_or};
ghost use Rattle.refusals.specs.Codes.{accepted, first_of, if_accepted, code_of_result};
ghost use Rattle.lists.specs.Lists.{tab};
ghost use Rattle.trials.specs.Generator.{stepped_by};
ghost use Rattle.trials.specs.Trials.{trial_checks};
ghost use Rattle.trials.specs.Answers.{trial_of, no_trial};
ghost use Rattle.trials.specs.Drawing.{drawn_of, senders_from, Drawn, settled_of};

use crate::draws::{draw, draw_senders, fill_order};
use crate::sums::{BLOCK, relay_sums, total};
use crate::uploads::{mask, show, true_sum};
use crate::{Settled, Trial};
use arithmetic::Symbol;
use plans::{Plan, check_plan};
use refusals::Refusal;
use signed::show_totals;

// 1, 4, 2, 3 and 16. Showing a total judges the cap as every signed call does, and 0 is a symbol.
fn check_trial(plan: Plan, table: &[Symbol], cap: u32) -> Result<(), Refusal>
    ensures { code_of_result result ≡ first_of (trial_checks plan table.now cap) }
{
    check_plan(plan, table)?;
    let totals = [0 as Symbol; BLOCK];
    let mut shown = [0i32; BLOCK];
    show_totals(plan, cap, BLOCK, &totals, &mut shown)
}

// The key symbols, then the readings in index order, then the senders.
fn draw_round(
    plan: Plan,
    cap: u32,
    state: u32,
    source: &mut [Symbol],
    readings: &mut [Symbol],
    order: &mut [usize],
) -> u32
    requires { (0 < plan.q) × (cap < 4294967295) }
    ensures state { result
        ≡ stepped_by (length order.old) (stepped_by (length readings.old) (stepped_by (length source.old) state)) }
    ensures source { source.new ≡ drawn_of plan.q state (length source.old) }
    ensures readings { readings.new
        ≡ drawn_of (cap + 1) (stepped_by (length source.old) state) (length readings.old) }
    ensures order { order.new
        ≡ senders_from (stepped_by (length readings.old) (stepped_by (length source.old) state)) (length order.old)
        (tab (length order.old) (λ i. i)) }
{
    let keyed = draw(plan.q, state, source);
    let read = draw(cap + 1, keyed, readings);
    fill_order(order);
    draw_senders(read, order)
}

// From what was drawn to relay 1's sum and the shown total.
fn settle(
    plan: Plan,
    table: &[Symbol],
    cap: u32,
    number: u32,
    source: &[Symbol],
    readings: &[Symbol],
    order: &[usize],
) -> Result<Settled, Refusal>
    requires { Drawn plan table.now cap source.now readings.now order.now }
    ensures { result ≡ Ok (settled_of plan table.now source.now readings.now) }
{
    let users = readings.len();
    let clusters = plan.clusters;
    let mut uploads = [0 as Symbol; Plan::MAX_USERS];
    mask(plan, table, cap, source, readings, &mut uploads[..users])?;
    let mut sums = [0 as Symbol; Plan::MAX_CLUSTERS];
    relay_sums(
        plan,
        number,
        &uploads[..users],
        order,
        &mut sums[..clusters],
    )?;
    let sum = total(plan, number, &sums[..clusters])?;
    let shown = show(plan, cap, sum)?;
    Ok(Settled {
        first: sums[0],
        shown,
    })
}

// The round of a plan and a cap that are good.
fn make_trial(
    plan: Plan,
    table: &[Symbol],
    cap: u32,
    number: u32,
    state: u32,
) -> Result<Trial, Refusal>
    requires { accepted ≡ first_of (trial_checks plan table.now cap) }
    ensures { result ≡ Ok (trial_of plan table.now cap state) }
{
    let rate = plan.rate;
    let users = plan.clusters * plan.size;
    let mut source = [0 as Symbol; Plan::MAX_RATE];
    let mut readings = [0 as Symbol; Plan::MAX_USERS];
    let mut order = [0usize; Plan::MAX_USERS];
    let after = draw_round(
        plan,
        cap,
        state,
        &mut source[..rate],
        &mut readings[..users],
        &mut order[..users],
    );
    let settled = settle(
        plan,
        table,
        cap,
        number,
        &source[..rate],
        &readings[..users],
        &order[..users],
    )?;
    Ok(Trial {
        last: order[users - 1],
        first: settled.first,
        sum: true_sum(&readings[..users]),
        shown: settled.shown,
        state: after,
    })
}

// One round, whatever plan, table, cap and state it is given. Its number is that of its frames.
pub fn try_round(
    plan: Plan,
    table: &[Symbol],
    cap: u32,
    number: u32,
    state: u32,
) -> Result<Trial, Refusal>
    ensures code { code_of_result result ≡ first_of (trial_checks plan table.now cap) }
    ensures trial { result_unwrap_or result no_trial
        ≡ if_accepted (first_of (trial_checks plan table.now cap)) (trial_of plan table.now cap state) no_trial }
{
    check_trial(plan, table, cap)?;
    make_trial(plan, table, cap, number, state)
}
