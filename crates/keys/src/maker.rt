// The table maker: the plan with document 000's rate, and a key table for it.
ghost use Rattle.std.specs.Prelude.{◌≡◌, ◌+◌, ◌*◌, ◌/◌, ◌%◌, ◌<◌, ◌≤◌, true, ◌++◌, map, length, take, if◌then◌else◌, nat_eq};
ghost use Rattle.std.specs.Result.{result_unwrap_or};
ghost use Rattle.refusals.specs.Codes.{first_of, if_accepted, code_of_result};
ghost use Rattle.residues.specs.Primes.{is_prime};
ghost use Rattle.residues.specs.Field.{power_of, opposite_of};
ghost use Rattle.lists.specs.Lists.{at, tab};
ghost use Rattle.lists.specs.Sums.{sum_to};
ghost use Rattle.plans.specs.Plans.{users_of, in_bounds, no_plan};
ghost use Rattle.vetting.specs.Walk.{pairs};
ghost use Rattle.vetting.specs.Vet.{leak_check};
ghost use Rattle.keys.specs.Maker.{rate_of, plan_of, entry, made_table, maker_checks, maker_code, maker_plan, maker_table};

use crate::verdict::verdict_on;
use arithmetic::{Symbol, power_mod};
use matrices::copy;
use plans::{Plan, counts_fit};
use primes::is_prime;
use refusals::{Refusal, refuse_unless};

// The largest table.
const LARGEST: usize = Plan::MAX_USERS * Plan::MAX_RATE;

// R, for counts within their bounds: what a relay asks, and what the server asks, which is never more than the users but one.
pub(crate) fn rate_of(clusters: usize, size: usize, limit: usize) -> usize
    requires { (1 ≤ clusters) × (clusters ≤ 8) × (1 ≤ size) × (size ≤ 8) × (limit ≤ 16) }
    ensures { result ≡ rate_of clusters size limit }
{
    let server = (clusters + limit - 1).min(clusters * size - 1);
    (size + limit).max(server)
}

// The symbol whose powers row i holds, from 0: γ to the power i, but 0 in the first row, since 1 followed by zeros are the powers of 0.
fn row_base(q: Symbol, generator: Symbol, i: usize) -> Symbol
    requires { i < 16 }
    ensures { result ≡ (if nat_eq i 0 then 0 else power_of q generator i) }
{
    if i == 0 {
        0
    } else {
        power_mod(q, generator, i as u32)
    }
}

// The powers of one symbol, from the power 0 on.
fn fill_row(q: Symbol, base: Symbol, row: &mut [Symbol])
    requires { length row.old ≤ 16 }
    ensures { row.new ≡ tab (length row.old) (power_of q base) }
{
    for k in 0..row.len() {
        row[k] = power_mod(q, base, k as u32);
    }
}

// All rows but the last.
fn fill_rows(q: Symbol, generator: Symbol, rows: usize, cols: usize, table: &mut [Symbol])
    requires { (2 ≤ q) × (rows ≤ 16) × (cols ≤ 16) × (length table.old ≡ rows * cols) }
    ensures { table.new ≡ tab (rows * cols) (λ x. entry q generator (x / cols) (x % cols)) }
{
    for i in 0..rows {
        let b = i * cols;
        let base = row_base(q, generator, i);
        fill_row(q, base, &mut table[b..b + cols]);
    }
}

// The sum of column k of the first rows.
fn column_sum(q: Symbol, rows: usize, cols: usize, k: usize, table: &[Symbol]) -> Symbol
    requires { (0 < q) × (k < cols) × (rows * cols ≤ length table.now) }
    ensures { result ≡ sum_to rows (λ i. at table.now (i * cols + k)) % q }
{
    let mut sum: Symbol = 0;
    for i in 0..rows {
        sum = arithmetic::add_mod(q, sum, table[i * cols + k]);
    }
    sum
}

// The last row, minus the sum of the others.
fn fill_last(q: Symbol, rows: usize, cols: usize, table: &mut [Symbol])
    requires { (0 < q) × (length table.old ≡ (rows + 1) * cols) }
    ensures { table.new ≡ take (rows * cols) table.old
        ++ tab cols (λ k. opposite_of q (sum_to rows (λ i. at table.old (i * cols + k)) % q)) }
{
    let start = rows * cols;
    for k in 0..cols {
        let sum = column_sum(q, rows, cols, k, table);
        table[start + k] = arithmetic::opposite_mod(q, sum);
    }
}

// The whole table of a plan that has the rate of its counts.
fn fill_table(plan: Plan, generator: Symbol, table: &mut [Symbol])
    requires { (in_bounds plan ≡ true) × (is_prime plan.q ≡ true) × (plan.rate ≡ rate_of plan.clusters plan.size plan.limit)
        × (length table.old ≡ users_of plan * plan.rate) }
    ensures { table.new ≡ made_table plan.clusters plan.size plan.limit plan.q generator }
{
    let rows = plan.clusters * plan.size - 1;
    let m = rows * plan.rate;
    fill_rows(plan.q, generator, rows, plan.rate, &mut table[..m]);
    fill_last(plan.q, rows, plan.rate, table);
}

// Builds the table apart, so that a table that leaks is never written.
fn write_vetted(
    plan: Plan,
    generator: Symbol,
    built: &mut [Symbol],
    table: &mut [Symbol],
) -> Result<(), Refusal>
    requires { (in_bounds plan ≡ true) × (is_prime plan.q ≡ true) × (plan.rate ≡ rate_of plan.clusters plan.size plan.limit)
        × (length built.old ≡ users_of plan * plan.rate) × (length table.old ≡ users_of plan * plan.rate) }
    ensures code { code_of_result result
        ≡ first_of (map (leak_check plan (made_table plan.clusters plan.size plan.limit plan.q generator))
        (pairs plan.clusters plan.size plan.limit)) }
    ensures table { table.new
        ≡ if_accepted (code_of_result result) (made_table plan.clusters plan.size plan.limit plan.q generator) table.old }
{
    fill_table(plan, generator, built);
    verdict_on(plan, built)?;
    copy(built, table);
    Ok(())
}

// The same, with room to build in for the largest table.
fn write_table(plan: Plan, generator: Symbol, table: &mut [Symbol]) -> Result<(), Refusal>
    requires { (in_bounds plan ≡ true) × (is_prime plan.q ≡ true) × (plan.rate ≡ rate_of plan.clusters plan.size plan.limit)
        × (length table.old ≡ users_of plan * plan.rate) }
    ensures code { code_of_result result
        ≡ first_of (map (leak_check plan (made_table plan.clusters plan.size plan.limit plan.q generator))
        (pairs plan.clusters plan.size plan.limit)) }
    ensures table { table.new
        ≡ if_accepted (code_of_result result) (made_table plan.clusters plan.size plan.limit plan.q generator) table.old }
{
    let m = table.len();
    let mut built = [0 as Symbol; LARGEST];
    write_vetted(plan, generator, &mut built[..m], table)
}

// The checks before the vet's, and the plan with the rate of its counts.
fn plan_for(
    clusters: usize,
    size: usize,
    limit: usize,
    q: Symbol,
    generator: Symbol,
    table: &[Symbol],
) -> Result<Plan, Refusal>
    ensures code { code_of_result result ≡ first_of (take 5 (maker_checks clusters size limit q generator table.now)) }
    ensures plan { result_unwrap_or result no_plan ≡ if_accepted (code_of_result result) (plan_of clusters size limit q) no_plan }
{
    refuse_unless(counts_fit(clusters, size, limit), Refusal::OutOfBounds)?;
    refuse_unless(is_prime(q), Refusal::NotPrime)?;
    refuse_unless(generator < q, Refusal::NotASymbol)?;
    refuse_unless(limit < (clusters - 1) * size, Refusal::LimitTooLarge)?;
    let rate = rate_of(clusters, size, limit);
    refuse_unless(table.len() == clusters * size * rate, Refusal::WrongLength)?;
    Ok(Plan {
        clusters,
        size,
        limit,
        rate,
        q,
    })
}

// The plan with the rate of its counts, and its key table in the lent one, where no check refuses and the vet accepts them.
pub fn make_table(
    clusters: usize,
    size: usize,
    limit: usize,
    q: Symbol,
    generator: Symbol,
    table: &mut [Symbol],
) -> Result<Plan, Refusal>
    ensures { (code_of_result result ≡ maker_code clusters size limit q generator table.old)
        × (result_unwrap_or result no_plan ≡ maker_plan clusters size limit q generator table.old)
        × (table.new ≡ maker_table clusters size limit q generator table.old) }
{
    let plan = plan_for(clusters, size, limit, q, generator, table)?;
    write_table(plan, generator, table)?;
    Ok(plan)
}
