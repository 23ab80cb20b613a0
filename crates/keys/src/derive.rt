// Individual keys: each user's symbols, from its row of the key table and a source key.
ghost use Rattle.std.specs.Prelude.{◌≡◌, ℕ, ◌+◌, ◌*◌, ◌<◌, ◌≤◌, true, length};
ghost use Rattle.refusals.specs.Codes.{first_of, code_of_result};
ghost use Rattle.lists.specs.Lists.{at, tab, join_to};
ghost use Rattle.secrecy.specs.Model.{sum_so_far};
ghost use Rattle.plans.specs.Plans.{users_of, in_bounds};
ghost use Rattle.keys.specs.Keys.{keys_of, block_checks, key_code, keys_after, unvetted_code, unvetted_after};

use crate::columns::turn;
use crate::products::{add_products, reciprocal_of};
use crate::verdict::verdict_on;
use arithmetic::{Symbol, Wide};
use plans::{Plan, check_plan, length_fits};
use refusals::{Refusal, refuse_unless};

// The largest source key.
const LARGEST: usize = Plan::MAX_RATE * Plan::MAX_LENGTH;

// One product more in every position: from the sums after k products to those after k + 1.
fn add_product(
    q: Symbol,
    reciprocal: Wide,
    row: &[Symbol],
    turned: &[Symbol],
    k: usize,
    keys: &mut [Symbol],
)
    requires { (k < length row.now) × (at row.now k < q) × (reciprocal * q < 18446744073709551616) × (18446744073709551616 ≤ reciprocal * q + q)
        × (length turned.now ≡ length row.now * length keys.old)
        × ((j p : ℕ) → j < length row.now → p < length keys.old → at turned.now (j * length keys.old + p) < q)
        × (keys.old ≡ tab (length keys.old) (λ p. sum_so_far q (at row.now) (λ j. at turned.now (j * length keys.old + p)) k)) }
    ensures { keys.new
        ≡ tab (length keys.old)
        (λ p. sum_so_far q (at row.now) (λ j. at turned.now (j * length keys.old + p)) (k + 1)) }
{
    let positions = keys.len();
    let from = k * positions;
    add_products(q, reciprocal, row[k], &turned[from..from + positions], keys);
}

// The keys of the user with this row: its products with the source symbols from the first to the last. What is held in each position is always the sum so far.
fn user_keys(q: Symbol, reciprocal: Wide, row: &[Symbol], turned: &[Symbol], keys: &mut [Symbol])
    requires { (0 < q) × (reciprocal * q < 18446744073709551616) × (18446744073709551616 ≤ reciprocal * q + q)
        × ((k : ℕ) → k < length row.now → at row.now k < q) × (length turned.now ≡ length row.now * length keys.old)
        × ((j p : ℕ) → j < length row.now → p < length keys.old → at turned.now (j * length keys.old + p) < q) }
    ensures { keys.new
        ≡ tab (length keys.old)
        (λ p. sum_so_far q (at row.now) (λ j. at turned.now (j * length keys.old + p)) (length row.now)) }
{
    keys.fill(0);
    for k in 0..row.len() {
        add_product(q, reciprocal, row, turned, k, keys);
    }
}

// User by user, by each one's row, with one reciprocal of q for all.
fn users_keys(
    plan: Plan,
    table: &[Symbol],
    positions: usize,
    turned: &[Symbol],
    keys: &mut [Symbol],
)
    requires { (0 < plan.q) × (users_of plan ≤ 16) × (length table.now ≡ users_of plan * plan.rate)
        × (length turned.now ≡ plan.rate * positions) × (length keys.old ≡ users_of plan * positions)
        × ((x : ℕ) → at table.now x < plan.q)
        × ((k p : ℕ) → k < plan.rate → p < positions → at turned.now (k * positions + p) < plan.q) }
    ensures { keys.new
        ≡ join_to (users_of plan) (λ i. tab positions (λ p. sum_so_far plan.q (λ k. at table.now (i * plan.rate + k))
        (λ k. at turned.now (k * positions + p)) plan.rate)) }
{
    let users = plan.clusters * plan.size;
    let rate = plan.rate;
    let reciprocal = reciprocal_of(plan.q);
    for i in 0..users {
        let row = &table[i * rate..i * rate + rate];
        let from = i * positions;
        user_keys(
            plan.q,
            reciprocal,
            row,
            turned,
            &mut keys[from..from + positions],
        );
    }
}

// The same from a source key, which is turned once for all users.
fn write_turned(
    plan: Plan,
    table: &[Symbol],
    positions: usize,
    source: &[Symbol],
    turned: &mut [Symbol],
    keys: &mut [Symbol],
)
    requires { (0 < plan.q) × (users_of plan ≤ 16) × (length table.now ≡ users_of plan * plan.rate)
        × (length source.now ≡ positions * plan.rate) × (length keys.old ≡ users_of plan * positions)
        × (length turned.old ≡ plan.rate * positions)
        × ((x : ℕ) → at table.now x < plan.q) × ((x : ℕ) → at source.now x < plan.q) }
    ensures { keys.new ≡ keys_of plan table.now positions source.now }
{
    turn(plan.rate, positions, source, turned);
    users_keys(plan, table, positions, turned, keys);
}

// The same, with room to turn the largest source key in.
fn write_keys(
    plan: Plan,
    table: &[Symbol],
    positions: usize,
    source: &[Symbol],
    keys: &mut [Symbol],
)
    requires { (0 < plan.q) × (users_of plan ≤ 16) × (length table.now ≡ users_of plan * plan.rate)
        × (length source.now ≡ positions * plan.rate) × (length keys.old ≡ users_of plan * positions)
        × (plan.rate ≤ 16) × (positions ≤ 64)
        × ((x : ℕ) → at table.now x < plan.q) × ((x : ℕ) → at source.now x < plan.q) }
    ensures { keys.new ≡ keys_of plan table.now positions source.now }
{
    let n = plan.rate * positions;
    let mut turned = [0 as Symbol; LARGEST];
    write_turned(plan, table, positions, source, &mut turned[..n], keys);
}

// The blocks of a plan within its bounds: 9, 4, 3.
fn check_blocks(
    plan: Plan,
    length: usize,
    source: &[Symbol],
    keys: &[Symbol],
) -> Result<(), Refusal>
    requires { in_bounds plan ≡ true }
    ensures { code_of_result result ≡ first_of (block_checks plan length source.now keys.now) }
{
    refuse_unless(length_fits(length), Refusal::BadBlockLength)?;
    let symbols = length * plan.rate;
    let dealt = plan.clusters * plan.size * length;
    refuse_unless(
        source.len() == symbols && keys.len() == dealt,
        Refusal::WrongLength,
    )?;
    refuse_unless(arithmetic::all_below(plan.q, source), Refusal::NotASymbol)
}

// The vet's refusals first, then those of the blocks.
fn check_keys(
    plan: Plan,
    table: &[Symbol],
    length: usize,
    source: &[Symbol],
    keys: &[Symbol],
) -> Result<(), Refusal>
    ensures { code_of_result result ≡ key_code plan table.now length source.now keys.now }
{
    verdict_on(plan, table)?;
    check_blocks(plan, length, source, keys)
}

// The refusals of plan and table first, without the vet's own.
fn check_unvetted(
    plan: Plan,
    table: &[Symbol],
    length: usize,
    source: &[Symbol],
    keys: &[Symbol],
) -> Result<(), Refusal>
    ensures { code_of_result result ≡ unvetted_code plan table.now length source.now keys.now }
{
    check_plan(plan, table)?;
    check_blocks(plan, length, source, keys)
}

// Each user's keys for `length` positions, user by user, for a plan that the vet accepts.
pub fn derive_keys(
    plan: Plan,
    table: &[Symbol],
    length: usize,
    source: &[Symbol],
    keys: &mut [Symbol],
) -> Result<(), Refusal>
    ensures code { code_of_result result ≡ key_code plan table.now length source.now keys.old }
    ensures keys { keys.new ≡ keys_after plan table.now length source.now keys.old }
{
    check_keys(plan, table, length, source, keys)?;
    write_keys(plan, table, length, source, keys);
    Ok(())
}

// The same keys without a vet: for a plan that was vetted once and deals many times, or for trials.
pub fn derive_unvetted(
    plan: Plan,
    table: &[Symbol],
    length: usize,
    source: &[Symbol],
    keys: &mut [Symbol],
) -> Result<(), Refusal>
    ensures code { code_of_result result ≡ unvetted_code plan table.now length source.now keys.old }
    ensures keys { keys.new ≡ unvetted_after plan table.now length source.now keys.old }
{
    check_unvetted(plan, table, length, source, keys)?;
    write_keys(plan, table, length, source, keys);
    Ok(())
}
