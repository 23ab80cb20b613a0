// Uploads, and what the server shows, by the entries of `keys` and `signed`. Nothing is refused here, since the plan, the cap and all symbols are good.
ghost use Rattle.std.specs.Prelude.{◌≡◌, true, ℕ, ◌+◌, ◌%◌, ◌≤◌, ◌<◌, length, Ok};
ghost use Rattle.lists.specs.Lists.{at, tab};
ghost use Rattle.lists.specs.Sums.{sum_to};
ghost use Rattle.residues.specs.Primes.{all_below};
ghost use Rattle.secrecy.specs.Model.{upload};
ghost use Rattle.plans.specs.Plans.{users_of};
ghost use Rattle.vetting.specs.Pools.{pool_of};
ghost use Rattle.signed.specs.Numbers.{shown_of};
ghost use Rattle.trials.specs.Drawing.{Fit, Maskable};

use crate::sums::BLOCK;
use arithmetic::Symbol;
use keys::derive_unvetted;
use plans::Plan;
use refusals::Refusal;
use signed::{show_totals, signed_upload};

// The upload of one user. A drawn reading is not negative.
fn upload(plan: Plan, cap: u32, reading: Symbol, key: &[Symbol]) -> Result<Symbol, Refusal>
    requires { Fit plan cap × (reading ≤ cap) × (length key.now ≡ 1) × (all_below plan.q key.now ≡ true) }
    ensures { result ≡ Ok ((reading + at key.now 0) % plan.q) }
{
    let readings = [reading as i32; BLOCK];
    let mut sent = [0 as Symbol; BLOCK];
    signed_upload(plan, cap, BLOCK, &readings, key, &mut sent)?;
    Ok(sent[0])
}

// User by user.
fn fill_uploads(
    plan: Plan,
    cap: u32,
    readings: &[Symbol],
    keys: &[Symbol],
    uploads: &mut [Symbol],
) -> Result<(), Refusal>
    requires { Fit plan cap × (length readings.now ≡ length uploads.old) × (length keys.now ≡ length uploads.old)
        × ((i : ℕ) → at readings.now i ≤ cap) × (all_below plan.q keys.now ≡ true) × (length uploads.old ≤ 16) }
    ensures made { result ≡ Ok tt }
    ensures uploads { uploads.new
        ≡ tab (length uploads.old) (λ i. (at readings.now i + at keys.now i) % plan.q) }
{
    for (i, sent) in uploads.iter_mut().enumerate() {
        *sent = upload(plan, cap, readings[i], &keys[i..i + 1])?;
    }
    Ok(())
}

// Everyone's upload, with everyone's key of this source key.
pub(crate) fn mask(
    plan: Plan,
    table: &[Symbol],
    cap: u32,
    source: &[Symbol],
    readings: &[Symbol],
    uploads: &mut [Symbol],
) -> Result<(), Refusal>
    requires { Maskable plan table.now cap source.now readings.now × (length uploads.old ≡ users_of plan) }
    ensures made { result ≡ Ok tt }
    ensures uploads { uploads.new
        ≡ tab (users_of plan) (λ i. upload (pool_of plan table.now) 1 readings.now source.now i 0) }
{
    let users = uploads.len();
    let mut keys = [0 as Symbol; Plan::MAX_USERS];
    derive_unvetted(plan, table, BLOCK, source, &mut keys[..users])?;
    fill_uploads(plan, cap, readings, &keys[..users], uploads)
}

// The shown total.
pub(crate) fn show(plan: Plan, cap: u32, total: Symbol) -> Result<i32, Refusal>
    requires { Fit plan cap × (total < plan.q) }
    ensures { result ≡ Ok (shown_of plan.q total) }
{
    let totals = [total; BLOCK];
    let mut shown = [0i32; BLOCK];
    show_totals(plan, cap, BLOCK, &totals, &mut shown)?;
    Ok(shown[0])
}

// The sum of the readings alone, which is far from the end of 32 bits.
pub(crate) fn true_sum(readings: &[Symbol]) -> u32
    requires { (length readings.now ≤ 16) × ((i : ℕ) → at readings.now i < 32768) }
    ensures { result ≡ sum_to (length readings.now) (at readings.now) }
{
    let mut sum: u32 = 0;
    for &reading in readings {
        sum += reading;
    }
    sum
}
