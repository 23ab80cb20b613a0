// The verdict on a plan and its key table.
ghost use Rattle.std.specs.Prelude.{◌≡◌, ◌-◌, ◌*◌, ◌≤◌, ◌<◌, true, length};
ghost use Rattle.refusals.specs.Codes.{accepted, first_of, code_of_result};
ghost use Rattle.plans.specs.Plans.{users_of, in_bounds};
ghost use Rattle.vetting.specs.Walk.{observers};
ghost use Rattle.vetting.specs.Vet.{other_checks, vet_code, column_checks};
ghost use Rattle.vetting.specs.Length.{looked_at};
ghost use Rattle.vetting.specs.Walking.{found_code};

use crate::under_lock::vet_joint;
use crate::walk::{column_sum, find_leak};
use crate::{Pair, Report};
use arithmetic::Symbol;
use plans::Plan;
use refusals::Refusal;

// The relays, and the server.
const MOST_OBSERVERS: usize = Plan::MAX_CLUSTERS + 1;

// Check 6.
pub(crate) fn check_columns(plan: Plan, table: &[Symbol]) -> Result<(), Refusal>
    requires { (in_bounds plan ≡ true) × (length table.now ≡ users_of plan * plan.rate) × (0 < plan.q) }
    ensures { code_of_result result ≡ first_of (column_checks plan table.now) }
{
    let users = plan.clusters * plan.size;
    for k in 0..plan.rate {
        if column_sum(plan.q, users, plan.rate, k, table) != 0 {
            return Err(Refusal::NotZeroSum {
                column: k as u16 + 1,
            });
        }
    }
    Ok(())
}

// The verdict of what the walk finds.
fn told(found: Option<Pair>) -> Result<(), Refusal>
    ensures { code_of_result result ≡ found_code found }
{
    match found {
        Some(pair) => Err(Refusal::Leaks {
            coalition: pair.coalition,
            observer: pair.observer,
        }),
        None => Ok(()),
    }
}

// Relays 1 to U, and then 0 for the server.
fn fill_observers(watching: &mut [u16])
    requires { (1 ≤ length watching.old) × (length watching.old ≤ 9) }
    ensures { watching.new ≡ observers (length watching.old - 1) }
{
    let n = watching.len();
    for i in 0..n {
        watching[i] = ((i + 1) % n) as u16;
    }
}

// What the walk says of a plan and a table that passed every other check.
pub(crate) fn judge(plan: Plan, table: &[Symbol]) -> Report
    requires { accepted ≡ first_of (other_checks plan table.now) }
    ensures code { code_of_result result.verdict ≡ vet_code plan table.now }
    ensures looked { result.looked ≡ looked_at plan table.now }
{
    let mut watching = [0u16; MOST_OBSERVERS];
    let n = plan.clusters + 1;
    fill_observers(&mut watching[..n]);
    let walked = find_leak(plan, table, 0, &watching[..n]);
    Report {
        verdict: told(walked.found),
        looked: walked.looked,
    }
}

// Whether a plan with this key table keeps readings secret from every observer and every coalition of at most T users: the first pair that leaks
// is named. Where the plan or the table is no good the walk never starts, and nothing was looked at.
pub fn vet_counted(plan: Plan, table: &[Symbol]) -> Report
    ensures code { code_of_result result.verdict ≡ vet_code plan table.now }
    ensures looked { result.looked ≡ looked_at plan table.now }
{
    vet_joint(plan, table, None)
}

// The same without the count.
pub fn vet(plan: Plan, table: &[Symbol]) -> Result<(), Refusal>
    ensures { code_of_result result ≡ vet_code plan table.now }
{
    vet_counted(plan, table).verdict
}
