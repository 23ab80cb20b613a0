// The vet with two relays under one lock, whose joint observer is judged after the whole walk.
ghost use Rattle.std.specs.Prelude.{◌≡◌, true, Some};
ghost use Rattle.refusals.specs.Codes.{accepted, first_of, code_of_result};
ghost use Rattle.vetting.specs.Vet.{other_checks, vet_code};
ghost use Rattle.vetting.specs.Length.{looked_at};
ghost use Rattle.vetting.specs.Walking.{joint_found};
ghost use Rattle.vetting.specs.Joint.{relays_fit, relay_checks, joint_checks, checks_before, joint_code, joint_looked};

use crate::checks::{check_columns, judge};
use crate::walk::{find_leak, joint_mask};
use crate::{Pair, RelayPair, Report};
use arithmetic::Symbol;
use plans::{Plan, check_plan};
use refusals::{Refusal, refuse_unless};

// Two of the plan's relays, the lower number first.
fn relays_fit(plan: Plan, first: usize, second: usize) -> bool
    ensures { result ≡ relays_fit plan first second }
{
    1 <= first && first < second && second <= plan.clusters
}

// Check 8.
fn check_relays(plan: Plan, joint: Option<RelayPair>) -> Result<(), Refusal>
    ensures { code_of_result result ≡ first_of (relay_checks plan joint) }
{
    match joint {
        Some(pair) => refuse_unless(
            relays_fit(plan, pair.first, pair.second),
            Refusal::UnknownNumber,
        ),
        None => Ok(()),
    }
}

// Every check before 7: 1, 4, 2, 3, 8, 6.
pub(crate) fn check_before(
    plan: Plan,
    table: &[Symbol],
    joint: Option<RelayPair>,
) -> Result<(), Refusal>
    ensures { code_of_result result ≡ first_of (checks_before plan table.now joint) }
{
    check_plan(plan, table)?;
    check_relays(plan, joint)?;
    check_columns(plan, table)
}

// The verdict of what the walk with the joint observer finds.
fn joint_told(found: Option<Pair>) -> Result<(), Refusal>
    ensures { code_of_result result ≡ joint_found found }
{
    match found {
        Some(pair) => Err(Refusal::JointLeaks {
            coalition: pair.coalition,
        }),
        None => Ok(()),
    }
}

// What that walk says: the same walk, with the joint observer alone, whose number comes after the relays'.
fn judge_joint(plan: Plan, table: &[Symbol], pair: RelayPair) -> Result<(), Refusal>
    requires { (accepted ≡ first_of (other_checks plan table.now)) × (relays_fit plan pair.first pair.second ≡ true) }
    ensures { code_of_result result ≡ first_of (joint_checks plan table.now (Some pair)) }
{
    let users = (plan.clusters * plan.size) as u32;
    let both = joint_mask(
        users,
        plan.size as u32,
        pair.first as u32 - 1,
        pair.second as u32 - 1,
    );
    let watching = [plan.clusters as u16 + 1];
    joint_told(find_leak(plan, table, both, &watching).found)
}

// The report of an accepted plan, once its relays under one lock are judged: nothing of theirs is among the pairs that are counted.
fn report_joint(plan: Plan, table: &[Symbol], pair: RelayPair, looked: u32) -> Report
    requires { (accepted ≡ vet_code plan table.now) × (relays_fit plan pair.first pair.second ≡ true) × (looked ≡ looked_at plan table.now) }
    ensures code { code_of_result result.verdict ≡ joint_code plan table.now (Some pair) }
    ensures looked { result.looked ≡ joint_looked plan table.now (Some pair) }
{
    let verdict = judge_joint(plan, table, pair);
    match verdict {
        Ok(()) => Report { verdict, looked },
        Err(_) => Report { verdict, looked: 0 },
    }
}

// After the walk: a plan that leaks to no single observer is also held to its relays under one lock.
fn with_joint(plan: Plan, table: &[Symbol], joint: Option<RelayPair>, report: Report) -> Report
    requires { (accepted ≡ first_of (checks_before plan table.now joint)) × (code_of_result report.verdict ≡ vet_code plan table.now)
        × (report.looked ≡ looked_at plan table.now) }
    ensures code { code_of_result result.verdict ≡ joint_code plan table.now joint }
    ensures looked { result.looked ≡ joint_looked plan table.now joint }
{
    let Some(pair) = joint else {
        return report;
    };
    match report.verdict {
        Ok(()) => report_joint(plan, table, pair, report.looked),
        Err(_) => report,
    }
}

// The vet, with relays that stand under one lock, if any do: whether the plan keeps readings secret from every observer, and then from whoever sees both
// relays.
pub fn vet_joint(plan: Plan, table: &[Symbol], joint: Option<RelayPair>) -> Report
    ensures code { code_of_result result.verdict ≡ joint_code plan table.now joint }
    ensures looked { result.looked ≡ joint_looked plan table.now joint }
{
    match check_before(plan, table, joint) {
        Ok(()) => with_joint(plan, table, joint, judge(plan, table)),
        Err(refusal) => Report {
            verdict: Err(refusal),
            looked: 0,
        },
    }
}
