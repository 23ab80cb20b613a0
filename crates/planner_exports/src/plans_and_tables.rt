// The test for primes, the vet, how long it is, and the table maker. U, V, T, R and q of a plan are lent in one run.
ghost use Rattle.std.specs.Prelude.{◌≡◌};
ghost use Rattle.refusals.specs.Codes.{first_of, if_accepted};
ghost use Rattle.vetting.specs.Vet.{vet_code};
ghost use Rattle.vetting.specs.Joint.{joint_code, joint_looked};
ghost use Rattle.vetting.specs.Length.{count_checks, pair_count};
ghost use Rattle.keys.specs.Maker.{rate_of, rate_checks};
ghost use Rattle.boundary.specs.Packed.{packed};
ghost use Rattle.boundary.specs.Counts.{plan_of};
ghost use Rattle.planner_exports.specs.Asked.{prime_checks, joint_of, asked_code, asked_table, made_counts};

use crate::records_of_plans::counts_of;
use arithmetic::Symbol;
use boundary::{PLAN_NUMBERS, hand_over, pack, pack_verdict, plan_of};
use refusals::{Refusal, refuse_unless};
use vetting::RelayPair;

// Whether q may be a plan's: 2 where it is no prime.
#[unsafe(no_mangle)]
pub extern "C" fn kortyghai_check_prime(q: Symbol) -> u64
    ensures { result ≡ packed (first_of (prime_checks q)) }
{
    pack_verdict(refuse_unless(primes::is_prime(q), Refusal::NotPrime))
}

// The vet's verdict on a plan and its key table.
#[unsafe(no_mangle)]
pub extern "C" fn kortyghai_vet(plan: &[Symbol; PLAN_NUMBERS], table: &[Symbol]) -> u64
    ensures { result ≡ packed (vet_code (plan_of plan.now) table.now) }
{
    pack_verdict(vetting::vet(plan_of(*plan), table))
}

fn joint_of(first: usize, second: usize) -> Option<RelayPair>
    ensures { result ≡ joint_of first second }
{
    if first == 0 && second == 0 {
        None
    } else {
        Some(RelayPair { first, second })
    }
}

// The same with the number of pairs that were looked at, and with two relays under one lock, if any are; two zeros stand for none.
#[unsafe(no_mangle)]
pub extern "C" fn kortyghai_vet_joint(
    plan: &[Symbol; PLAN_NUMBERS],
    table: &[Symbol],
    first: usize,
    second: usize,
    looked: &mut u32,
) -> u64
    ensures code { result ≡ packed (joint_code (plan_of plan.now) table.now (joint_of first second)) }
    ensures looked { looked.new ≡ joint_looked (plan_of plan.now) table.now (joint_of first second) }
{
    let report = vetting::vet_joint(plan_of(*plan), table, joint_of(first, second));
    *looked = report.looked;
    pack_verdict(report.verdict)
}

// How many pairs the vet looks at before it accepts a plan with these counts.
#[unsafe(no_mangle)]
pub extern "C" fn kortyghai_count_pairs(
    clusters: usize,
    size: usize,
    limit: usize,
    out: &mut u32,
) -> u64
    ensures code { result ≡ packed (first_of (count_checks clusters size limit)) }
    ensures out { out.new ≡ if_accepted (first_of (count_checks clusters size limit)) (pair_count clusters size limit) out.old }
{
    hand_over(vetting::count_pairs(clusters, size, limit), out)
}

// The rate that the table maker will need for these counts.
#[unsafe(no_mangle)]
pub extern "C" fn kortyghai_rate(clusters: usize, size: usize, limit: usize, out: &mut usize) -> u64
    ensures code { result ≡ packed (first_of (rate_checks clusters size limit)) }
    ensures out { out.new ≡ if_accepted (first_of (rate_checks clusters size limit)) (rate_of clusters size limit) out.old }
{
    hand_over(keys::rate_needed(clusters, size, limit), out)
}

// The table maker: fills the lent table and the plan's rate, where nothing is refused. What stood in the rate's place decides nothing.
#[unsafe(no_mangle)]
pub extern "C" fn kortyghai_make_table(
    plan: &mut [Symbol; PLAN_NUMBERS],
    generator: Symbol,
    table: &mut [Symbol],
) -> u64
    ensures code { result ≡ packed (asked_code plan.old generator table.old) }
    ensures plan { plan.new
        ≡ if_accepted (asked_code plan.old generator table.old) (made_counts plan.old) plan.old }
    ensures table { table.new ≡ asked_table plan.old generator table.old }
{
    let asked = plan_of(*plan);
    match keys::make_table(
        asked.clusters,
        asked.size,
        asked.limit,
        asked.q,
        generator,
        table,
    ) {
        Ok(made) => {
            *plan = counts_of(made);
            0
        }
        Err(refusal) => pack(refusal.code()),
    }
}
