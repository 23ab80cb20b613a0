// A plan and the key table that is lent beside it.
ghost use Rattle.std.specs.Prelude.{◌≡◌};
ghost use Rattle.refusals.specs.Codes.{first_of, code_of_result};
ghost use Rattle.plans.specs.Plans.{table_checks};

use crate::Plan;
use arithmetic::{Symbol, all_below};
use primes::is_prime;
use refusals::{Refusal, refuse_unless};

// Checks 1, 4, 2 and 3.
pub fn check_plan(plan: Plan, table: &[Symbol]) -> Result<(), Refusal>
    ensures { code_of_result result ≡ first_of (table_checks plan table.now) }
{
    refuse_unless(plan.in_bounds(), Refusal::OutOfBounds)?;
    refuse_unless(
        table.len() == plan.clusters * plan.size * plan.rate,
        Refusal::WrongLength,
    )?;
    refuse_unless(is_prime(plan.q), Refusal::NotPrime)?;
    refuse_unless(all_below(plan.q, table), Refusal::NotASymbol)
}
