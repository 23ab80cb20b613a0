// The vet's verdict, without its walk where the plan is accepted.
ghost use Rattle.std.specs.Prelude.{◌≡◌};
ghost use Rattle.refusals.specs.Codes.{code_of_result};
ghost use Rattle.vetting.specs.Vet.{vet_code};

use arithmetic::Symbol;
use plans::Plan;
use refusals::Refusal;
use vetting::{accepts, vet};

// What the vet says of a plan and its key table: the walk is made only to name a refusal.
pub(crate) fn verdict_on(plan: Plan, table: &[Symbol]) -> Result<(), Refusal>
    ensures { code_of_result result ≡ vet_code plan table.now }
{
    if accepts(plan, table) {
        Ok(())
    } else {
        vet(plan, table)
    }
}
