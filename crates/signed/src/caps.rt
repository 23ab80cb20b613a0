// The cap of a plan, and readings inside it.
ghost use Rattle.std.specs.Prelude.{◌≡◌, ◌≤◌};
ghost use Rattle.plans.specs.Plans.{users_of, max_users};
ghost use Rattle.signed.specs.Caps.{cap_fits, all_in_cap};

use crate::numbers::in_cap;
use plans::Plan;

// Whether a total of readings inside the cap, of either sign, has a symbol of its own. With so few users the product fits, whatever the cap is.
pub(crate) fn cap_fits(plan: Plan, cap: u32) -> bool
    requires { users_of plan ≤ max_users }
    ensures { result ≡ cap_fits plan cap }
{
    cap != 0 && 2 * (plan.clusters * plan.size) * (cap as usize) < plan.q as usize
}

// It ends at the first reading outside the cap, so its time tells where that stands; of readings inside the cap it tells nothing.
pub(crate) fn all_in_cap(cap: u32, readings: &[i32]) -> bool
    ensures { result ≡ all_in_cap cap readings.now }
{
    for &w in readings {
        if !in_cap(cap, w) {
            return false;
        }
    }
    true
}
