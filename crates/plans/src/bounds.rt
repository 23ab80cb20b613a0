// The bounds of a plan and of a block, and the plan's constructor.
ghost use Rattle.std.specs.Prelude.{◌≡◌, ◌^◌};
ghost use Rattle.std.specs.Result.{result_unwrap_or};
ghost use Rattle.lists.specs.Search.{one_of};
ghost use Rattle.refusals.specs.Codes.{code_of_result};
ghost use Rattle.plans.specs.Plans.{plan, plan_code, plan_made, no_plan, counts_fit, length_fits, in_bounds};
ghost use Rattle.plans.specs.Plans.{max_clusters, max_size, max_users, max_rate, max_length, LargestPrime};

use crate::Plan;
use arithmetic::Symbol;
use primes::is_prime;
use refusals::{Refusal, refuse_unless};

// Whether U, V and T are within their bounds.
pub fn counts_fit(clusters: usize, size: usize, limit: usize) -> bool
    ensures { result ≡ counts_fit clusters size limit }
{
    1 <= clusters
        && clusters <= Plan::MAX_CLUSTERS
        && 1 <= size
        && size <= Plan::MAX_SIZE
        && clusters * size <= Plan::MAX_USERS
        && limit <= clusters * size
}

// Whether x is one of 1 to n.
pub fn one_of(n: usize, x: usize) -> bool
    ensures { result ≡ one_of n x }
{
    1 <= x && x <= n
}

// Whether a block may have this length.
pub fn length_fits(length: usize) -> bool
    ensures { result ≡ length_fits length }
{
    one_of(Plan::MAX_LENGTH, length)
}

impl Plan {
    pub const MAX_CLUSTERS: usize = 8;

    pub const MAX_SIZE: usize = 8;

    pub const MAX_USERS: usize = 16;

    pub const MAX_RATE: usize = 16;

    // The longest block.
    pub const MAX_LENGTH: usize = 64;

    // The largest prime that a symbol's 32 bits hold: a larger q is no prime, so that no test of its own is needed.
    pub const MAX_Q: Symbol = 4294967291;

    // Whether the counts are within their bounds.
    pub fn in_bounds(self) -> bool
        ensures { result ≡ in_bounds self }
    {
        counts_fit(self.clusters, self.size, self.limit)
            && 1 <= self.rate
            && self.rate <= Plan::MAX_RATE
    }

    // The plan with these counts, where they are within their bounds and q is a prime. The promise also fixes the bounds that stand above by name.
    pub fn new(
        clusters: usize,
        size: usize,
        limit: usize,
        rate: usize,
        q: Symbol,
    ) -> Result<Plan, Refusal>
        ensures code { code_of_result result ≡ plan_code (plan clusters size limit rate q) }
        ensures plan { result_unwrap_or result no_plan ≡ plan_made (plan clusters size limit rate q) }
        ensures clusters { (Plan.MAX_CLUSTERS ≡ max_clusters) × (Plan.MAX_SIZE ≡ max_size) }
        ensures users { (Plan.MAX_USERS ≡ max_users) × (Plan.MAX_RATE ≡ max_rate) }
        ensures length { Plan.MAX_LENGTH ≡ max_length }
        ensures prime { LargestPrime (2 ^ 32) Plan.MAX_Q }
    {
        let plan = Plan {
            clusters,
            size,
            limit,
            rate,
            q,
        };
        refuse_unless(plan.in_bounds(), Refusal::OutOfBounds)?;
        refuse_unless(is_prime(q), Refusal::NotPrime)?;
        Ok(plan)
    }
}
