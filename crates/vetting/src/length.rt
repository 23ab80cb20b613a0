// How many pairs the vet has to look at, from the counts alone.
ghost use Rattle.std.specs.Prelude.{◌≡◌, ◌+◌, ◌≤◌};
ghost use Rattle.refusals.specs.Codes.{outcome, outcome_of};
ghost use Rattle.lists.specs.Sums.{sum_to, binomial};
ghost use Rattle.vetting.specs.Length.{pair_count, count_checks};

use plans::counts_fit;
use refusals::{Refusal, refuse_unless};

// How many sets of at most `limit` there are out of n; those of each size from those of one less.
fn sets_up_to(n: u32, limit: u32) -> u32
    requires { (n ≤ 16) × (limit ≤ n) }
    ensures { result ≡ sum_to (limit + 1) (binomial n) }
{
    let mut sets: u32 = 1;
    let mut sum: u32 = 1;
    for k in 0..limit {
        sets = sets * (n - k) / (k + 1);
        sum += sets;
    }
    sum
}

// Every coalition of at most `limit` users with every observer: what the vet looks at before it accepts a plan.
pub fn count_pairs(clusters: usize, size: usize, limit: usize) -> Result<u32, Refusal>
    ensures { outcome_of result ≡ outcome (count_checks clusters size limit) (pair_count clusters size limit) }
{
    refuse_unless(counts_fit(clusters, size, limit), Refusal::OutOfBounds)?;
    let users = (clusters * size) as u32;
    let observers = clusters as u32 + 1;
    Ok(observers * sets_up_to(users, limit as u32))
}
