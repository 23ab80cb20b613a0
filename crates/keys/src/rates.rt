// The rate that the table maker will need: a caller has to lend it a table of that many symbols for each user.
ghost use Rattle.std.specs.Prelude.{◌≡◌};
ghost use Rattle.refusals.specs.Codes.{outcome, outcome_of};
ghost use Rattle.keys.specs.Maker.{rate_of, rate_checks};

use crate::maker::rate_of;
use plans::counts_fit;
use refusals::{Refusal, refuse_unless};

pub fn rate_needed(clusters: usize, size: usize, limit: usize) -> Result<usize, Refusal>
    ensures { outcome_of result ≡ outcome (rate_checks clusters size limit) (rate_of clusters size limit) }
{
    refuse_unless(counts_fit(clusters, size, limit), Refusal::OutOfBounds)?;
    refuse_unless(limit < (clusters - 1) * size, Refusal::LimitTooLarge)?;
    Ok(rate_of(clusters, size, limit))
}
