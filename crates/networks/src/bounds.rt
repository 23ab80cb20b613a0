// The bounds of a ring, and what every entry asks of lengths and symbols.
ghost use Rattle.std.specs.Prelude.{◌≡◌};
ghost use Rattle.refusals.specs.Codes.{first_of, code_of_result};
ghost use Rattle.networks.specs.Rings.{counts_fit, pattern_fits, count_checks, symbol_checks};

use crate::Ring;
use arithmetic::Symbol;
use primes::is_prime;
use refusals::{Refusal, refuse_unless};

impl Ring {
    pub const MIN_SIZE: usize = 2;

    pub const MAX_SIZE: usize = 8;

    pub const MAX_RATE: usize = 16;

    pub const MAX_PARTS: usize = 4;

    // The most rows that are eliminated, the server's: its totals and the sums; and the most numbers in them.
    pub(crate) const MAX_ROWS: usize = 12;

    pub(crate) const MAX_NUMBERS: usize = 576;
}

// Whether K and R are within their bounds.
fn counts_fit(ring: Ring) -> bool
    ensures { result ≡ counts_fit ring }
{
    Ring::MIN_SIZE <= ring.size
        && ring.size <= Ring::MAX_SIZE
        && 1 <= ring.rate
        && ring.rate <= Ring::MAX_RATE
}

// Whether d and n are within their bounds.
fn pattern_fits(ring: Ring) -> bool
    ensures { result ≡ pattern_fits ring }
{
    1 <= ring.links && ring.links <= ring.size && 1 <= ring.parts && ring.parts <= Ring::MAX_PARTS
}

// Checks 1 and 22.
pub(crate) fn check_counts(ring: Ring) -> Result<(), Refusal>
    ensures { code_of_result result ≡ first_of (count_checks ring) }
{
    refuse_unless(counts_fit(ring), Refusal::OutOfBounds)?;
    refuse_unless(pattern_fits(ring), Refusal::BadPattern)
}

// Checks 4, 2 and 3, by whether the lengths are right and all numbers are symbols.
pub(crate) fn check_symbols(q: Symbol, lengths: bool, below: bool) -> Result<(), Refusal>
    ensures { code_of_result result ≡ first_of (symbol_checks q lengths below) }
{
    refuse_unless(lengths, Refusal::WrongLength)?;
    refuse_unless(is_prime(q), Refusal::NotPrime)?;
    refuse_unless(below, Refusal::NotASymbol)
}
