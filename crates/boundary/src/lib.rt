// What the entries for other languages share: codes and plans as numbers.
#![tactic(auto)]

ghost use Rattle.std.specs.Prelude.{◌≡◌};
ghost use Rattle.std.specs.Result.{result_unwrap_or};
ghost use Rattle.refusals.specs.Codes.{code_of_result};
ghost use Rattle.boundary.specs.Packed.{packed};
ghost use Rattle.boundary.specs.Counts.{plan_of};

use arithmetic::Symbol;
use plans::Plan;
use refusals::{Code, Refusal, code_of_result};

// How many numbers a plan has beside its key table, and where each stands.
pub const PLAN_NUMBERS: usize = 5;

const CLUSTERS: usize = 0;

const SIZE: usize = 1;

const LIMIT: usize = 2;

const RATE: usize = 3;

const Q: usize = 4;

// Each number of a code has 16 bits.
const FIRST: u64 = 1 << 16;

const SECOND: u64 = 1 << 32;

// A code as one number.
pub fn pack(code: Code) -> u64
    ensures { result ≡ packed code }
{
    code.number as u64 + FIRST * code.first as u64 + SECOND * code.second as u64
}

// A verdict as one number, which is 0 where nothing is refused.
pub fn pack_verdict(verdict: Result<(), Refusal>) -> u64
    ensures { result ≡ packed (code_of_result verdict) }
{
    pack(code_of_result(&verdict))
}

// The value of a result goes into the lent place, where nothing is refused; the code is answered as one number.
pub fn hand_over<T: Copy>(answer: Result<T, Refusal>, out: &mut T) -> u64
    ensures code { result ≡ packed (code_of_result answer) }
    ensures out { out.new ≡ result_unwrap_or answer out.old }
{
    match answer {
        Ok(value) => {
            *out = value;
            0
        }
        Err(refusal) => pack(refusal.code()),
    }
}

pub fn plan_of(counts: [Symbol; PLAN_NUMBERS]) -> Plan
    ensures { result ≡ plan_of counts }
{
    Plan {
        clusters: counts[CLUSTERS] as usize,
        size: counts[SIZE] as usize,
        limit: counts[LIMIT] as usize,
        rate: counts[RATE] as usize,
        q: counts[Q],
    }
}
