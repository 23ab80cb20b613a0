// What is compared, and the loop over the inputs.
use crate::cases::{Case, Group, case_of, next_seed};
use crate::catalogue::{refusal_agrees, result_agrees};
use crate::divisors::{Divisors, has_two};
use crate::operations::{Operation, operation_agrees, refusal_number};
use crate::slices::{Place, place_agrees};
use crate::tally::{Tally, counted, none};
pub use primes::is_prime;

#[derive(Clone, Copy, Debug, PartialEq, Eq)]
pub enum Subject {
    IsPrime,
    AllBelow(Place),
    Codes,
    CodesOfResults,
    Operation(Operation),
    // No function: counts the inputs of two numbers for which this number is to be refused, so that it shows that no kind is missing.
    Refused(u16),
}

fn agrees(divisors: &Divisors, subject: Subject, c: Case) -> bool {
    match subject {
        Subject::IsPrime => is_prime(c.q) == has_two(divisors, c.q),
        Subject::AllBelow(place) => place_agrees(place, c),
        Subject::Codes => refusal_agrees(c),
        Subject::CodesOfResults => result_agrees(c),
        Subject::Operation(operation) => operation_agrees(divisors, operation, c),
        Subject::Refused(number) => refusal_number(divisors, c.q, c.a, c.b) == number,
    }
}

pub fn compare(divisors: &Divisors, subject: Subject, group: Group, cases: u64) -> Tally {
    let mut tally = none();
    let mut seed: u64 = 1;
    for k in 0..cases {
        tally = counted(tally, agrees(divisors, subject, case_of(group, k, seed)));
        seed = next_seed(seed);
    }
    tally
}
