// The lines: a name, and how many inputs agree. Each function goes on with a tally of all lines before.
use crate::cases::{CODES, DRAWN, Group, MODULI, PAIRS, SINGLES, TRIPLES};
use crate::compare::{Subject, compare};
use crate::divisors::Divisors;
use crate::operations::Operation;
use crate::slices::Place;
use crate::tally::{Tally, joined, print_tally};
use std::io;

// How many inputs of two numbers are to be refused.
pub fn inputs(
    rt: &impl Print,
    divisors: &Divisors,
    name: &str,
    group: Group,
    cases: u64,
) -> io::Result<()> {
    let not_prime = compare(divisors, Subject::Refused(2), group, cases);
    print_tally(rt, name, not_prime, "refused 2")?;
    let no_symbols = compare(divisors, Subject::Refused(3), group, cases);
    print_tally(rt, name, no_symbols, "refused 3")
}

// How many of the tests' moduli are no primes.
pub fn moduli(rt: &impl Print, divisors: &Divisors) -> io::Result<()> {
    let not_prime = compare(divisors, Subject::Refused(2), Group::Moduli, MODULI);
    print_tally(rt, "moduli", not_prime, "refused 2")
}

fn line(
    rt: &impl Print,
    divisors: &Divisors,
    name: &str,
    subject: Subject,
    group: Group,
    cases: u64,
) -> io::Result<Tally> {
    let tally = compare(divisors, subject, group, cases);
    print_tally(rt, name, tally, "agree")?;
    Ok(tally)
}

fn every_modulus(
    rt: &impl Print,
    t: Tally,
    divisors: &Divisors,
    name: &str,
    subject: Subject,
) -> io::Result<Tally> {
    let s = line(rt, divisors, name, subject, Group::Moduli, MODULI)?;
    Ok(joined(t, s))
}

// The test of primes, and that of symbols where it holds.
pub fn tests(rt: &impl Print, t: Tally, divisors: &Divisors) -> io::Result<Tally> {
    let (empty, nowhere) = (Place::Empty, Place::Nowhere);
    let mut s = every_modulus(rt, t, divisors, "is_prime", Subject::IsPrime)?;
    s = every_modulus(
        rt,
        s,
        divisors,
        "all_below, empty",
        Subject::AllBelow(empty),
    )?;
    every_modulus(
        rt,
        s,
        divisors,
        "all_below, all are",
        Subject::AllBelow(nowhere),
    )
}

// The test of symbols where one number is not below q.
pub fn failing_tests(rt: &impl Print, t: Tally, divisors: &Divisors) -> io::Result<Tally> {
    let (first, middle, last) = (Place::First, Place::Middle, Place::Last);
    let mut s = every_modulus(
        rt,
        t,
        divisors,
        "all_below, first not",
        Subject::AllBelow(first),
    )?;
    s = every_modulus(
        rt,
        s,
        divisors,
        "all_below, middle not",
        Subject::AllBelow(middle),
    )?;
    every_modulus(
        rt,
        s,
        divisors,
        "all_below, last not",
        Subject::AllBelow(last),
    )
}

// The lines have the names that these tests have always had: codes with their numbers and details, and what results, checks and steps say.
pub fn catalogue(rt: &impl Print, t: Tally, divisors: &Divisors) -> io::Result<Tally> {
    let group = Group::EveryRefusal;
    let codes = line(rt, divisors, "code_of", Subject::Codes, group, CODES)?;
    let results = line(
        rt,
        divisors,
        "verdict_code",
        Subject::CodesOfResults,
        group,
        CODES,
    )?;
    Ok(joined(t, joined(codes, results)))
}

// All small inputs, and drawn ones.
fn two_lines(
    rt: &impl Print,
    t: Tally,
    divisors: &Divisors,
    name: &str,
    operation: Operation,
    small: u64,
) -> io::Result<Tally> {
    let subject = Subject::Operation(operation);
    print!(rt; "{name}")?;
    let below_sixty = line(
        rt,
        divisors,
        ", q below 60",
        subject,
        Group::BelowSixty,
        small,
    )?;
    print!(rt; "{name}")?;
    let drawn = line(rt, divisors, ", drawn", subject, Group::Drawn, DRAWN)?;
    Ok(joined(t, joined(below_sixty, drawn)))
}

pub fn sums(rt: &impl Print, t: Tally, divisors: &Divisors) -> io::Result<Tally> {
    let mut s = two_lines(rt, t, divisors, "sum, add_mod", Operation::Sum, PAIRS)?;
    s = two_lines(
        rt,
        s,
        divisors,
        "difference, sub_mod",
        Operation::Difference,
        PAIRS,
    )?;
    s = two_lines(rt, s, divisors, "add_symbols", Operation::SymbolSum, PAIRS)?;
    s = two_lines(
        rt,
        s,
        divisors,
        "sub_symbols",
        Operation::SymbolDifference,
        PAIRS,
    )?;
    two_lines(
        rt,
        s,
        divisors,
        "opposite_mod",
        Operation::Opposite,
        SINGLES,
    )
}

pub fn products(rt: &impl Print, t: Tally, divisors: &Divisors) -> io::Result<Tally> {
    let mut s = two_lines(
        rt,
        t,
        divisors,
        "product, mul_mod",
        Operation::Product,
        PAIRS,
    )?;
    s = two_lines(rt, s, divisors, "mul_add_mod", Operation::MulAdd, TRIPLES)?;
    s = two_lines(rt, s, divisors, "cross_mod", Operation::Cross, TRIPLES)?;
    s = two_lines(rt, s, divisors, "power, power_mod", Operation::Power, PAIRS)?;
    two_lines(
        rt,
        s,
        divisors,
        "inverse, inverse_mod",
        Operation::Inverse,
        SINGLES,
    )
}
