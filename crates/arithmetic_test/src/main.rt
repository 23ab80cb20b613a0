// Compares every public function of arithmetic and refusals with a second implementation, and writes for each how many results agree.
#![tactic(auto)]

mod cases;
mod catalogue;
mod compare;
mod counting;
mod divisors;
mod named;
mod notable;
mod numbers;
mod operations;
mod report;
mod slices;
mod tally;

use cases::{DRAWN, Group, PAIRS};
use divisors::Divisors;
use std::io;
use tally::{Tally, joined, none, print_tally};

fn compared(rt: &impl Print, divisors: &Divisors) -> io::Result<Tally> {
    let mut t = report::tests(rt, none(), divisors)?;
    t = report::failing_tests(rt, t, divisors)?;
    t = report::catalogue(rt, t, divisors)?;
    t = report::sums(rt, t, divisors)?;
    report::products(rt, t, divisors)
}

fn named_cases(rt: &impl Print) -> io::Result<Tally> {
    let mut t = named::acceptance(named::powers(named::moduli()));
    t = named::wide_symbols(named::wide_moduli(t));
    print_tally(rt, "named cases", t, "agree")?;
    Ok(t)
}

fn main(rt: HostRuntime) -> io::Result<()> {
    let mut divisors = [0u8; 65536];
    divisors::count_all(&mut divisors);
    report::inputs(
        &rt,
        &divisors,
        "pairs, q below 60",
        Group::BelowSixty,
        PAIRS,
    )?;
    report::inputs(&rt, &divisors, "pairs, drawn", Group::Drawn, DRAWN)?;
    report::moduli(&rt, &divisors)?;
    let total = joined(compared(&rt, &divisors)?, named_cases(&rt)?);
    print_tally(&rt, "total", total, "agree")
}
