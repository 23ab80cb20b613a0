// Holds the library matrices to a second implementation, written another way, and writes how many results agree.
// A case is made of its number alone, so that each can be looked at by itself.
#![tactic(auto)]

mod copies;
mod elimination;
mod known_ranks;
mod numbers;
mod refused;
mod shapes;
mod solutions;
mod tables;
mod wrong_shapes;

use arithmetic::Symbol;
use std::io;
use std::num::wrapping_add_usize;

// One number more than the largest table has.
const LONGEST: usize = 2305;

// How many cases agree, and how many there are.
#[derive(Clone, Copy, Debug, PartialEq, Eq)]
struct Tally {
    agree: usize,
    cases: usize,
}

// Whether a case agrees, worked out in two tables of zeros of its length.
fn agrees<A: Fn(usize, &mut [Symbol], &mut [Symbol]) -> bool>(
    case: usize,
    n: usize,
    compare: &A,
) -> bool
    requires { A.IsAlwaysCallable compare.now }
{
    if n > LONGEST {
        return false;
    }
    let mut t = [0 as Symbol; LONGEST];
    let mut other = [0 as Symbol; LONGEST];
    compare(case, &mut t[..n], &mut other[..n])
}

// A group's line, and the total so far with it.
fn report<L: Fn(usize) -> usize, A: Fn(usize, &mut [Symbol], &mut [Symbol]) -> bool>(
    rt: &impl Print,
    total: Tally,
    name: &str,
    cases: usize,
    length: L,
    compare: A,
) -> io::Result<Tally>
    requires { L.IsAlwaysCallable length × A.IsAlwaysCallable compare }
{
    let mut agree: usize = 0;
    for case in 0..cases {
        if agrees(case, length(case), &compare) {
            agree = wrapping_add_usize(agree, 1);
        }
    }
    println!(rt; "{name}: {agree} of {cases} agree")?;
    Ok(Tally {
        agree: wrapping_add_usize(total.agree, agree),
        cases: wrapping_add_usize(total.cases, cases),
    })
}

fn solved(rt: &impl Print, total: Tally) -> io::Result<Tally> {
    let t = report(
        rt,
        total,
        "solutions",
        10000,
        solutions::length,
        |case, t, _| { solutions::agrees(case, t) },
    )?;
    let t = report(
        rt,
        t,
        "known ranks",
        2000,
        known_ranks::length,
        |case, t, _| { known_ranks::agrees(case, t) },
    )?;
    report(
        rt,
        t,
        "reduced rows",
        2000,
        known_ranks::length,
        known_ranks::reduces,
    )
}

fn eliminated(rt: &impl Print, total: Tally) -> io::Result<Tally> {
    let t = report(
        rt,
        total,
        "elimination",
        5000,
        elimination::length,
        elimination::agrees,
    )?;
    let t = report(
        rt,
        t,
        "wrong shapes",
        wrong_shapes::CASES,
        wrong_shapes::length,
        wrong_shapes::agrees,
    )?;
    let t = report(
        rt,
        t,
        "refusals",
        refused::CASES,
        refused::length,
        |case, t, _| { refused::agrees(case, t) },
    )?;
    report(
        rt,
        t,
        "copies",
        copies::CASES,
        copies::length,
        copies::agrees,
    )
}

fn main(rt: HostRuntime) -> io::Result<()> {
    let none = Tally { agree: 0, cases: 0 };
    let t = eliminated(&rt, solved(&rt, none)?)?;
    println!(rt; "total: {} of {} agree", t.agree, t.cases)
}
