// Holds the library networks to second implementations written another way: the vet to literal counts of source keys, decoding to a search through all
// readings and source keys, and, of networks of every size, to an elimination of its own and to the readings' own totals. Writes how often each number was
// answered (0: nothing is refused) where the two agree, and how often they differ: in the number, its details, or the buffer. A case is made of its number
// alone.
#![tactic(auto)]

mod counting;
mod decodes;
mod drawn;
mod expected;
mod network;
mod sends;
mod solving;
mod vets;
mod worlds;

use decodes::{tiny_decoded, whole_decoded};
use expected::{DIFFER, Kind};
use sends::{summed, uploaded};
use std::io;
use std::num::wrapping_add_usize;
use std::ops::Range;
use testing::{clip, print_counts};
use vets::vetted;

// Cases from here on have faults.
const FAULTS: usize = 100000;

// Asks each case, and prints how often each number was answered, and how often the two differ.
fn report<F: Fn(usize) -> usize>(
    rt: &impl Print,
    name: &str,
    cases: Range<usize>,
    outcome: F,
) -> io::Result<()>
    requires { F.IsAlwaysCallable outcome }
{
    let mut tally = [0usize; DIFFER + 1];
    for case in cases {
        let n = clip(outcome(case), DIFFER);
        tally[n] = wrapping_add_usize(tally[n], 1);
    }
    print!(rt; "{name}")?;
    print_counts(rt, "answered", &tally)
}

fn vettings(rt: &impl Print) -> io::Result<()> {
    report(rt, "tiny networks vetted:         ", 0..4000, |case| {
        vetted(case, Kind::Sound)
    })?;
    report(rt, "the same with faults:         ", 0..4000, |case| {
        vetted(wrapping_add_usize(case, FAULTS), Kind::Faulty)
    })
}

fn sent_symbols(rt: &impl Print) -> io::Result<()> {
    report(rt, "uploads:                      ", 0..20000, uploaded)?;
    report(rt, "relay sums:                   ", 0..8000, summed)
}

fn decodings(rt: &impl Print) -> io::Result<()> {
    report(rt, "tiny networks, every roll:    ", 0..8000, |case| {
        tiny_decoded(case, Kind::Sound)
    })?;
    report(rt, "the same with faults:         ", 0..8000, |case| {
        tiny_decoded(wrapping_add_usize(case, FAULTS), Kind::Faulty)
    })?;
    report(rt, "networks of every size:       ", 0..600, whole_decoded)
}

// A mistake is in what is expected.
fn mistakes(rt: &impl Print) -> io::Result<()> {
    report(rt, "vetted, a mistake expected:   ", 0..200, |case| {
        vetted(case, Kind::Mistaken)
    })?;
    report(rt, "decoded, a mistake expected:  ", 0..200, |case| {
        tiny_decoded(case, Kind::Mistaken)
    })
}

fn main(rt: HostRuntime) -> io::Result<()> {
    vettings(&rt)?;
    sent_symbols(&rt)?;
    decodings(&rt)?;
    mistakes(&rt)
}
