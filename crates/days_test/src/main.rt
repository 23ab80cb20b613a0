// Counts runs of source keys literally: for tiny pools, two rounds and two days' readings that may not be told apart, every run of source keys is played
// through the libraries' own calls under both days, and each transcript that occurs has to occur equally often. Writes how many pairs of days are alike, how
// many are told apart by a transcript, in how many some answer depends on the readings or the keys, in how many an upload is refused with 15, and how many
// transcripts occurred. A case is made of its number alone. The last kinds ask too much, so that there are days to be told apart.
#![tactic(auto)]

mod keys_of;
mod machines;
mod numbers;
mod readings;
mod rows;
mod shapes;

use numbers::{ALIKE, APART, REFUSED, VARY};
use rows::judged;
use shapes::Kind;
use std::io;
use std::num::wrapping_add_usize;
use testing::clip;

// How many cases each kind has.
const CASES: usize = 120;

fn report(rt: &impl Print, name: &str, kind: Kind) -> io::Result<()> {
    let mut tally = [0usize; 4];
    let mut transcripts: usize = 0;
    for case in 0..CASES {
        let seen = judged(kind, case);
        let n = clip(seen.outcome, REFUSED);
        tally[n] = wrapping_add_usize(tally[n], 1);
        transcripts = wrapping_add_usize(transcripts, seen.transcripts);
    }
    print!(rt;
        "{name}{} alike, {} told apart, ",
        tally[ALIKE], tally[APART]
    )?;
    print!(rt; "{} with an answer that varies, ", tally[VARY])?;
    println!(rt;
        "{} refused with 15, {transcripts} transcripts",
        tally[REFUSED]
    )
}

fn main(rt: HostRuntime) -> io::Result<()> {
    report(&rt, "relay:                       ", Kind::Relay)?;
    report(&rt, "server:                      ", Kind::Server)?;
    report(&rt, "two relays under one lock:   ", Kind::UnderLock)?;
    report(&rt, "signed:                      ", Kind::Signed)?;
    report(&rt, "other totals:                ", Kind::OtherTotals)?;
    report(&rt, "one source key twice:        ", Kind::OneKeyTwice)?;
    report(&rt, "a coalition above the limit: ", Kind::AboveLimit)
}
