// How many pairs a vet has to look at, by going through all of them.
use crate::counting::place_of;
use crate::expected::fits;
use crate::numbers::pack;
use crate::tables::Shape;
use std::io;
use std::num::wrapping_add_usize;
use testing::wide16;

// U and V from 0 to 9, T from 0 to 17: all counts within their bounds, and some outside.
const INPUTS: usize = 1800;

fn shape(x: usize) -> Shape {
    Shape {
        clusters: x % 10,
        size: x / 10 % 10,
        limit: x / 100 % 18,
        rate: 1,
        q: 2,
    }
}

// All pairs of the walk, one by one: 0 is no answer that names one.
fn expected(s: Shape) -> usize {
    if !fits(s) {
        pack(1, 0, 0)
    } else {
        place_of(s, 0)
    }
}

fn counted(s: Shape) -> usize {
    match vetting::count_pairs(s.clusters, s.size, s.limit) {
        Ok(n) => n as usize,
        Err(refusal) => {
            let code = refusal.code();
            pack(wide16(code.number), wide16(code.first), wide16(code.second))
        }
    }
}

// 0: a figure, 1: refused, 2: the two differ.
fn class(x: usize) -> usize {
    let s = shape(x);
    let n = counted(s);
    if n != expected(s) {
        2
    } else if n < 4294967296 {
        0
    } else {
        1
    }
}

fn increase(tally: &mut [usize; 3], n: usize) {
    if n < 3 {
        tally[n] = wrapping_add_usize(tally[n], 1);
    }
}

fn count(tally: &mut [usize; 3]) {
    for x in 0..INPUTS {
        increase(tally, class(x));
    }
}

pub fn report(rt: &impl Print) -> io::Result<()> {
    let mut tally = [0usize; 3];
    count(&mut tally);
    println!(rt;
        "figures: {} counted, {} refused 1, {} differ",
        tally[0], tally[1], tally[2]
    )
}
