// Holds the whole way from bytes to the printed line to a second implementation, on drawn records, whole and damaged, and writes a tally.
#![tactic(auto)]

mod drafts;
mod inputs;
mod numbers;
mod second;
mod tally;
mod text;

use inputs::{Input, make};
use std::io;
use tally::{Tally, none};

const INPUTS: usize = 20000;

// The line, and the verdict that callers of the library get.
fn compared(t: Tally, bytes: &[u8]) -> Tally {
    let expected = second::verdict(bytes);
    let line = reports::vet_line(bytes);
    let code = refusals::code_of_result(&reports::vet_record(bytes));
    let same = text::says(line, expected) && code == expected;
    t.count_wide(second::is_wide(bytes))
        .count(expected.number, same)
}

// An input outside the buffer would be a fault of this test: 99 counts it as different.
fn compared_part(t: Tally, buffer: &[u8], i: Input) -> Tally {
    let start = i.start;
    let end = i.end;
    if start <= end && end <= buffer.len() {
        compared(t, &buffer[start..end])
    } else {
        t.count(99, false)
    }
}

fn compared_case(t: Tally, buffer: &mut [u8], case: usize) -> Tally {
    let i = make(case, buffer);
    compared_part(t, buffer, i)
}

fn compared_all(buffer: &mut [u8]) -> Tally {
    let mut t = none();
    for case in 0..INPUTS {
        t = compared_case(t, buffer, case);
    }
    t
}

fn main(rt: HostRuntime) -> io::Result<()> {
    let mut buffer = [0u8; 65536];
    tally::print(&rt, compared_all(&mut buffer))
}
