// Lengths, what the library says as one number, and what a comparison says.
// Every function takes every number, so that a loop that calls it has nothing to show.
use crate::shapes::Shape;
use arithmetic::Symbol;
use plans::Plan;
use refusals::{Code, Refusal};
use testing::{at, over, wide, wide16};

// What a comparison says where the two differ; otherwise it says the number that was answered.
pub const DIFFER: usize = 15;

// What a lent table or block holds before a call, everywhere: no symbol modulo a prime.
pub const UNTOUCHED: Symbol = 4294967295;

// How long the part is that a call gets.
#[derive(Clone, Copy, Debug, PartialEq, Eq)]
pub enum Length {
    OneMore,
    OneLess,
    Right,
}

// The first two are wrong, and all others are right.
pub fn drawn_length(number: usize) -> Length {
    match number {
        0 => Length::OneMore,
        1 => Length::OneLess,
        _ => Length::Right,
    }
}

// What is empty can only be too long.
pub fn length_of(n: usize, length: Length) -> usize {
    let m = n % 65536;
    match length {
        Length::OneMore => m + 1,
        Length::OneLess => { if m == 0 { 5 } else { m - 1 } }
        Length::Right => m,
    }
}

// A number, and 16 times its details, so that those are compared too.
fn said(code: Code) -> usize {
    let details = wide16(code.first) % 65536 * 65536 + wide16(code.second) % 65536;
    details * 16 + wide16(code.number) % 16
}

pub fn verdict_said(verdict: Result<(), Refusal>) -> usize {
    said(refusals::code_of_result(&verdict))
}

// 0 where it is the plan of the shape, and what no refusal says where it is another one.
pub fn planned_said(planned: Result<Plan, Refusal>, s: Shape) -> usize {
    match planned {
        Ok(p) => {
            let counts = (p.clusters ^ s.clusters) | (p.size ^ s.size) | (p.limit ^ s.limit);
            over(
                (counts | (p.rate ^ s.rate) | (wide(p.q) ^ s.q)) == 0,
                0,
                DIFFER,
            )
        }
        Err(refusal) => said(refusal.code()),
    }
}

// The number alone, or that results differ.
pub fn compared(answer: usize, expected: usize, same: bool) -> usize {
    over(same, over(answer == expected, answer % 16, DIFFER), DIFFER)
}

// Whether a table holds what is wanted; where the call was refused, what it held before.
pub fn holds(out: &[Symbol], number: usize, want: &[Symbol]) -> bool {
    for i in 0..out.len() {
        if at(out, i) != over(number > 0, wide(UNTOUCHED), at(want, i)) {
            return false;
        }
    }
    true
}
