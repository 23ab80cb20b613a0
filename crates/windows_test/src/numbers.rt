// Totals as numbers without a sign, drawn numbers, and what a comparison says. Every function takes every number, so that a loop that calls it has nothing
// to show.
ghost use Rattle.std.specs.Prelude.{◌≡◌, ◌%◌, ◌^◌, pos, ◌-ℤ◌};

use refusals::{Refusal, code_of_result};
use testing::{draw, over, state};

// A total t is kept as t + HALF, below WORD.
pub const HALF: usize = 2147483648;

pub const WORD: usize = 4294967296;

// The largest number.
pub const MOST: usize = 18446744073709551615;

// 2 to the 48th, which no sum of kept totals comes to.
const LARGE: usize = 281474976710656;

// What a comparison says where the two differ; otherwise it says the number that was answered.
pub const DIFFER: usize = 18;

// Number k of those that the state x holds, below an n of at most 65,536; 0 where n is 0.
pub fn pick(x: usize, k: usize, n: usize) -> usize {
    draw(state(x, k), n)
}

// a - b, of numbers below LARGE.
pub fn difference(a: usize, b: usize) -> i64
    ensures { result ≡ pos (a % 2 ^ 48) -ℤ pos (b % 2 ^ 48) }
{
    (a % LARGE) as i64 - (b % LARGE) as i64
}

// The total that is kept as u.
pub fn total(u: usize) -> i32 {
    difference(u % WORD, HALF) as i32
}

// A number that no answer has where a detail is not 0: windows give none.
pub fn number_of<T>(answer: &Result<T, Refusal>) -> usize {
    let code = code_of_result(answer);
    over(
        (code.first | code.second) == 0,
        code.number as usize,
        DIFFER,
    )
}

pub fn compared(answer: usize, expected: usize, same: bool) -> usize {
    over(same, over(answer == expected, answer, DIFFER), DIFFER)
}
