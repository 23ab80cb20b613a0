// What a case comes to, and numbers that are drawn for it.
use std::num::wrapping_add_usize;
use testing::{residue, state};

// Every transcript occurs equally often under both days; one does not; an answer depends on readings or keys; a reading is outside the cap.
pub const ALIKE: usize = 0;

pub const APART: usize = 1;

pub const VARY: usize = 2;

pub const REFUSED: usize = 3;

// Calls in a day; places for the answers of two relays' days, and in a row of what is seen; and runs of source keys at most. A row has the answers first, then
// two symbols for each, then the coalition's keys.
pub const CALLS: usize = 20;

pub const ANSWERS: usize = 40;

pub const ROW: usize = 136;

pub const RUNS: usize = 81;

pub fn pick(x: usize, place: usize, n: usize) -> usize {
    residue(state(x, place) / 65536, n)
}

// The place of position p of user or relay i in round k.
pub fn place(k: usize, i: usize, p: usize) -> usize {
    wrapping_add_usize((k % 2) * 8, (i % 4) * 2 + p % 2)
}

// Whether user i is in the coalition.
pub fn is_member(coalition: usize, i: usize) -> bool {
    match i {
        0 => coalition % 2 == 1,
        1 => coalition / 2 % 2 == 1,
        2 => coalition / 4 % 2 == 1,
        _ => coalition / 8 % 2 == 1,
    }
}
