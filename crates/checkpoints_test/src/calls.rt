// Calls of `save` and of `restore`, each held to the second implementation.
use crate::states::{DIFFER, number_of, pick};
use crate::{second, states};
use refusals::Refusal;
use rounds::RelayRound;
use std::num::{wrapping_add_usize, wrapping_sub_usize};
use testing::{byte_at, clip, fill_bytes, over, put_byte, seed, word_at};

// The bytes of a buffer: room for a longest save and more, and for several short ones.
pub const BUFFER: usize = 1200;

// How many bytes of a buffer are other than a save after `used` bytes, with nothing else written, makes them.
fn wrong(
    out: &[u8; BUFFER],
    before: &[u8; BUFFER],
    state: RelayRound,
    used: usize,
    number: usize,
) -> usize {
    let mut n: usize = 0;
    let round = state.round;
    for i in 0..BUFFER {
        let k = wrapping_sub_usize(i, used);
        let inside = number == 0 && i >= used && k < second::size(round.length);
        let byte = over(inside, second::save_byte(state, k), byte_at(before, i));
        n = wrapping_add_usize(n, over(byte_at(out, i) == byte, 0, 1));
    }
    n
}

// Used bytes: none, as many as leave just room, one more, or any, and past the buffer.
fn place(x: usize, room: usize, size: usize) -> usize {
    match pick(x, 31, 8) {
        0 => 0,
        1 => wrapping_sub_usize(room, size),
        2 => wrapping_add_usize(wrapping_sub_usize(room, size), 1),
        3 => 18446744073709551615,
        4 => wrapping_add_usize(room, 1),
        _ => pick(x, 32, room),
    }
}

// A save into the first n bytes of a buffer.
fn save_front(out: &mut [u8], n: usize, state: RelayRound, used: usize) -> Result<usize, Refusal> {
    let room = clip(n, out.len());
    checkpoints::save(state, &mut out[..room], used)
}

fn save_into(
    out: &mut [u8; BUFFER],
    n: usize,
    state: RelayRound,
    used: usize,
) -> Result<usize, Refusal> {
    save_front(out, n, state, used)
}

// A restoring from the used bytes of a buffer.
fn restore_front(out: &[u8], used: usize, steps: usize) -> Result<RelayRound, Refusal> {
    let n = clip(used, out.len());
    checkpoints::restore(&out[..n], steps)
}

pub fn restore_from(out: &[u8; BUFFER], used: usize, steps: usize) -> Result<RelayRound, Refusal> {
    restore_front(out, used, steps)
}

// A save of a state, good or bad, anywhere.
pub fn saved(case: usize) -> usize {
    let x = seed(case);
    let length = states::length(x);
    let state = states::broken(states::broken(states::sound(x, length), x), seed(x));
    let mut before = [0u8; BUFFER];
    fill_bytes(&mut before, x);
    let mut out = before;
    let n = wrapping_add_usize(pick(x, 30, 900), 20);
    let size = second::size(length);
    let used = place(x, n, size);
    let answer = save_into(&mut out, n, state, used);
    let round = state.round;
    let free = used <= n && wrapping_sub_usize(n, used) >= second::size(round.length);
    let first = second::state_number(state);
    let number = over(first > 0, first, over(free, 0, 4));
    let end = wrapping_add_usize(used, second::size(round.length));
    let good = number_of(&answer) == number && answer.unwrap_or(end) == end;
    over(
        good && wrong(&out, &before, state, used, number) == 0,
        number,
        DIFFER,
    )
}

// The length of a chain's save: the first may have any, so that its distance may take both bytes; there is room for that once.
fn chain_length(y: usize, i: usize) -> usize {
    over(i == 0, states::length(y), pick(y, 9, 4) % 4 + 1)
}

// As many saves as a case has, of its own states; and the used bytes after them.
pub fn chain(out: &mut [u8; BUFFER], x: usize, many: usize) -> usize {
    let mut used: usize = 0;
    for i in 0..many {
        let y = seed(wrapping_add_usize(x, i));
        let state = states::sound(y, chain_length(y, i));
        used = checkpoints::save(state, out, used).unwrap_or(used);
    }
    used
}

// Saves one after the other: each is found again, and one step more is 5.
pub fn chained(case: usize) -> usize {
    let x = seed(case);
    let many = pick(x, 33, 8);
    let mut out = [0u8; BUFFER];
    fill_bytes(&mut out, x);
    let used = chain(&mut out, x, many);
    let mut number: usize = 0;
    for i in 0..many {
        let y = seed(wrapping_add_usize(x, i));
        let steps = wrapping_sub_usize(wrapping_sub_usize(many, 1), i);
        let good = match restore_from(&out, used, steps) {
            Ok(round) => states::alike(round, states::sound(y, chain_length(y, i))),
            Err(_) => false,
        };
        number = over(good, number, DIFFER);
    }
    let beyond = restore_from(&out, used, wrapping_add_usize(many, pick(x, 34, 3)));
    over(number_of(&beyond) == 5, number, DIFFER)
}

// Steps back: few, or more than any buffer has.
fn steps(x: usize) -> usize {
    over(pick(x, 35, 20) == 0, 18446744073709551615, pick(x, 36, 3))
}

// What is restored from a buffer, held to the second implementation.
fn judged(out: &[u8; BUFFER], used: usize, n: usize) -> usize {
    let back = restore_from(out, used, n);
    let number = second::read_number(out, used, n);
    let same = match back {
        Ok(round) => {
            let e = second::end(out, used, n);
            let d = word_at(out, wrapping_sub_usize(e, 4));
            states::alike(round, second::read(out, wrapping_sub_usize(e, d)))
        }
        Err(_) => true,
    };
    over(number_of(&back) == number && same, number, DIFFER)
}

fn damage(out: &mut [u8; BUFFER], i: usize, x: usize) {
    put_byte(out, i, edge_byte(x));
}

// Saves one after the other with a byte damaged, often one of the last save's end, or with the last bytes cut off.
pub fn damaged(case: usize) -> usize {
    let x = seed(case);
    let many = wrapping_add_usize(pick(x, 33, 5), 1);
    let mut out = [0u8; BUFFER];
    let used = chain(&mut out, x, many);
    let cut = wrapping_sub_usize(used, over(pick(x, 37, 8) == 0, pick(x, 38, 28), 0));
    let near = wrapping_sub_usize(cut, wrapping_add_usize(pick(x, 39, 40), 1));
    damage(
        &mut out,
        over(pick(x, 40, 2) == 0, near, pick(x, 41, cut)),
        x,
    );
    judged(&out, cut, steps(x))
}

// A byte that is a bound, a bit off, or any.
fn edge_byte(x: usize) -> usize {
    match pick(x, 42, 6) {
        0 => 0,
        1 => 1,
        2 => 9,
        3 => 20,
        4 => 28,
        _ => pick(x, 43, 256),
    }
}
