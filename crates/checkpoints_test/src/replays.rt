// A relay that stops after a save, comes back, and repeats: all that came since, or what changed its round alone.
use crate::calls::{BUFFER, restore_from};
use crate::states;
use crate::states::{DIFFER, pick};
use arithmetic::Symbol;
use refusals::{Refusal, Step};
use rounds::RelayRound;
use std::num::{wrapping_add_u32, wrapping_add_usize};
use testing::{clip, fill, narrow, over, prime, residue, seed, wide};

// What a relay that comes back repeats: all, what changed the round alone, or, by a mistake, that without its first event.
#[derive(Clone, Copy, Debug, PartialEq, Eq)]
pub enum Repeat {
    All,
    Changes,
    ChangesButFirst,
}

// A frame with the first symbols of a block.
fn frame(
    round: RelayRound,
    sender: usize,
    number: u32,
    block: &[Symbol],
    length: usize,
) -> Step<RelayRound> {
    let n = clip(length, block.len());
    round.count(sender, number, &block[..n])
}

// A block of symbols, by chance with one too large.
fn send(round: RelayRound, sender: usize, number: u32, x: usize) -> Step<RelayRound> {
    let inner = round.round;
    let mut block = [0; 4];
    fill(
        &mut block,
        wrapping_add_usize(wide(inner.q), pick(x, 2, 12) / 11),
        x,
    );
    frame(round, sender, number, &block, inner.length)
}

// Event i: a moving on, or a frame of the round, of the next, or of another, from some sender.
fn event(round: RelayRound, x: usize, i: usize) -> Step<RelayRound> {
    let y = seed(wrapping_add_usize(x, i));
    let inner = round.round;
    let ahead = narrow(pick(y, 3, 8) / 5);
    let sender = wrapping_add_usize(
        residue(pick(y, 4, 64), inner.size),
        pick(y, 5, 8) % 8 / 7 ^ 1,
    );
    if pick(y, 1, 4) == 0 {
        round.advance()
    } else {
        send(round, sender, wrapping_add_u32(inner.number, ahead), y)
    }
}

// A relay from an opening: a small cluster, so that rounds become full.
fn opened(x: usize) -> Result<RelayRound, Refusal> {
    RelayRound::open(
        2,
        wrapping_add_usize(pick(x, 51, 3), 1),
        narrow(prime(pick(x, 52, 11))),
        wrapping_add_usize(pick(x, 53, 4), 1),
        1,
        narrow(over(pick(x, 54, 6) == 0, 4294967294, pick(x, 55, 9))),
    )
}

// After events `from` to `to`.
fn run(start: RelayRound, x: usize, from: usize, to: usize) -> RelayRound {
    let mut round = start;
    for i in from..to {
        round = event(round, x, i).state;
    }
    round
}

// The same events, but those alone that the relay which never stopped did not refuse; where one is left out not even the first of them.
fn repeated(
    start: RelayRound,
    kept: RelayRound,
    x: usize,
    from: usize,
    to: usize,
    first_left_out: bool,
) -> RelayRound {
    let mut round = start;
    let mut other = kept;
    let mut leave_out = first_left_out;
    for i in from..to {
        let there = event(other, x, i);
        other = there.state;
        if there.answer.is_ok() {
            if !leave_out {
                round = event(round, x, i).state;
            }
            leave_out = false;
        }
    }
    round
}

// Whether the relay that comes back ends as the one that never stopped.
fn ends_alike(case: usize, repeat: Repeat) -> Result<bool, Refusal> {
    let x = seed(case);
    let before = pick(x, 56, 24);
    let to = wrapping_add_usize(before, wrapping_add_usize(pick(x, 57, 24), 1));
    let kept = run(opened(x)?, x, 0, before);
    let mut out = [0u8; BUFFER];
    let used = checkpoints::save(kept, &mut out, pick(x, 58, 300))?;
    let resumed = restore_from(&out, used, 0)?;
    let last = run(kept, x, before, to);
    let again = match repeat {
        Repeat::All => run(resumed, x, before, to),
        Repeat::Changes => repeated(resumed, kept, x, before, to, false),
        Repeat::ChangesButFirst => repeated(resumed, kept, x, before, to, true),
    };
    Ok(states::alike(last, again))
}

pub fn replayed(case: usize, repeat: Repeat) -> usize {
    match ends_alike(case, repeat) {
        Ok(same) => over(same, 0, DIFFER),
        Err(_) => DIFFER,
    }
}
