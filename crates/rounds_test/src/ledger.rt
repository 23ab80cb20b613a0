// The second implementation of a day: a list of what was counted, of whatever round, which is never shortened, and how often the day has moved on. Who has
// reported in a round and its sums are found by going through the whole list, whenever they are wanted.
use crate::shapes::held_of;
use arithmetic::Symbol;
use rounds::{RelayRound, Round};
use std::num::{wrapping_add_u32, wrapping_add_usize, wrapping_sub_usize};
use testing::{at, clip, narrow, narrow16, power, product, put, residue, state, wide};

// What was opened, and the list: three numbers an entry, which are the round, counted from the day's first one, the sender, and the number of the event,
// whose block is the one drawn from the seed `blocks` + that number. Of 48 events each can have one.
#[derive(Clone, Copy, Debug, PartialEq, Eq)]
pub struct Ledger {
    pub opened: RelayRound,
    pub blocks: usize,
    pub moved: usize,
    pub entries: usize,
    pub list: [Symbol; 144],
}

// Who has reported in a round, a bit for each sender; a sender that is in the list twice makes another number.
fn roll(list: &[Symbol], entries: usize, round: usize) -> usize {
    let mut n: usize = 0;
    for i in 0..entries {
        let a = product(i, 3);
        if at(list, a) == round {
            let sender = at(list, wrapping_add_usize(a, 1));
            n = wrapping_add_usize(n, power(65536, 2, wrapping_sub_usize(sender, 1)));
        }
    }
    n
}

// A round's sum in position p, from 0, reduced once.
fn sum(list: &[Symbol], entries: usize, round: usize, blocks: usize, q: usize, p: usize) -> usize {
    let mut n: usize = 0;
    for i in 0..entries {
        let a = product(i, 3);
        if at(list, a) == round {
            let x = wrapping_add_usize(blocks, at(list, wrapping_add_usize(a, 2)));
            n = wrapping_add_usize(n, residue(state(x, p), q));
        }
    }
    residue(n, q)
}

// The round that the day is in, or the one that is so much later.
pub fn round_of(ledger: Ledger, later: usize) -> Round {
    let opened = ledger.opened;
    let mut round = opened.round;
    let list = ledger.list;
    let offset = wrapping_add_usize(ledger.moved, later);
    let n = clip(round.length, 64);
    let q = wide(round.q);
    for p in 0..n {
        round.sums[p] = narrow(sum(&list, ledger.entries, offset, ledger.blocks, q, p));
    }
    round.number = wrapping_add_u32(round.number, narrow(offset));
    round.reported = narrow16(roll(&list, ledger.entries, offset));
    round
}

pub fn relay_of(ledger: Ledger) -> RelayRound {
    let opened = ledger.opened;
    RelayRound {
        cluster: opened.cluster,
        round: round_of(ledger, 0),
        ahead: held_of(round_of(ledger, 1)),
    }
}

// With one entry more.
pub fn entered(mut ledger: Ledger, later: usize, sender: usize, event: usize) -> Ledger {
    let mut list = ledger.list;
    let a = product(ledger.entries, 3);
    put(&mut list, a, wrapping_add_usize(ledger.moved, later));
    put(&mut list, wrapping_add_usize(a, 1), sender);
    put(&mut list, wrapping_add_usize(a, 2), event);
    ledger.list = list;
    ledger.entries = wrapping_add_usize(ledger.entries, 1);
    ledger
}
