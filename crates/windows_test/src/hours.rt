// A day of quarter hours. What the two relays of a pool send the server adds up to each quarter hour's total, which the server gives and shows.
use crate::numbers::HALF;
use arithmetic::Symbol;
use plans::Plan;
use rounds::ServerRound;
use signed::show_totals;
use std::num::wrapping_add_usize;
use testing::{narrow, product, residue};

// A pool of two relays with four users each, and the largest cap that its prime leaves room for.
const RELAYS: usize = 2;

const USERS: usize = 4;

const Q: Symbol = 65521;

const PRIME: usize = 65521;

const CAP: u32 = 4095;

// What a total is kept with is taken off modulo q by adding this.
const OFF: usize = PRIME - HALF % PRIME;

// No symbol is so large, and nothing is shown that is so far below 0.
const NOT_GIVEN: Symbol = 4294967295;

const UNSHOWN: i32 = -2147483648;

// The total of quarter hour k, from 1, is STEP (FACTOR k mod PERIOD) - BELOW. Over 96 of them the remainder is each number from 1 to 96 once.
const STEP: usize = 20;

const FACTOR: usize = 37;

const PERIOD: usize = 97;

const BELOW: usize = 900;

// The mask of quarter hour k is this k modulo q.
const MASK: usize = 12345;

// The total of quarter hour i, from 0, as it is kept.
pub fn load(i: usize) -> usize {
    HALF - BELOW + product(STEP, product(FACTOR, wrapping_add_usize(i, 1)) % PERIOD)
}

// A total on its way: the first relay's sum has it, with a mask added that the second relay's sum takes off again.
pub fn shown(kept: usize, i: usize) -> i32 {
    let mask = product(MASK, wrapping_add_usize(i, 1)) % PRIME;
    let first = [narrow(residue(wrapping_add_usize(kept, OFF + mask), PRIME))];
    let second = [narrow((PRIME - mask) % PRIME)];
    let number = narrow(i);
    let mut total = [NOT_GIVEN];
    if let Ok(round) = ServerRound::open(RELAYS, USERS, Q, 1, number) {
        let one = round.count(1, number, &first);
        let two = one.state.count(2, number, &second);
        two.state.give(&mut total);
    }
    let plan = Plan {
        clusters: RELAYS,
        size: USERS,
        limit: 1,
        rate: 1,
        q: Q,
    };
    let mut seen = [UNSHOWN];
    match show_totals(plan, CAP, 1, &total, &mut seen) {
        Ok(()) => seen[0],
        Err(_) => UNSHOWN,
    }
}
