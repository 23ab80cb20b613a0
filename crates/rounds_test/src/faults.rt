// What is refused, by the paper's orders, from the last fault to the first.
use arithmetic::Symbol;
use rounds::{RelayRound, Round};
use std::num::wrapping_add_usize;
use testing::{at, count_large, is_outside, over, power, product, quotient, wide, wide16};

// How many may report: relays to the server, users to a relay.
pub fn senders(server: bool, round: Round) -> usize {
    over(server, round.clusters, round.size)
}

// The primes that are tried; all other numbers that are tried are none.
pub fn is_prime(q: Symbol) -> bool {
    match q {
        2 | 3 | 5 | 7 => true,
        257 | 65519 | 65521 | 65537 => true,
        2147483647 | 4294967279 | 4294967291 => true,
        _ => false,
    }
}

// Opening: 1, 2, 9, 8. A server has no number of its own.
pub fn opening_number(server: bool, s: RelayRound, otherwise: usize) -> usize {
    let round = s.round;
    let known = over(is_outside(s.cluster, round.clusters), 8, otherwise);
    let length = over(
        is_outside(round.length, 64),
        9,
        over(server, otherwise, known),
    );
    let prime = over(is_prime(round.q), length, 2);
    let users = over(
        is_outside(product(round.clusters, round.size), 16),
        1,
        prime,
    );
    let size = over(is_outside(round.size, 8), 1, users);
    over(is_outside(round.clusters, 8), 1, size)
}

// 3 where a sum is too large for its position: below q, and 0 past the length.
fn sums_number(sums: &[Symbol], q: usize, length: usize, otherwise: usize) -> usize {
    let mut number = otherwise;
    for p in 0..sums.len() {
        number = over(at(sums, p) >= over(p < length, q, 1), 3, number);
    }
    number
}

// A state that is handed in: 1, 2, 9, 8, 3, a relay's of both rolls and both rows of sums. Where the counts are within their bounds there are at most 8
// senders.
pub fn state_number(server: bool, s: RelayRound, otherwise: usize) -> usize {
    let round = s.round;
    let sums = round.sums;
    let ahead = s.ahead;
    let others = ahead.sums;
    let first = sums_number(&sums, wide(round.q), round.length, otherwise);
    let both = sums_number(&others, wide(round.q), round.length, first);
    let large = over(server, first, both);
    let most = power(65536, 2, senders(server, round) % 16);
    let second = over(over(server, 0, wide16(ahead.reported)) >= most, 8, large);
    opening_number(server, s, over(wide16(round.reported) >= most, 8, second))
}

// A frame, held against the round that it is for: 8, 14, 4, 3, 11.
pub fn frame_number(
    senders: usize,
    round: Round,
    names: usize,
    sender: usize,
    number: u32,
    block: &[Symbol],
) -> usize {
    let named = quotient(names, power(65536, 2, sender % 16)) % 2;
    let again = over(named == 1, 11, 0);
    let large = over(count_large(block, wide(round.q)) > 0, 3, again);
    let length = over(block.len() != round.length, 4, large);
    let late = over(number != round.number, 14, length);
    over(is_outside(sender, senders), 8, late)
}

// Giving sums: 12, 4.
pub fn give_number(senders: usize, round: Round, room: usize) -> usize {
    let all = power(65536, 2, senders % 16);
    over(
        wrapping_add_usize(wide16(round.reported), 1) != all,
        12,
        over(room != round.length, 4, 0),
    )
}

// Moving on: 14, 12.
pub fn move_number(round: Round) -> usize {
    let full = give_number(round.size, round, round.length);
    over(round.number == 4294967295, 14, full)
}
