// One step of a round, from a state that the model gives: since the state after a step is held to the model too, it may as well be the one
// that the steps before led to.
use crate::faults::{
    frame_number, give_number, move_number, opening_number, senders, state_number,
};
use crate::model::{beyond, handed, holds_sums, with_names};
use crate::numbers::{UNTOUCHED, compared, number_of, one_in, pick};
use crate::shapes::{block, edge, held_of, next_round, nothing, number, room};
use crate::steps::{agrees, count, give, open};
use arithmetic::Symbol;
use refusals::Step;
use rounds::{RelayRound, Round};
use std::num::{wrapping_add_u32, wrapping_add_usize};
use testing::{clip, mul_add, over, power, seed, wide, wide16};

pub fn opening(case: usize) -> usize {
    let x = seed(case);
    let server = one_in(x, 8, 2);
    let s = handed(server, x);
    let number = opening_number(server, s, 0);
    let cluster = over(server, 0, s.cluster);
    match open(server, s) {
        Ok(relay) => agrees(
            number,
            cluster,
            with_names(s.round, 0, x),
            nothing(),
            Step::made(relay),
            true,
        ),
        refused => compared(number_of(&refused), number, true),
    }
}

// What is wrong in the expected state: who has reported, or a sum.
#[derive(Clone, Copy, Debug, PartialEq, Eq)]
pub enum WrongFrame {
    Name,
    Sum,
}

pub fn wrong_frame(number: usize) -> WrongFrame {
    if number == 0 {
        WrongFrame::Name
    } else {
        WrongFrame::Sum
    }
}

// The expected state, with one wrong thing where a mistake is to be planted.
fn expected(
    number: usize,
    given: Round,
    names: usize,
    x: usize,
    mistake: Option<WrongFrame>,
) -> Round {
    let mut want = given;
    if number == 0 {
        want = with_names(given, names, x);
    }
    match mistake {
        Some(WrongFrame::Name) => want.reported = want.reported ^ 1,
        Some(WrongFrame::Sum) => want.sums[0] = want.sums[0] ^ 1,
        None => {}
    }
    want
}

// The number that a frame has: mostly the round's, by chance another one or the next.
fn said(round: Round, x: usize) -> u32 {
    if one_in(x, 41, 3) {
        wrapping_add_u32(round.number, 1)
    } else {
        number(over(one_in(x, 16, 12), seed(x), x))
    }
}

// Whether the frame is for the round after this one, which a server does not hear.
pub fn is_early(server: bool, round: Round, said: u32) -> bool {
    let last = round.number == 4294967295;
    !server && !last && said == wrapping_add_u32(round.number, 1)
}

fn counted(
    server: bool,
    s: RelayRound,
    sender: usize,
    x: usize,
    said: u32,
    block: &[Symbol],
    mistake: Option<WrongFrame>,
) -> usize {
    let given = s.round;
    let early = is_early(server, given, said);
    let mut aim = given;
    if early {
        aim = next_round(given, s.ahead);
    }
    let names = mul_add(x % 2, 2, wide16(aim.reported));
    let frame = frame_number(senders(server, given), aim, names, sender, said, block);
    let number = state_number(server, s, frame);
    let more = wrapping_add_usize(names, power(65536, 2, sender % 16));
    let want = expected(number, aim, more, x, mistake);
    let step = count(server, s, sender, said, block);
    if early {
        agrees(number, s.cluster, given, held_of(want), step, true)
    } else {
        agrees(number, s.cluster, want, s.ahead, step, true)
    }
}

// Senders come again, and some are strangers. Most frames are good, some are early, late or damaged, and some have several faults.
pub fn frame(case: usize, mistake: Option<WrongFrame>) -> usize {
    let x = seed(case);
    let server = one_in(x, 8, 2);
    let s = handed(server, x);
    let round = s.round;
    let said = said(round, x);
    let base = over(is_early(server, round, said), beyond(x), x);
    let known = pick(x, 13, senders(server, round)) % 16 + 1;
    let sender = over(one_in(x, 11, 16), edge(pick(x, 12, 9)), known);
    let q = wide(round.q);
    let symbols = block(q, wrapping_add_usize(base, sender), one_in(x, 18, 12));
    let n = clip(room(x, round.length), 66);
    counted(server, s, sender, base, said, &symbols[..n], mistake)
}

pub fn moved(case: usize) -> usize {
    let x = seed(case);
    let s = handed(false, x);
    let round = s.round;
    let number = state_number(false, s, move_number(round));
    let step = s.advance();
    if number > 0 {
        agrees(number, s.cluster, round, s.ahead, step, true)
    } else {
        agrees(
            number,
            s.cluster,
            next_round(round, s.ahead),
            nothing(),
            step,
            true,
        )
    }
}

fn given(server: bool, s: RelayRound, out: &mut [Symbol]) -> usize {
    let round = s.round;
    let give_number = give_number(senders(server, round), round, out.len());
    let number = state_number(server, s, give_number);
    let step = give(server, s, out);
    agrees(
        number,
        s.cluster,
        round,
        s.ahead,
        step,
        holds_sums(out, number, round),
    )
}

pub fn sums(case: usize) -> usize {
    let x = seed(case);
    let server = one_in(x, 8, 2);
    let s = handed(server, x);
    let round = s.round;
    let n = clip(room(x, round.length), 66);
    let mut out = [UNTOUCHED; 66];
    given(server, s, &mut out[..n])
}
