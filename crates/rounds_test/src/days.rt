// Days: a relay's whole run, from its opening on, through several rounds. Each call gets what the call before handed back, and after every event the answer,
// the lent buffer and the whole state are held to the ledger.
use crate::faults::{frame_number, give_number, move_number};
use crate::ledger::{Ledger, entered, relay_of, round_of};
use crate::model::{beyond, holds_sums};
use crate::numbers::{DIFFER, UNTOUCHED, one_in, pick};
use crate::shapes::{block, edge, number, opened, room};
use crate::steps::{agrees, open};
use crate::turns::is_early;
use arithmetic::Symbol;
use refusals::Step;
use rounds::{RelayRound, Round};
use std::num::{wrapping_add_u32, wrapping_add_usize, wrapping_sub_u32};
use testing::{clip, over, power, product, quotient, residue, seed, state, wide, wide16};

// What is wrong in what is expected after an event: in the round, in what is held for the next one, or the answer.
#[derive(Clone, Copy, Debug, PartialEq, Eq)]
pub enum WrongDay {
    Reported,
    Sum,
    HeldReported,
    HeldSum,
    Number,
    Answer,
}

pub fn wrong_day(number: usize) -> WrongDay {
    match number {
        0 => WrongDay::Reported,
        1 => WrongDay::Sum,
        2 => WrongDay::HeldReported,
        3 => WrongDay::HeldSum,
        4 => WrongDay::Number,
        _ => WrongDay::Answer,
    }
}

// The relay as the library has it and as the ledger says; whether the two differed at some event; and the mistake to be planted at the next.
#[derive(Clone, Copy, Debug, PartialEq, Eq)]
struct Day {
    relay: RelayRound,
    want: RelayRound,
    ledger: Ledger,
    differs: bool,
    mistake: Option<WrongDay>,
}

// The number of the day's first round: by chance the first there is, or one of the last.
fn first(x: usize) -> u32 {
    match pick(x, 90, 16) {
        0 | 1 => 0,
        2 => 4294967290,
        3 | 4 => 4294967293,
        5 | 6 => 4294967294,
        7 => 4294967295,
        _ => (state(x, 91) % 4294967296) as u32,
    }
}

// What is expected, with one wrong thing where a mistake is to be planted; a wrong answer is below.
fn mistaken(mut want: RelayRound, mistake: Option<WrongDay>) -> RelayRound {
    let mut round = want.round;
    let mut ahead = want.ahead;
    match mistake {
        Some(WrongDay::Reported) => round.reported = round.reported ^ 1,
        Some(WrongDay::Sum) => round.sums[0] = round.sums[0] ^ 1,
        Some(WrongDay::HeldReported) => ahead.reported = ahead.reported ^ 1,
        Some(WrongDay::HeldSum) => ahead.sums[0] = ahead.sums[0] ^ 1,
        Some(WrongDay::Number) => round.number = round.number ^ 1,
        Some(WrongDay::Answer) | None => {}
    }
    want.round = round;
    want.ahead = ahead;
    want
}

// After every event, and after the opening: the answer, the state and what else was compared.
fn judged(mut day: Day, number: usize, step: Step<RelayRound>, same: bool) -> Day {
    let want = mistaken(relay_of(day.ledger), day.mistake);
    let wrong = over(day.mistake == Some(WrongDay::Answer), 1, 0);
    let number = wrapping_add_usize(number, wrong);
    let outcome = agrees(number, want.cluster, want.round, want.ahead, step, same);
    day.relay = step.state;
    day.want = want;
    day.differs = day.differs | (outcome == DIFFER);
    day
}

fn begun(x: usize) -> Day {
    let mut relay = opened(false, x);
    let mut round = relay.round;
    round.number = first(x);
    relay.round = round;
    let ledger = Ledger {
        opened: relay,
        blocks: beyond(x),
        moved: 0,
        entries: 0,
        list: [0; 144],
    };
    let day = Day {
        relay,
        want: relay,
        ledger,
        differs: false,
        mistake: None,
    };
    match open(false, relay) {
        Ok(opened) => judged(day, 0, Step::made(opened), true),
        Err(refusal) => judged(day, 0, Step::refused(refusal, relay), true),
    }
}

// The number that a frame has: mostly the round's or the next one's, by chance the one before, the one after the next, or any.
fn said(r: u32, x: usize) -> u32 {
    match pick(x, 95, 16) {
        0 => wrapping_sub_u32(r, 1),
        1 => wrapping_add_u32(r, 2),
        2 => number(x),
        3..=8 => wrapping_add_u32(r, 1),
        _ => r,
    }
}

// The first, from a place on and round again, who has not reported; where all have, the one at that place.
fn owing(reported: usize, size: usize, place: usize) -> usize {
    for i in 0..size {
        let v = residue(wrapping_add_usize(place, i), size);
        if quotient(reported, power(65536, 2, v)) % 2 == 0 {
            return wrapping_add_usize(v, 1);
        }
    }
    wrapping_add_usize(place, 1)
}

// Mostly one who has not reported in the round that the frame is for, by chance anyone, or a stranger.
fn sender(round: Round, x: usize) -> usize {
    let place = pick(x, 96, round.size);
    match pick(x, 97, 16) {
        0 => 0,
        1 => wrapping_add_usize(round.size, 1),
        2 => edge(pick(x, 98, 9)),
        3 | 4 => wrapping_add_usize(place, 1),
        _ => owing(wide16(round.reported), round.size, place),
    }
}

// A frame, held against the round that it is for; where it is counted the ledger is `more`.
fn heard(
    mut day: Day,
    aim: Round,
    more: Ledger,
    sender: usize,
    said: u32,
    block: &[Symbol],
) -> Day {
    let names = product(wide16(aim.reported), 2);
    let number = frame_number(aim.size, aim, names, sender, said, block);
    let relay = day.relay;
    let step = relay.count(sender, said, block);
    if number == 0 {
        day.ledger = more;
    }
    judged(day, number, step, true)
}

// Every event has a block of its own, so that a frame that comes again carries another one.
fn frame(day: Day, event: usize, x: usize) -> Day {
    let want = day.want;
    let ledger = day.ledger;
    let round = want.round;
    let said = said(round.number, x);
    let later = over(is_early(false, round, said), 1, 0);
    let aim = round_of(ledger, later);
    let sender = sender(aim, x);
    let more = entered(ledger, later, sender, event);
    let seed = wrapping_add_usize(ledger.blocks, event);
    let symbols = block(wide(aim.q), seed, one_in(x, 18, 12));
    let n = clip(room(x, aim.length), 66);
    heard(day, aim, more, sender, said, &symbols[..n])
}

fn moved(mut day: Day) -> Day {
    let want = day.want;
    let number = move_number(want.round);
    let relay = day.relay;
    let step = relay.advance();
    let mut ledger = day.ledger;
    ledger.moved = wrapping_add_usize(ledger.moved, over(number == 0, 1, 0));
    day.ledger = ledger;
    judged(day, number, step, true)
}

fn given(day: Day, out: &mut [Symbol]) -> Day {
    let want = day.want;
    let round = want.round;
    let number = give_number(round.size, round, out.len());
    let relay = day.relay;
    let step = relay.give(out);
    judged(day, number, step, holds_sums(out, number, round))
}

fn sums(day: Day, x: usize) -> Day {
    let want = day.want;
    let round = want.round;
    let n = clip(room(x, round.length), 66);
    let mut out = [UNTOUCHED; 66];
    given(day, &mut out[..n])
}

// Mostly frames; a round that can move on does so more often.
fn turn(day: Day, event: usize) -> Day {
    let want = day.want;
    let ledger = day.ledger;
    let round = want.round;
    let x = state(ledger.blocks, wrapping_add_usize(event, 100));
    let ready = move_number(round) == 0;
    let n = pick(x, 99, 16);
    if n < over(ready, 6, 1) {
        moved(day)
    } else if n > 13 {
        sums(day, x)
    } else {
        frame(day, event, x)
    }
}

// A day of 40 to 48 events. Its number is how often it has moved on, 14 where more often: of what the other kinds cannot show, that tells most, since each
// round moved on to begins with what was held for it.
pub fn played(case: usize, mistake: Option<WrongDay>) -> usize {
    let x = seed(case);
    let many = wrapping_add_usize(40, pick(x, 92, 9));
    let wrong = pick(x, 93, 40);
    let mut day = begun(x);
    for event in 0..many {
        day.mistake = if event == wrong { mistake } else { None };
        day = turn(day, event);
    }
    let ledger = day.ledger;
    over(day.differs, DIFFER, clip(ledger.moved, 14))
}
