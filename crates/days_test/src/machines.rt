// A day of calls. What is called is drawn from the seed, and so fixed without the readings: openings, frames, frames once more, movings on, sums asked for, and
// now and then a frame of an unknown sender or one with symbols of its own.
use crate::keys_of::{length_of, number_of};
use crate::numbers::{ANSWERS, CALLS, pick, place};
use crate::readings::pair;
use crate::shapes::Setup;
use arithmetic::Symbol;
use refusals::Refusal;
use rounds::{RelayRound, ServerRound};
use std::num::{wrapping_add_usize, wrapping_sub_usize};
use testing::{clip, mul_add, narrow, over, product, put, wide};

// What is called. A server does not move on.
#[derive(Clone, Copy, Debug, PartialEq, Eq)]
enum What {
    Opening,
    Move,
    Sums,
    Frame,
}

// What a lent buffer holds before a call: no symbol.
const UNTOUCHED: Symbol = 9;

// Call c of the schedule: what it is, for which round, from which sender, and with which symbols where they are not the sender's own: nobody's frame, or one of
// an unknown sender.
#[derive(Clone, Copy, Debug, PartialEq, Eq)]
struct Call {
    what: What,
    k: usize,
    sender: usize,
    forged: bool,
    symbols: [Symbol; 2],
}

// Of 16 calls one is an opening, two move on, two ask for sums, and all others are frames.
static WHAT: [What; 6] = [
    What::Opening,
    What::Move,
    What::Move,
    What::Sums,
    What::Sums,
    What::Frame,
];

// A day begins with an opening, and later calls are mostly of the second round.
fn scheduled(s: Setup, c: usize, first: bool, senders: usize) -> Call {
    let plan = s.plan;
    let x = wrapping_add_usize(s.x, product(c, 64));
    let q = wide(plan.q);
    let late = pick(x, 11, CALLS) < c % CALLS;
    let stranger = pick(x, 12, 12) == 0;
    let sender = pick(x, 13, senders);
    Call {
        what: if first {
            What::Opening
        } else {
            WHAT[clip(pick(x, 10, 16), 5)]
        },
        k: over(late, 1, 0),
        sender: wrapping_add_usize(over(stranger, senders, sender), 1),
        forged: stranger || pick(x, 14, 12) == 0,
        symbols: [
            narrow(pick(x, 15, wrapping_add_usize(q, 1))),
            narrow(pick(x, 16, q)),
        ],
    }
}

fn number(k: usize) -> u32 {
    if k == 0 { 7 } else { 8 }
}

// The answer stands among the first places of a row, the symbols of a frame or of the lent buffer behind all answers.
fn note(row: &mut [Symbol], c: usize, answer: usize, symbols: [Symbol; 2]) {
    put(row, c, answer);
    put(row, mul_add(ANSWERS, c, 2), wide(symbols[0]));
    put(row, mul_add(ANSWERS + 1, c, 2), wide(symbols[1]));
}

// The block of a frame: what its sender sends, user or relay i.
fn block(call: Call, i: usize, sent: &[Symbol]) -> [Symbol; 2] {
    if call.forged {
        call.symbols
    } else {
        pair(sent, place(call.k, i, 0))
    }
}

// A relay's user, from 1, is one of all users.
fn relay_hears(
    relay: RelayRound,
    s: Setup,
    u: usize,
    call: Call,
    c: usize,
    sent: &[Symbol],
    row: &mut [Symbol],
) -> RelayRound {
    let plan = s.plan;
    let n = length_of(s, call.k);
    let before = product(wrapping_sub_usize(u, 1), plan.size);
    let i = wrapping_add_usize(before, wrapping_sub_usize(call.sender, 1));
    let symbols = block(call, i, sent);
    let step = relay.count(call.sender, number(call.k), &symbols[..n]);
    note(row, c, number_of(&step.answer), symbols);
    step.state
}

fn relay_gives(relay: RelayRound, c: usize, n: usize, row: &mut [Symbol]) -> RelayRound {
    let mut out = [UNTOUCHED; 2];
    let m = clip(n, 2);
    let step = relay.give(&mut out[..m]);
    note(row, c, number_of(&step.answer), out);
    step.state
}

// The round that a call opens for relay u.
fn open_relay(s: Setup, u: usize, call: Call) -> Result<RelayRound, Refusal> {
    let plan = s.plan;
    let n = length_of(s, call.k);
    RelayRound::open(plan.clusters, plan.size, plan.q, n, u, number(call.k))
}

fn open_server(s: Setup, call: Call) -> Result<ServerRound, Refusal> {
    let plan = s.plan;
    let n = length_of(s, call.k);
    ServerRound::open(plan.clusters, plan.size, plan.q, n, number(call.k))
}

fn relay_turn(
    relay: RelayRound,
    s: Setup,
    u: usize,
    call: Call,
    c: usize,
    sent: &[Symbol],
    row: &mut [Symbol],
) -> RelayRound {
    match call.what {
        What::Frame => relay_hears(relay, s, u, call, c, sent, row),
        What::Sums => relay_gives(relay, c, length_of(s, call.k), row),
        What::Move => {
            let step = relay.advance();
            note(row, c, number_of(&step.answer), [0, 0]);
            step.state
        }
        What::Opening => {
            let opened = open_relay(s, u, call);
            note(row, c, number_of(&opened), [0, 0]);
            opened.unwrap_or(relay)
        }
    }
}

fn server_hears(
    server: ServerRound,
    s: Setup,
    call: Call,
    c: usize,
    sent: &[Symbol],
    row: &mut [Symbol],
) -> ServerRound {
    let n = length_of(s, call.k);
    let symbols = block(call, wrapping_sub_usize(call.sender, 1), sent);
    let step = server.count(call.sender, number(call.k), &symbols[..n]);
    note(row, c, number_of(&step.answer), symbols);
    step.state
}

fn server_gives(server: ServerRound, c: usize, n: usize, row: &mut [Symbol]) -> ServerRound {
    let mut out = [UNTOUCHED; 2];
    let m = clip(n, 2);
    let step = server.give(&mut out[..m]);
    note(row, c, number_of(&step.answer), out);
    step.state
}

// The server does not move on: it is asked for its sums instead.
fn server_turn(
    server: ServerRound,
    s: Setup,
    call: Call,
    c: usize,
    sent: &[Symbol],
    row: &mut [Symbol],
) -> ServerRound {
    match call.what {
        What::Frame => server_hears(server, s, call, c, sent, row),
        What::Sums | What::Move => server_gives(server, c, length_of(s, call.k), row),
        What::Opening => {
            let opened = open_server(s, call);
            note(row, c, number_of(&opened), [0, 0]);
            opened.unwrap_or(server)
        }
    }
}

// The day of relay u, from 1; its calls are noted from a place on. It begins with an opening, and nothing comes after one that is refused.
pub fn relay_day(s: Setup, u: usize, from: usize, sent: &[Symbol], row: &mut [Symbol]) {
    let plan = s.plan;
    let opened = open_relay(s, u, scheduled(s, from, true, plan.size));
    note(row, from, number_of(&opened), [0, 0]);
    let Ok(mut relay) = opened else {
        return;
    };
    for n in 1..CALLS {
        let c = wrapping_add_usize(from, n);
        let call = scheduled(s, c, false, plan.size);
        relay = relay_turn(relay, s, u, call, c, sent, row);
    }
}

pub fn server_day(s: Setup, sent: &[Symbol], row: &mut [Symbol]) {
    let plan = s.plan;
    let opened = open_server(s, scheduled(s, 0, true, plan.clusters));
    note(row, 0, number_of(&opened), [0, 0]);
    let Ok(mut server) = opened else {
        return;
    };
    for c in 1..CALLS {
        let call = scheduled(s, c, false, plan.clusters);
        server = server_turn(server, s, call, c, sent, row);
    }
}
