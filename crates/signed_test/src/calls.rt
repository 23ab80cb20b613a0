// The three calls, each held to the second implementation in its answer and in what its buffer holds afterwards.
use crate::model::{
    DIFFER, Shape, compared, count_outside, holds_sent, holds_shown, refusal, same_readings,
};
use arithmetic::Symbol;
use signed::{show_totals, signed_unmask, signed_upload};
use std::num::wrapping_add_usize;
use testing::{count_large, over, wide};

// What is asked of the library: where an upload is accepted, to take its key off too.
#[derive(Clone, Copy, Debug, PartialEq, Eq)]
pub enum Call {
    Upload,
    Unmask,
    ShowTotals,
}

// After the shape 15, then 3.
fn uploaded(s: Shape, readings: &[i32], key: &[Symbol], out: &mut [Symbol]) -> usize {
    let plan = s.plan;
    let large = over(count_large(key, wide(plan.q)) > 0, 3, 0);
    let outside = over(count_outside(readings, s.cap) > 0, 15, large);
    let lengths = (readings.len() ^ s.length) | (key.len() ^ s.length) | (out.len() ^ s.length);
    let number = refusal(s, lengths == 0, outside);
    let answer = signed_upload(plan, s.cap, s.length, readings, key, out);
    compared(
        answer,
        number,
        holds_sent(plan.q, number, readings, key, out),
    )
}

// After the shape 3: whatever is shown, 15 is never answered.
fn unmasked(s: Shape, upload: &[Symbol], key: &[Symbol], out: &mut [i32]) -> usize {
    let plan = s.plan;
    let q = wide(plan.q);
    let large = wrapping_add_usize(count_large(upload, q), count_large(key, q));
    let lengths = (upload.len() ^ s.length) | (key.len() ^ s.length) | (out.len() ^ s.length);
    let number = refusal(s, lengths == 0, over(large > 0, 3, 0));
    let answer = signed_unmask(plan, s.cap, s.length, upload, key, out);
    compared(
        answer,
        number,
        holds_shown(plan.q, number, upload, key, out),
    )
}

// The same without a key: an empty one takes nothing off.
pub fn totalled(s: Shape, totals: &[Symbol], out: &mut [i32]) -> usize {
    let plan = s.plan;
    let large = count_large(totals, wide(plan.q));
    let lengths = (totals.len() ^ s.length) | (out.len() ^ s.length);
    let number = refusal(s, lengths == 0, over(large > 0, 3, 0));
    let answer = show_totals(plan, s.cap, s.length, totals, out);
    compared(
        answer,
        number,
        holds_shown(plan.q, number, totals, &totals[..0], out),
    )
}

// What was sent shows the readings again.
pub fn given_back(
    s: Shape,
    readings: &[i32],
    key: &[Symbol],
    out: &mut [Symbol],
    shown: &mut [i32],
) -> usize {
    let number = uploaded(s, readings, key, out);
    if number > 0 {
        number
    } else {
        let back = unmasked(s, out, key, shown);
        over(same_readings(readings, shown), back, DIFFER)
    }
}

pub fn asked(
    call: Call,
    s: Shape,
    readings: &[i32],
    symbols: &[Symbol],
    key: &[Symbol],
    out: &mut [Symbol],
    shown: &mut [i32],
) -> usize {
    match call {
        Call::Upload => given_back(s, readings, key, out, shown),
        Call::Unmask => unmasked(s, symbols, key, shown),
        Call::ShowTotals => totalled(s, symbols, shown),
    }
}
