// The cases of document 01 that are to be run, with their answers written out.
use crate::numbers::{DIFFER, UNTOUCHED, compared, holds, number_of};
use crate::shapes::{empty, nothing};
use crate::steps::open;
use arithmetic::Symbol;
use rounds::RelayRound;
use streams::draw_from;
use testing::over;

// Relay 1 of a plan with 2 users in each cluster.
fn opens(clusters: usize, q: usize, length: usize, number: usize) -> usize {
    let s = RelayRound {
        cluster: 1,
        round: empty(clusters, 2, q, length, 1),
        ahead: nothing(),
    };
    compared(number_of(&open(false, s)), number, true)
}

// The first frame is counted, the second from the same user is not.
fn second_frame() -> usize {
    let block = [3 as Symbol; 1];
    match RelayRound::open(2, 2, 5, 1, 1, 1) {
        Ok(opened) => {
            let first = opened.count(2, 1, &block);
            let second = first.state.count(2, 1, &block);
            compared(number_of(&second.answer), 11, first.answer.is_ok())
        }
        Err(_) => DIFFER,
    }
}

// A draw of 5 symbols from a stream of 8. What the buffer holds and where the position stands are compared too: a refused draw leaves both.
fn draw_case(at: usize, number: usize) -> usize {
    let stream = [1 as Symbol, 2, 3, 4, 5, 6, 7, 8];
    let mut out = [UNTOUCHED; 5];
    let drawn = draw_from(&stream, at, 5, &mut out);
    let same = holds(&out, number, &stream, at) && drawn.state == over(number > 0, at, 8);
    compared(number_of(&drawn.answer), number, same)
}

// q 65,521 passes, 65,535 and 1 don't; L 64 passes, 65 and 0 don't; U 9 is refused. Of the draws the first finds exactly L left, the second
// one less.
pub fn tried(case: usize) -> usize {
    match case {
        0 => opens(2, 65521, 1, 0),
        1 => opens(2, 65535, 1, 2),
        2 => opens(2, 1, 1, 2),
        3 => opens(2, 5, 64, 0),
        4 => opens(2, 5, 65, 9),
        5 => opens(2, 5, 0, 9),
        6 => opens(9, 5, 1, 1),
        7 => second_frame(),
        8 => draw_case(3, 0),
        _ => draw_case(4, 13),
    }
}
