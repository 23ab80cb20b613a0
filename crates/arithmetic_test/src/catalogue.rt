// The catalogue of refusals: made from their numbers, and read back.
use crate::cases::Case;
use crate::numbers::{OF_16_BITS, OF_32_BITS, low16};
use refusals::{Code, Refusal, Step, code_of_result, refuse_unless};

// A code as one number, which is above all of 32 bits.
pub fn pack(number: u16, first: u16, second: u16) -> u64 {
    (number as u64 + 1) * OF_32_BITS + first as u64 * OF_16_BITS + second as u64
}

pub fn packed(code: Code) -> u64 {
    pack(code.number, code.first, code.second)
}

// Only 6, 7 and 19 hold details.
fn refusal(number: u16, first: u16, second: u16) -> Refusal {
    match number {
        1 => Refusal::OutOfBounds,
        2 => Refusal::NotPrime,
        3 => Refusal::NotASymbol,
        4 => Refusal::WrongLength,
        5 => Refusal::BadTrailer,
        6 => Refusal::NotZeroSum { column: first },
        7 => Refusal::Leaks {
            coalition: first,
            observer: second,
        },
        8 => Refusal::UnknownNumber,
        9 => Refusal::BadBlockLength,
        10 => Refusal::LimitTooLarge,
        11 => Refusal::AlreadyReported,
        12 => Refusal::NotFull,
        13 => Refusal::StreamTooShort,
        14 => Refusal::OtherRound,
        15 => Refusal::OutsideCap,
        16 => Refusal::BadCap,
        17 => Refusal::BadWindow,
        18 => Refusal::BadRounds,
        19 => Refusal::JointLeaks { coalition: first },
        20 => Refusal::PastLimit,
        21 => Refusal::BadStock,
        22 => Refusal::BadPattern,
        _ => Refusal::NotDecodable,
    }
}

fn second_code(number: u16, first: u16, second: u16) -> u64 {
    match number {
        6 | 19 => pack(number, first, 0),
        7 => pack(7, first, second),
        _ => pack(number, 0, 0),
    }
}

fn case_refusal(c: Case) -> Refusal {
    refusal(low16(c.q), low16(c.a), low16(c.b))
}

fn case_code(c: Case) -> u64 {
    second_code(low16(c.q), low16(c.a), low16(c.b))
}

pub fn refusal_agrees(c: Case) -> bool {
    let refusal = case_refusal(c);
    let (first, second) = refusal.details();
    packed(refusal.code()) == case_code(c) && pack(refusal.number(), first, second) == case_code(c)
}

pub fn result_agrees(c: Case) -> bool {
    let refused = refuse_unless(false, case_refusal(c));
    packed(code_of_result(&refused)) == case_code(c) && step_agrees(c)
}

// Steps that were made and refused, with the case's first number as the state.
fn step_agrees(c: Case) -> bool {
    let made = Step::made(c.a);
    let refused = Step::refused(case_refusal(c), c.a);
    packed(code_of_result(&made.answer)) == pack(0, 0, 0)
        && packed(code_of_result(&refused.answer)) == case_code(c)
        && made.state == c.a
        && refused.state == c.a
}
