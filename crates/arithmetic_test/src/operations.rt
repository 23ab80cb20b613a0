// The operations against the second implementation: each in its form without tests, and in the form with tests where there is one.
use crate::cases::Case;
use crate::catalogue::{pack, packed};
use crate::counting::{
    add_often, inverse, last_below, one, power, rest, symbol_difference, symbol_sum,
};
use crate::divisors::{Divisors, has_two};
use crate::numbers::{LARGEST, wide};
use arithmetic::Symbol;
use refusals::Refusal;

#[derive(Clone, Copy, Debug, PartialEq, Eq)]
pub enum Operation {
    Sum,
    Difference,
    SymbolSum,
    SymbolDifference,
    Opposite,
    Product,
    MulAdd,
    Cross,
    Power,
    Inverse,
}

// m a, less b times what the exponent is here: taken off by as many steps of what lacks to it.
fn second_cross(q: u64, a: u64, b: u64, c: Case) -> u64 {
    let minus = add_often(q, 0, last_below(q), wide(c.exponent));
    add_often(q, add_often(q, 0, a, wide(c.m)), minus, b)
}

// One step up is to add 1, one step down to add the last number below q.
fn second_result(operation: Operation, c: Case) -> u64 {
    let q = wide(c.q);
    let a = rest(q, wide(c.a));
    let b = wide(c.b);
    match operation {
        Operation::Sum => add_often(q, a, one(q), b),
        Operation::Difference => add_often(q, a, last_below(q), b),
        Operation::SymbolSum => symbol_sum(q, wide(c.a), b),
        Operation::SymbolDifference => symbol_difference(q, wide(c.a), b),
        Operation::Opposite => add_often(q, 0, last_below(q), wide(c.a)),
        Operation::Product => add_often(q, 0, a, b),
        Operation::MulAdd => add_often(q, a, rest(q, wide(c.m)), b),
        Operation::Cross => second_cross(q, a, b, c),
        Operation::Power => power(q, a, c.exponent as u64),
        Operation::Inverse => inverse(q, a),
    }
}

fn result(operation: Operation, c: Case) -> Symbol {
    match operation {
        Operation::Sum => arithmetic::add_mod(c.q, c.a, c.b),
        Operation::Difference => arithmetic::sub_mod(c.q, c.a, c.b),
        Operation::SymbolSum => arithmetic::add_symbols(c.q, c.a, c.b),
        Operation::SymbolDifference => arithmetic::sub_symbols(c.q, c.a, c.b),
        Operation::Opposite => arithmetic::opposite_mod(c.q, c.a),
        Operation::Product => arithmetic::mul_mod(c.q, c.a, c.b),
        Operation::MulAdd => arithmetic::mul_add_mod(c.q, c.a, c.m, c.b),
        Operation::Cross => arithmetic::cross_mod(c.q, c.m, c.a, c.exponent, c.b),
        Operation::Power => arithmetic::power_mod(c.q, c.a, c.exponent),
        Operation::Inverse => arithmetic::inverse_mod(c.q, c.a),
    }
}

// A value as it is, and a refusal as a number above all values.
pub fn outcome(answer: Result<Symbol, Refusal>) -> u64 {
    match answer {
        Ok(v) => wide(v),
        Err(refusal) => packed(refusal.code()),
    }
}

// 2 where q is no prime, then 3 where a number is not below q; 0 where nothing is to be refused.
pub fn refusal_number(divisors: &Divisors, q: Symbol, a: Symbol, b: Symbol) -> u16 {
    if !has_two(divisors, q) {
        2
    } else if q <= a || q <= b {
        3
    } else {
        0
    }
}

// The second number that is to be below q. 0 has no inverse: it is refused as a number that is never below q.
fn second_symbol(operation: Operation, c: Case) -> Symbol {
    match operation {
        Operation::Power => c.a,
        Operation::Inverse => if c.a == 0 { LARGEST } else { c.a },
        _ => c.b,
    }
}

fn answer(operation: Operation, c: Case) -> Result<Symbol, Refusal> {
    match operation {
        Operation::Sum => arithmetic::sum(c.q, c.a, c.b),
        Operation::Difference => arithmetic::difference(c.q, c.a, c.b),
        Operation::Product => arithmetic::product(c.q, c.a, c.b),
        Operation::Power => arithmetic::power(c.q, c.a, c.exponent),
        _ => arithmetic::inverse(c.q, c.a),
    }
}

fn checked_agrees(divisors: &Divisors, operation: Operation, c: Case, second: u64) -> bool {
    let number = refusal_number(divisors, c.q, c.a, second_symbol(operation, c));
    let expected = if number == 0 {
        second
    } else {
        pack(number, 0, 0)
    };
    outcome(answer(operation, c)) == expected
}

// Where both are symbols, what needs no division is what counting gives.
fn symbols_agree(operation: Operation, c: Case, second: u64) -> bool {
    let counted = match operation {
        Operation::SymbolSum => Operation::Sum,
        _ => Operation::Difference,
    };
    c.q <= c.a || c.q <= c.b || second == second_result(counted, c)
}

// The opposite, the product added to a number and the crossing have no form with tests.
pub fn operation_agrees(divisors: &Divisors, operation: Operation, c: Case) -> bool {
    let second = second_result(operation, c);
    let checked = match operation {
        Operation::Opposite | Operation::MulAdd | Operation::Cross => true,
        Operation::SymbolSum | Operation::SymbolDifference => symbols_agree(operation, c, second),
        _ => checked_agrees(divisors, operation, c, second),
    };
    checked && wide(result(operation, c)) == second
}
