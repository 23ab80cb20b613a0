// A signed number as a symbol, and a symbol as the signed number that it shows. Both arms of a choice are sums that are at hand, in a width that holds a
// symbol with a sign. No jump on a reading was seen in the machine code of travels and shown (docs/MACHINE-CODE.md); that is what was seen, and no promise.
ghost use Rattle.std.specs.Prelude.{◌≡◌, ◌<◌, nat_abs};
ghost use Rattle.signed.specs.Numbers.{travels, symbol_of, shown_of};
ghost use Rattle.signed.specs.Caps.{is_in_cap};

use arithmetic::Symbol;

// q + w for a negative w.
fn travels(q: Symbol, w: i32) -> i64
    ensures { result ≡ travels q w }
{
    let number = w as i64;
    let moved = q as i64 + number;
    if number < 0 { moved } else { number }
}

pub(crate) fn symbol_of(q: Symbol, w: i32) -> Symbol
    requires { nat_abs w < q }
    ensures { result ≡ symbol_of q w }
{
    travels(q, w) as Symbol
}

// Of t and t − q the one that is nearer to 0, and t − q where both are as near: written as a sum of both, so that the compiler makes no jump of it.
pub(crate) fn shown(q: Symbol, t: Symbol) -> i32
    requires { t < q }
    ensures { result ≡ shown_of q t }
{
    let number = t as i64;
    let less = number - q as i64;
    if number + less < 0 {
        number as i32
    } else {
        less as i32
    }
}

pub(crate) fn in_cap(cap: u32, w: i32) -> bool
    ensures { result ≡ is_in_cap cap w }
{
    let number = w as i64;
    let most = cap as i64;
    number <= most && -most <= number
}
