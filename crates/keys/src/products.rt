// One product more in every position of a user's keys, without a division on a source symbol. The reciprocal of q is made once a call, by the one division by
// q. A coefficient of the key table is no secret: what it is of q, its fraction, comes of that reciprocal once for all positions. With it a product modulo q
// takes multiplications, and divisions by the width of a symbol, which are shifts. A product that is one q too small gets a q by its own high half, and a sum
// less q that is below 0 by a comparison. No jump on a symbol was seen in the machine code (x86-64, docs/MACHINE-CODE.md); that is what was seen, and no
// promise.
ghost use Rattle.std.specs.Prelude.{◌≡◌, ℕ, ◌+◌, ◌-◌, ◌*◌, ◌/◌, ◌%◌, ◌<◌, ◌≤◌, length};
ghost use Rattle.lists.specs.Lists.{at, tab};

use arithmetic::{Symbol, Wide};

// How many numbers a symbol's type has, the largest number of the wide one, and the largest q whose square is within the first.
const WIDTH: Wide = 4294967296;

const WIDEST: Wide = 18446744073709551615;

const SMALL: Symbol = 65536;

// How often q goes into the largest number.
pub(crate) fn reciprocal_of(q: Symbol) -> Wide
    requires { 0 < q }
    ensures { (result * q < 18446744073709551616) × (18446744073709551616 ≤ result * q + q) }
{
    WIDEST / q as Wide
}

// What a is of q as a part of the width, rounded down, and one more: by a multiplication with each half of the reciprocal, whose sum is at most two too few.
fn fraction(q: Symbol, reciprocal: Wide, a: Symbol) -> Symbol
    requires { (a < q) × (reciprocal * q < 18446744073709551616) × (18446744073709551616 ≤ reciprocal * q + q) }
    ensures { (a * 4294967296 ≤ result * q) × (result * q ≤ a * 4294967296 + q) }
{
    let high = reciprocal / WIDTH;
    let low = reciprocal % WIDTH;
    let parts = a as Wide * high + a as Wide * low / WIDTH;
    let rest = a as Wide * WIDTH - parts * q as Wide;
    if rest < q as Wide {
        (parts + 1) as Symbol
    } else {
        (parts + 2) as Symbol
    }
}

// Over less under modulo q, where they are at most q apart: the high half of a difference below 0 is all ones, of any other it is 0.
fn difference(q: Symbol, over: Wide, under: Wide) -> Symbol
    requires { (over < under + q) × (under ≤ over + q) }
    ensures { result ≡ (over + q - under) % q }
{
    let less = std::num::wrapping_sub_u64(over, under);
    let low = (less % WIDTH) as Symbol;
    let high = (less / WIDTH) as Symbol;
    std::num::wrapping_add_u32(low, q & high)
}

// With q small enough for exact fractions: what w b has past whole widths is as much of the width as the product modulo q is of q.
fn small_product(q: Symbol, w: Symbol, b: Symbol) -> Symbol
    ensures { result ≡ w * b % 4294967296 * q / 4294967296 }
{
    let rest = w as Wide * b as Wide % WIDTH;
    (rest * q as Wide / WIDTH) as Symbol
}

// With any q: as many times q as w b has whole widths comes off, which is at most once too often.
fn large_product(q: Symbol, a: Symbol, w: Symbol, b: Symbol) -> Symbol
    requires { (b < q) × (a * 4294967296 ≤ w * q) × (w * q ≤ a * 4294967296 + q) }
    ensures { result ≡ a * b % q }
{
    let times = w as Wide * b as Wide / WIDTH;
    difference(q, a as Wide * b as Wide, times * q as Wide)
}

// a b modulo q, for a with the fraction w.
fn product(q: Symbol, a: Symbol, w: Symbol, b: Symbol) -> Symbol
    requires { (b < q) × (a * 4294967296 ≤ w * q) × (w * q ≤ a * 4294967296 + q) }
    ensures { result ≡ a * b % q }
{
    if q <= SMALL {
        small_product(q, w, b)
    } else {
        large_product(q, a, w, b)
    }
}

// One product more on a sum. The new sum less q is below 0, and gets its q again, just where the old one is less than what the product leaves of q.
fn add_to(q: Symbol, sum: Symbol, more: Symbol) -> Symbol
    requires { (sum < q) × (more < q) }
    ensures { result ≡ (sum + more) % q }
{
    let room = q - more;
    let again = if sum < room { q } else { 0 };
    std::num::wrapping_add_u32(std::num::wrapping_sub_u32(sum, room), again)
}

// On the sum of each position the product of the coefficient with that position's symbol. No position waits for another, so the machine takes several at once.
pub(crate) fn add_products(
    q: Symbol,
    reciprocal: Wide,
    a: Symbol,
    symbols: &[Symbol],
    sums: &mut [Symbol],
)
    requires { (a < q) × (reciprocal * q < 18446744073709551616) × (18446744073709551616 ≤ reciprocal * q + q)
        × (length symbols.now ≡ length sums.old) × ((p : ℕ) → p < length sums.old → at symbols.now p < q)
        × ((p : ℕ) → p < length sums.old → at sums.old p < q) }
    ensures { sums.new
        ≡ tab (length sums.old) (λ p. (at sums.old p + a * at symbols.now p) % q) }
{
    let w = fraction(q, reciprocal, a);
    for p in 0..sums.len() {
        let more = product(q, a, w, symbols[p]);
        sums[p] = add_to(q, sums[p], more);
    }
}
