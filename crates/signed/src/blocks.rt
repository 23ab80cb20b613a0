// Signed uploads, taking a key off, and totals shown. Once the readings are known to be inside the cap and the key to be symbols, no jump and no division on
// one was seen (docs/MACHINE-CODE.md).
ghost use Rattle.std.specs.Prelude.{◌≡◌, ◌-◌, ◌<◌, not, ◌&&◌, [], ◌∷◌, ◌++◌, map, T, eqb, length};
ghost use Rattle.refusals.specs.Codes.{code, first_of, code_of_result};
ghost use Rattle.residues.specs.Primes.{all_below};
ghost use Rattle.masking.specs.Blocks.{upload_of, unmasked_of};
ghost use Rattle.signed.specs.Numbers.{symbol_of, shown_of};
ghost use Rattle.signed.specs.Caps.{all_in_cap};
ghost use Rattle.signed.specs.SignedBlocks.{cap_checks, signed_upload_code, signed_upload_after};
ghost use Rattle.signed.specs.SignedBlocks.{signed_unmask_code, signed_unmask_after, totals_code, totals_after};

use crate::caps::{all_in_cap, cap_fits};
use crate::numbers::{shown, symbol_of};
use arithmetic::{Symbol, add_symbols, all_below, sub_symbols};
use plans::{Plan, length_fits};
use primes::is_prime;
use refusals::{Refusal, refuse_unless};

// Whether three blocks have the length that is asked for.
fn as_long(length: usize, a: usize, b: usize, c: usize) -> bool
    ensures { result ≡ (eqb a length && eqb b length && eqb c length) }
{
    a == length && b == length && c == length
}

// Checks 1, 2, 16, 9 and 4, the first of every signed call. The caller says whether its blocks have this length.
fn check_shape(plan: Plan, cap: u32, length: usize, sized: bool) -> Result<(), Refusal>
    ensures { code_of_result result ≡ first_of (cap_checks plan cap length ++ (not sized, code 4) ∷ []) }
{
    refuse_unless(plan.in_bounds(), Refusal::OutOfBounds)?;
    refuse_unless(is_prime(plan.q), Refusal::NotPrime)?;
    refuse_unless(cap_fits(plan, cap), Refusal::BadCap)?;
    refuse_unless(length_fits(length), Refusal::BadBlockLength)?;
    refuse_unless(sized, Refusal::WrongLength)
}

// An upload: the shape, then 15 and 3.
fn check_upload(
    plan: Plan,
    cap: u32,
    length: usize,
    readings: &[i32],
    key: &[Symbol],
    out: &[Symbol],
) -> Result<(), Refusal>
    ensures { code_of_result result ≡ signed_upload_code plan cap length readings.now key.now out.now }
{
    let sized = as_long(length, readings.len(), key.len(), out.len());
    check_shape(plan, cap, length, sized)?;
    refuse_unless(all_in_cap(cap, readings), Refusal::OutsideCap)?;
    refuse_unless(all_below(plan.q, key), Refusal::NotASymbol)
}

// Taking a key off: the shape, then 3.
fn check_unmask(
    plan: Plan,
    cap: u32,
    length: usize,
    upload: &[Symbol],
    key: &[Symbol],
    out: &[i32],
) -> Result<(), Refusal>
    ensures { code_of_result result ≡ signed_unmask_code plan cap length upload.now key.now out.now }
{
    let sized = as_long(length, upload.len(), key.len(), out.len());
    check_shape(plan, cap, length, sized)?;
    refuse_unless(
        all_below(plan.q, upload) && all_below(plan.q, key),
        Refusal::NotASymbol,
    )
}

// Totals: the shape, then 3.
fn check_totals(
    plan: Plan,
    cap: u32,
    length: usize,
    totals: &[Symbol],
    out: &[i32],
) -> Result<(), Refusal>
    ensures { code_of_result result ≡ totals_code plan cap length totals.now out.now }
{
    let sized = totals.len() == length && out.len() == length;
    check_shape(plan, cap, length, sized)?;
    refuse_unless(all_below(plan.q, totals), Refusal::NotASymbol)
}

// Position by position: the reading as a symbol, and the key added.
fn write_upload(q: Symbol, readings: &[i32], key: &[Symbol], out: &mut [Symbol])
    requires { (0 < q) × (length readings.now ≡ length out.old) × (length key.now ≡ length out.old) × T (all_in_cap (q - 1) readings.now)
        × T (all_below q key.now) }
    ensures { out.new ≡ upload_of q (length out.old) (map (symbol_of q) readings.now) key.now }
{
    for p in 0..out.len() {
        out[p] = add_symbols(q, symbol_of(q, readings[p]), key[p]);
    }
}

fn write_shown(q: Symbol, upload: &[Symbol], key: &[Symbol], out: &mut [i32])
    requires { (0 < q) × (length upload.now ≡ length out.old) × (length key.now ≡ length out.old) × T (all_below q upload.now)
        × T (all_below q key.now) }
    ensures { out.new ≡ map (shown_of q) (unmasked_of q (length out.old) upload.now key.now) }
{
    for p in 0..out.len() {
        out[p] = shown(q, sub_symbols(q, upload[p], key[p]));
    }
}

fn write_totals(q: Symbol, totals: &[Symbol], out: &mut [i32])
    requires { (0 < q) × (length totals.now ≡ length out.old) × T (all_below q totals.now) }
    ensures { out.new ≡ map (shown_of q) totals.now }
{
    for p in 0..out.len() {
        out[p] = shown(q, totals[p]);
    }
}

// What a user sends of signed readings: each as a symbol, with the key's symbol added.
pub fn signed_upload(
    plan: Plan,
    cap: u32,
    length: usize,
    readings: &[i32],
    key: &[Symbol],
    out: &mut [Symbol],
) -> Result<(), Refusal>
    ensures code { code_of_result result ≡ signed_upload_code plan cap length readings.now key.now out.old }
    ensures out { out.new ≡ signed_upload_after plan cap length readings.now key.now out.old }
{
    check_upload(plan, cap, length, readings, key, out)?;
    write_upload(plan.q, readings, key, out);
    Ok(())
}

// The signed readings of an upload, for whoever has its key.
pub fn signed_unmask(
    plan: Plan,
    cap: u32,
    length: usize,
    upload: &[Symbol],
    key: &[Symbol],
    out: &mut [i32],
) -> Result<(), Refusal>
    ensures code { code_of_result result ≡ signed_unmask_code plan cap length upload.now key.now out.old }
    ensures out { out.new ≡ signed_unmask_after plan cap length upload.now key.now out.old }
{
    check_unmask(plan, cap, length, upload, key, out)?;
    write_shown(plan.q, upload, key, out);
    Ok(())
}

// A block of totals, shown.
pub fn show_totals(
    plan: Plan,
    cap: u32,
    length: usize,
    totals: &[Symbol],
    out: &mut [i32],
) -> Result<(), Refusal>
    ensures code { code_of_result result ≡ totals_code plan cap length totals.now out.old }
    ensures out { out.new ≡ totals_after plan cap length totals.now out.old }
{
    check_totals(plan, cap, length, totals, out)?;
    write_totals(plan.q, totals, out);
    Ok(())
}
