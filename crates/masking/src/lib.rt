// Uploads, and taking a key off. Nothing here branches on a reading or a key or divides one, once they are known to be symbols.
#![tactic(auto)]

ghost use Rattle.std.specs.Prelude.{◌≡◌, ◌<◌, T, length};
ghost use Rattle.refusals.specs.Codes.{code_of_result};
ghost use Rattle.residues.specs.Primes.{all_below};
ghost use Rattle.masking.specs.Blocks.{upload_of, unmasked_of, block_code, upload_after, unmask_after};

use arithmetic::{Symbol, add_symbols, all_below, sub_symbols};
use plans::length_fits;
use primes::is_prime;
use refusals::{Refusal, refuse_unless};

// Position by position, by the same instructions whatever the symbols are.
fn write_upload(q: Symbol, readings: &[Symbol], key: &[Symbol], out: &mut [Symbol])
    requires { (0 < q) × (length readings.now ≡ length out.old) × (length key.now ≡ length out.old) × T (all_below q readings.now)
        × T (all_below q key.now) }
    ensures { out.new ≡ upload_of q (length out.old) readings.now key.now }
{
    for p in 0..out.len() {
        out[p] = add_symbols(q, readings[p], key[p]);
    }
}

fn write_unmasked(q: Symbol, upload: &[Symbol], key: &[Symbol], out: &mut [Symbol])
    requires { (0 < q) × (length upload.now ≡ length out.old) × (length key.now ≡ length out.old) × T (all_below q upload.now)
        × T (all_below q key.now) }
    ensures { out.new ≡ unmasked_of q (length out.old) upload.now key.now }
{
    for p in 0..out.len() {
        out[p] = sub_symbols(q, upload[p], key[p]);
    }
}

// The refusals of both: they ask the same of their blocks. The last test goes through a whole block whatever stands in it; its time tells at most which block
// has a number that is no symbol.
fn check_blocks(
    q: Symbol,
    length: usize,
    a: &[Symbol],
    b: &[Symbol],
    out: &[Symbol],
) -> Result<(), Refusal>
    ensures { code_of_result result ≡ block_code q length a.now b.now out.now }
{
    refuse_unless(is_prime(q), Refusal::NotPrime)?;
    refuse_unless(length_fits(length), Refusal::BadBlockLength)?;
    refuse_unless(
        a.len() == length && b.len() == length && out.len() == length,
        Refusal::WrongLength,
    )?;
    refuse_unless(all_below(q, a) && all_below(q, b), Refusal::NotASymbol)
}

// What a user sends: each reading with the key's symbol added.
pub fn upload(
    q: Symbol,
    length: usize,
    readings: &[Symbol],
    key: &[Symbol],
    out: &mut [Symbol],
) -> Result<(), Refusal>
    ensures code { code_of_result result ≡ block_code q length readings.now key.now out.old }
    ensures out { out.new ≡ upload_after q length readings.now key.now out.old }
{
    check_blocks(q, length, readings, key, out)?;
    write_upload(q, readings, key, out);
    Ok(())
}

// The readings of an upload, for whoever has its key.
pub fn unmask(
    q: Symbol,
    length: usize,
    upload: &[Symbol],
    key: &[Symbol],
    out: &mut [Symbol],
) -> Result<(), Refusal>
    ensures code { code_of_result result ≡ block_code q length upload.now key.now out.old }
    ensures out { out.new ≡ unmask_after q length upload.now key.now out.old }
{
    check_blocks(q, length, upload, key, out)?;
    write_unmasked(q, upload, key, out);
    Ok(())
}
