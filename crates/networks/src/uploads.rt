// What a user sends to a relay, and what a relay sends to the server.
ghost use Rattle.std.specs.Prelude.{◌≡◌, ◌&&◌, [], ◌-◌, ◌*◌, ◌+◌, ◌%◌, ◌<◌, length, leb, ltb, eqb};
ghost use Rattle.lists.specs.Lists.{at};
ghost use Rattle.lists.specs.Sums.{sum_to};
ghost use Rattle.refusals.specs.Codes.{first_of, code_of_result, outcome, outcome_of};
ghost use Rattle.residues.specs.Primes.{all_below};
ghost use Rattle.cyclic.specs.Network.{linked};
ghost use Rattle.networks.specs.Rings.{network_of, weights_fit, upload_checks, upload_of, uploaded, sum_checks, summed};
ghost use Rattle.networks.specs.Machine.{Counted};

use crate::Ring;
use crate::bounds::{check_counts, check_symbols};
use crate::verdict::{both_below, weights_fit};
use arithmetic::{Symbol, add_mod, all_below, mul_add_mod};
use refusals::{Refusal, refuse_unless};

// The combination of a reading and a key with the coefficients of link l of user k.
fn combine(
    ring: Ring,
    weights: &[Symbol],
    k: usize,
    l: usize,
    reading: &[Symbol],
    key: Symbol,
) -> Symbol
    requires { Counted ring × (0 < ring.q) × (length weights.now ≡ ring.size * ring.links * (ring.parts + 1)) × (k < ring.size) × (l < ring.links)
        × (length reading.now ≡ ring.parts) }
    ensures { result ≡ upload_of ring weights.now k l reading.now key }
{
    let base = (k * ring.links + l) * (ring.parts + 1);
    let mut sum: Symbol = 0;
    for s in 0..ring.parts {
        sum = mul_add_mod(ring.q, sum, weights[base + s], reading[s]);
    }
    mul_add_mod(ring.q, sum, weights[base + ring.parts], key)
}

// Whether the reading has n symbols and the coefficients are as many as the counts say.
fn upload_lengths(ring: Ring, weights: &[Symbol], reading: &[Symbol]) -> bool
    requires { Counted ring }
    ensures { result ≡ (weights_fit ring weights.now && eqb (length reading.now) ring.parts) }
{
    weights_fit(ring, weights) && reading.len() == ring.parts
}

fn upload_below(q: Symbol, weights: &[Symbol], reading: &[Symbol], key: Symbol) -> bool
    ensures { result ≡ (all_below q weights.now && all_below q reading.now && ltb key q) }
{
    both_below(q, weights, reading) && key < q
}

// Whether user and relay, counted from 1, are there and linked.
fn are_linked(ring: Ring, user: usize, relay: usize) -> bool
    requires { Counted ring }
    ensures { result ≡ (leb 1 user && leb user ring.size && leb 1 relay && leb relay ring.size
        && linked (network_of ring [] []) (user - 1) (relay - 1)) }
{
    1 <= user
        && user <= ring.size
        && 1 <= relay
        && relay <= ring.size
        && (user - 1 + (ring.size - (relay - 1))) % ring.size < ring.links
}

fn check_upload(
    ring: Ring,
    weights: &[Symbol],
    user: usize,
    relay: usize,
    reading: &[Symbol],
    key: Symbol,
) -> Result<(), Refusal>
    ensures { code_of_result result ≡ first_of (upload_checks ring weights.now user relay reading.now key) }
{
    check_counts(ring)?;
    let lengths = upload_lengths(ring, weights, reading);
    let below = upload_below(ring.q, weights, reading, key);
    check_symbols(ring.q, lengths, below)?;
    refuse_unless(are_linked(ring, user, relay), Refusal::UnknownNumber)
}

// What a user sends to a relay that it is linked to.
pub fn upload(
    ring: Ring,
    weights: &[Symbol],
    user: usize,
    relay: usize,
    reading: &[Symbol],
    key: Symbol,
) -> Result<Symbol, Refusal>
    ensures { outcome_of result ≡ outcome (upload_checks ring weights.now user relay reading.now key)
        (uploaded ring weights.now user relay reading.now key) }
{
    check_upload(ring, weights, user, relay, reading, key)?;
    let k = user - 1;
    let l = (k + (ring.size - (relay - 1))) % ring.size;
    Ok(combine(ring, weights, k, l, reading, key))
}

fn add_all(q: Symbol, uploads: &[Symbol]) -> Symbol
    requires { 0 < q }
    ensures { result ≡ sum_to (length uploads.now) (λ l. at uploads.now l) % q }
{
    let mut sum: Symbol = 0;
    for &upload in uploads {
        sum = add_mod(q, sum, upload);
    }
    sum
}

fn check_sum(ring: Ring, uploads: &[Symbol]) -> Result<(), Refusal>
    ensures { code_of_result result ≡ first_of (sum_checks ring uploads.now) }
{
    check_counts(ring)?;
    check_symbols(
        ring.q,
        uploads.len() == ring.links,
        all_below(ring.q, uploads),
    )
}

// The sum of a relay's d uploads.
pub fn relay_sum(ring: Ring, uploads: &[Symbol]) -> Result<Symbol, Refusal>
    ensures { outcome_of result ≡ outcome (sum_checks ring uploads.now) (summed ring uploads.now) }
{
    check_sum(ring, uploads)?;
    Ok(add_all(ring.q, uploads))
}
