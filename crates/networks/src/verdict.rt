// The verdict on a network: its counts, lengths and symbols, and the first observer that leaks.
ghost use Rattle.std.specs.Prelude.{◌≡◌, ◌≤◌, ◌&&◌, [], ◌∷◌};
ghost use Rattle.refusals.specs.Codes.{first_of, code_of_result};
ghost use Rattle.residues.specs.Primes.{all_below};
ghost use Rattle.networks.specs.Rings.{network_of, table_fits, weights_fit, leak_at, leak_checks, network_checks, vet_checks};
ghost use Rattle.networks.specs.Machine.{Counted, Ready};

use crate::Ring;
use crate::bounds::{check_counts, check_symbols};
use crate::grids::leaks_to;
use arithmetic::{Symbol, all_below};
use refusals::{Refusal, refuse_unless};

// Whether the key table and the coefficients are as long as the counts say.
pub(crate) fn table_fits(ring: Ring, table: &[Symbol]) -> bool
    requires { Counted ring }
    ensures { result ≡ table_fits ring table.now }
{
    table.len() == ring.size * ring.rate
}

pub(crate) fn weights_fit(ring: Ring, weights: &[Symbol]) -> bool
    requires { Counted ring }
    ensures { result ≡ weights_fit ring weights.now }
{
    weights.len() == ring.size * ring.links * (ring.parts + 1)
}

pub(crate) fn lengths_fit(ring: Ring, table: &[Symbol], weights: &[Symbol]) -> bool
    requires { Counted ring }
    ensures { result ≡ (table_fits ring table.now && weights_fit ring weights.now) }
{
    table_fits(ring, table) && weights_fit(ring, weights)
}

// Whether the numbers of both are symbols.
pub(crate) fn both_below(q: Symbol, a: &[Symbol], b: &[Symbol]) -> bool
    ensures { result ≡ (all_below q a.now && all_below q b.now) }
{
    all_below(q, a) && all_below(q, b)
}

// Every check before 7.
fn check_network(ring: Ring, table: &[Symbol], weights: &[Symbol]) -> Result<(), Refusal>
    ensures { code_of_result result ≡ first_of (network_checks ring table.now weights.now) }
{
    check_counts(ring)?;
    let lengths = lengths_fit(ring, table, weights);
    let below = both_below(ring.q, table, weights);
    check_symbols(ring.q, lengths, below)
}

// Refuses observer w where it leaks: relays count from 1, and the server is 0.
fn check_observer(ring: Ring, table: &[Symbol], weights: &[Symbol], w: usize) -> Result<(), Refusal>
    requires { Ready ring table.now weights.now × (w ≤ ring.size) }
    ensures { code_of_result result ≡ first_of (leak_at (network_of ring table.now weights.now) w ∷ []) }
{
    let refusal = Refusal::Leaks {
        coalition: 0,
        observer: w as u16,
    };
    refuse_unless(!leaks_to(ring, table, weights, w), refusal)
}

// The relays in rising order and then the server: the first that leaks is named.
fn find_leak(ring: Ring, table: &[Symbol], weights: &[Symbol]) -> Result<(), Refusal>
    requires { Ready ring table.now weights.now }
    ensures { code_of_result result ≡ first_of (leak_checks (network_of ring table.now weights.now) ring.size 0) }
{
    for j in 0..ring.size {
        check_observer(ring, table, weights, j + 1)?;
    }
    check_observer(ring, table, weights, 0)
}

// Whether the network keeps readings secret from each relay and from the server; the first observer that leaks is named.
pub fn vet(ring: Ring, table: &[Symbol], weights: &[Symbol]) -> Result<(), Refusal>
    ensures { code_of_result result ≡ first_of (vet_checks ring table.now weights.now) }
{
    check_network(ring, table, weights)?;
    find_leak(ring, table, weights)
}
