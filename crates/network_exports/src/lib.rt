// Entries of cyclic networks for callers in other languages: numbers, slices and arrays alone, and the same promises as the functions that they call.
#![tactic(auto)]

ghost use Rattle.std.specs.Prelude.{◌≡◌};
ghost use Rattle.refusals.specs.Codes.{first_of, if_accepted};
ghost use Rattle.networks.specs.Rings.{vet_checks, upload_checks, uploaded, sum_checks, summed, decode_checks, decoded_after};
ghost use Rattle.boundary.specs.Packed.{packed};
ghost use Rattle.network_exports.specs.Counts.{ring_of};

use arithmetic::Symbol;
use boundary::{hand_over, pack_verdict};
use networks::Ring;

// How many numbers a network has beside its key table and its coefficients, and where each stands.
const COUNTS: usize = 5;

const SIZE: usize = 0;

const LINKS: usize = 1;

const PARTS: usize = 2;

const RATE: usize = 3;

const Q: usize = 4;

fn ring_of(counts: [Symbol; COUNTS]) -> Ring
    ensures { result ≡ ring_of counts }
{
    Ring {
        size: counts[SIZE] as usize,
        links: counts[LINKS] as usize,
        parts: counts[PARTS] as usize,
        rate: counts[RATE] as usize,
        q: counts[Q],
    }
}

// The vet's verdict on a network.
#[unsafe(no_mangle)]
pub extern "C" fn kortyghai_network_vet(
    counts: &[Symbol; COUNTS],
    table: &[Symbol],
    weights: &[Symbol],
) -> u64
    ensures { result ≡ packed (first_of (vet_checks (ring_of counts.now) table.now weights.now)) }
{
    pack_verdict(networks::vet(ring_of(*counts), table, weights))
}

// What a user sends to one of its relays.
#[unsafe(no_mangle)]
pub extern "C" fn kortyghai_network_upload(
    counts: &[Symbol; COUNTS],
    weights: &[Symbol],
    user: usize,
    relay: usize,
    reading: &[Symbol],
    key: Symbol,
    out: &mut Symbol,
) -> u64
    ensures code { result ≡ packed (first_of (upload_checks (ring_of counts.now) weights.now user relay reading.now key)) }
    ensures out { out.new
        ≡ if_accepted (first_of (upload_checks (ring_of counts.now) weights.now user relay reading.now key))
        (uploaded (ring_of counts.now) weights.now user relay reading.now key) out.old }
{
    hand_over(
        networks::upload(ring_of(*counts), weights, user, relay, reading, key),
        out,
    )
}

// A relay's sum of the uploads that it got.
#[unsafe(no_mangle)]
pub extern "C" fn kortyghai_network_sum(
    counts: &[Symbol; COUNTS],
    uploads: &[Symbol],
    out: &mut Symbol,
) -> u64
    ensures code { result ≡ packed (first_of (sum_checks (ring_of counts.now) uploads.now)) }
    ensures out { out.new ≡ if_accepted (first_of (sum_checks (ring_of counts.now) uploads.now))
        (summed (ring_of counts.now) uploads.now) out.old }
{
    hand_over(networks::relay_sum(ring_of(*counts), uploads), out)
}

// The totals, at the server, from the sums of the relays that arrived.
#[unsafe(no_mangle)]
pub extern "C" fn kortyghai_network_decode(
    counts: &[Symbol; COUNTS],
    table: &[Symbol],
    weights: &[Symbol],
    reported: u16,
    sums: &[Symbol],
    out: &mut [Symbol],
) -> u64
    ensures code { result ≡ packed (first_of (decode_checks (ring_of counts.now) table.now weights.now reported
        sums.now out.old)) }
    ensures out { out.new ≡ decoded_after (ring_of counts.now) table.now weights.now reported
        sums.now out.old }
{
    pack_verdict(networks::decode(ring_of(*counts), table, weights, reported, sums, out))
}
