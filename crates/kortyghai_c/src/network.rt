// The entries of network_exports, under their names, for one archive of all of them.
ghost use Rattle.std.specs.Prelude.{◌≡◌};
ghost use Rattle.refusals.specs.Codes.{first_of, if_accepted};
ghost use Rattle.networks.specs.Rings.{vet_checks, upload_checks, uploaded, sum_checks, summed, decode_checks, decoded_after};
ghost use Rattle.boundary.specs.Packed.{packed};
ghost use Rattle.network_exports.specs.Counts.{ring_of};

use arithmetic::Symbol;

// How many numbers a network has beside its key table and its coefficients, and where each stands.
const COUNTS: usize = 5;

// The vet's verdict on a network.
#[unsafe(no_mangle)]
pub extern "C" fn kortyghai_network_vet(
    counts: &[Symbol; COUNTS],
    table: &[Symbol],
    weights: &[Symbol],
) -> u64
    ensures { result ≡ packed (first_of (vet_checks (ring_of counts.now) table.now weights.now)) }
{
    network_exports::kortyghai_network_vet(counts, table, weights)
}

// What a user sends to one of its relays.
#[unsafe(no_mangle)]
pub extern "C" fn kortyghai_network_upload(
    counts: &[Symbol; COUNTS],
    weights: &[Symbol],
    user: usize,
    relay: usize,
    reading: &[Symbol],
    key: Symbol,
    out: &mut Symbol,
) -> u64
    ensures code { result ≡ packed (first_of (upload_checks (ring_of counts.now) weights.now user relay reading.now key)) }
    ensures out { out.new
        ≡ if_accepted (first_of (upload_checks (ring_of counts.now) weights.now user relay reading.now key))
        (uploaded (ring_of counts.now) weights.now user relay reading.now key) out.old }
{
    network_exports::kortyghai_network_upload(counts, weights, user, relay, reading, key, out)
}

// A relay's sum of the uploads that it got.
#[unsafe(no_mangle)]
pub extern "C" fn kortyghai_network_sum(
    counts: &[Symbol; COUNTS],
    uploads: &[Symbol],
    out: &mut Symbol,
) -> u64
    ensures code { result ≡ packed (first_of (sum_checks (ring_of counts.now) uploads.now)) }
    ensures out { out.new ≡ if_accepted (first_of (sum_checks (ring_of counts.now) uploads.now))
        (summed (ring_of counts.now) uploads.now) out.old }
{
    network_exports::kortyghai_network_sum(counts, uploads, out)
}

// The totals, at the server, from the sums of the relays that arrived.
#[unsafe(no_mangle)]
pub extern "C" fn kortyghai_network_decode(
    counts: &[Symbol; COUNTS],
    table: &[Symbol],
    weights: &[Symbol],
    reported: u16,
    sums: &[Symbol],
    out: &mut [Symbol],
) -> u64
    ensures code { result ≡ packed (first_of (decode_checks (ring_of counts.now) table.now weights.now reported
        sums.now out.old)) }
    ensures out { out.new ≡ decoded_after (ring_of counts.now) table.now weights.now reported
        sums.now out.old }
{
    network_exports::kortyghai_network_decode(counts, table, weights, reported, sums, out)
}
