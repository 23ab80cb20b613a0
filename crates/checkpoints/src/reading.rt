// Finding a save from the end of the used bytes, and reading it.
ghost use Rattle.std.specs.Prelude.{◌≡◌, false, not, eqb, ◌+◌, ◌*◌, ◌≤◌, [], ◌∷◌, IfOk};
ghost use lib.ListN.{length};
ghost use Rattle.refusals.specs.Codes.{code, first_of, code_of_result};
ghost use Rattle.lists.specs.Lists.{at};
ghost use Rattle.plans.specs.Plans.{counts_fit, length_fits, max_length};
ghost use Rattle.checkpoints.specs.Checkpoints.{save_size, distance_at, bad_trailer_at, bad_way, last_byte, start_at, length_at, sums_at, round_at};

use crate::writing::size_of;
use crate::{
    AHEAD, CLUSTER, CLUSTERS, FIRST_MARK, HALF, LAST_MARK, LEAST, LENGTH, NUMBER, PRIME, REPORTED,
    SIZE, SUMS, TRAILER, WORD,
};
use arithmetic::Symbol;
use numerals::{number_at, read_numbers};
use plans::{Plan, counts_fit, length_fits};
use refusals::{Refusal, refuse_unless};
use rounds::{Held, RelayRound, Round};

// The distance in the trailer of a save that ends here.
pub(crate) fn distance_at(bytes: &[u8], end: usize) -> usize
    requires { 4 ≤ end }
    ensures { result ≡ distance_at bytes.now end }
{
    number_at(HALF, bytes, end - TRAILER) as usize
}

// Whether no save within the bytes ends here.
fn bad_trailer_at(bytes: &[u8], end: usize) -> bool
    requires { end ≤ length bytes.now }
    ensures { result ≡ bad_trailer_at bytes.now end }
{
    if end < TRAILER || bytes[end - 2] != FIRST_MARK || bytes[end - 1] != LAST_MARK {
        return true;
    }
    let distance = distance_at(bytes, end);
    distance < LEAST || end < distance
}

// Where the save ends that lies so many steps back, if neither it nor a save on the way is bad.
pub(crate) fn end_of(bytes: &[u8], steps: usize) -> Result<usize, Refusal>
    ensures code { code_of_result result ≡ first_of ((bad_way bytes.now steps (length bytes.now), code 5) ∷ []) }
    ensures found { IfOk result (λ e. (e ≡ last_byte bytes.now steps) × (e ≤ length bytes.now) × (bad_trailer_at bytes.now e ≡ false)) }
{
    let mut end = bytes.len();
    for _step in 0..steps {
        if bad_trailer_at(bytes, end) {
            return Err(Refusal::BadTrailer);
        }
        end -= distance_at(bytes, end);
    }
    if bad_trailer_at(bytes, end) {
        return Err(Refusal::BadTrailer);
    }
    Ok(end)
}

// The counts of the save that ends here, and its length, which must be that of its distance: 1, 9, 4.
pub(crate) fn check_size(bytes: &[u8], end: usize) -> Result<(), Refusal>
    requires { (end ≤ length bytes.now) × (bad_trailer_at bytes.now end ≡ false) }
    ensures { code_of_result result ≡ first_of (
        (not (counts_fit (at bytes.now (start_at bytes.now end)) (at bytes.now (start_at bytes.now end + 1)) 0), code 1)
        ∷ (not (length_fits (length_at bytes.now end)), code 9)
        ∷ (not (eqb (distance_at bytes.now end) (save_size (length_at bytes.now end))), code 4)
        ∷ []) }
{
    let distance = distance_at(bytes, end);
    let start = end - distance;
    let clusters = bytes[start + CLUSTERS] as usize;
    let size = bytes[start + SIZE] as usize;
    let length = bytes[start + LENGTH] as usize;
    refuse_unless(counts_fit(clusters, size, 0), Refusal::OutOfBounds)?;
    refuse_unless(length_fits(length), Refusal::BadBlockLength)?;
    refuse_unless(distance == size_of(length), Refusal::WrongLength)
}

// A row of sums, 0 past them.
fn sums_at(bytes: &[u8], length: usize, from: usize) -> [Symbol; Plan::MAX_LENGTH]
    requires { (length ≤ max_length) × (from + 4 * length ≤ lib.ListN.length bytes.now) }
    ensures { result ≡ sums_at bytes.now length from }
{
    let mut sums = [0; Plan::MAX_LENGTH];
    read_numbers(WORD, bytes, from, length, &mut sums);
    sums
}

// The round of the save that ends here, once its length is known to be that of its distance.
pub(crate) fn round_at(bytes: &[u8], end: usize) -> RelayRound
    requires { (end ≤ length bytes.now) × (bad_trailer_at bytes.now end ≡ false)
        × (length_at bytes.now end ≤ max_length) × (distance_at bytes.now end ≡ save_size (length_at bytes.now end)) }
    ensures { result ≡ round_at bytes.now end }
{
    let start = end - distance_at(bytes, end);
    let length = bytes[start + LENGTH] as usize;
    let sums = sums_at(bytes, length, start + SUMS);
    let held = sums_at(bytes, length, start + SUMS + WORD * length);
    let round = Round {
        clusters: bytes[start + CLUSTERS] as usize,
        size: bytes[start + SIZE] as usize,
        q: number_at(WORD, bytes, start + PRIME),
        length,
        number: number_at(WORD, bytes, start + NUMBER),
        reported: number_at(HALF, bytes, start + REPORTED) as u16,
        sums,
    };
    let ahead = Held {
        reported: number_at(HALF, bytes, start + AHEAD) as u16,
        sums: held,
    };
    RelayRound {
        cluster: bytes[start + CLUSTER] as usize,
        round,
        ahead,
    }
}
