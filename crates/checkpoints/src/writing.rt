// A save's bytes, row after row of numbers of one width.
ghost use Rattle.std.specs.Prelude.{◌≡◌, ◌++◌, ℕ, ◌+◌, ◌*◌, ◌^◌, ◌≤◌, ◌<◌, length, take, drop};
ghost use Rattle.refusals.specs.Codes.{accepted, code_of_result};
ghost use Rattle.lists.specs.Lists.{at};
ghost use Rattle.plans.specs.Plans.{max_length};
ghost use Rattle.numerals.specs.Bytes.{bytes_of_all};
ghost use Rattle.checkpoints.specs.Checkpoints.{save_size, save_of, save_code};

use crate::{FIRST_MARK, HALF, LAST_MARK, LEAST, WORD};
use arithmetic::Symbol;
use numerals::write_numbers;
use refusals::{Refusal, refuse_unless};
use rounds::RelayRound;

// The bytes of U, of V, of the cluster and of L.
const ONE: usize = 1;

// The mark as a number of two bytes.
const MARK: Symbol = FIRST_MARK as Symbol + 256 * LAST_MARK as Symbol;

// The bytes of a save with so many sums, and as many held.
pub(crate) fn size_of(length: usize) -> usize
    requires { length ≤ max_length }
    ensures { result ≡ save_size length }
{
    LEAST + 2 * WORD * length
}

// The state's checks, then that of the room after the used bytes.
pub(crate) fn check_saving(round: RelayRound, out: &[u8], used: usize) -> Result<(), Refusal>
    ensures { code_of_result result ≡ save_code round out.now used }
{
    round.check_state()?;
    refuse_unless(used <= out.len(), Refusal::WrongLength)?;
    refuse_unless(
        out.len() - used >= size_of(round.round.length),
        Refusal::WrongLength,
    )
}

// Puts numbers at a place, and says the place after them.
fn put(width: usize, numbers: &[Symbol], out: &mut [u8], place: usize) -> usize
    requires { (width ≤ 4) × ((k : ℕ) → at numbers.now k < 256 ^ width) × (place + width * length numbers.now ≤ length out.old) }
    ensures { (result ≡ place + width * length numbers.now)
        × (out.new ≡ take place out.old ++ bytes_of_all width numbers.now
        ++ drop (place + width * length numbers.now) out.old) }
{
    let end = place + width * numbers.len();
    write_numbers(width, numbers, &mut out[place..end]);
    end
}

// A save, row by row; and the place after it.
pub(crate) fn write_save(round: RelayRound, out: &mut [u8], used: usize) -> usize
    requires { accepted ≡ save_code round out.old used }
    ensures { (result ≡ used + save_size round.round.length)
        × (out.new ≡ take used out.old ++ save_of round
        ++ drop (used + save_size round.round.length) out.old) }
{
    let inner = round.round;
    let ahead = round.ahead;
    let length = inner.length;
    let counts = [
        inner.clusters as Symbol,
        inner.size as Symbol,
        round.cluster as Symbol,
        length as Symbol,
    ];
    let words = [inner.q, inner.number];
    let rolls = [inner.reported as Symbol, ahead.reported as Symbol];
    let sums = inner.sums;
    let held = ahead.sums;
    let trailer = [size_of(length) as Symbol, MARK];
    let mut place = put(ONE, &counts, out, used);
    place = put(WORD, &words, out, place);
    place = put(HALF, &rolls, out, place);
    place = put(WORD, &sums[..length], out, place);
    place = put(WORD, &held[..length], out, place);
    put(HALF, &trailer, out, place)
}
