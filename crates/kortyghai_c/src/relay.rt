// The entries of relay_exports, under their names, for one archive of all of them.
ghost use Rattle.std.specs.Prelude.{◌≡◌};
ghost use Rattle.refusals.specs.Codes.{if_accepted};
ghost use Rattle.lists.specs.Lists.{zeros};
ghost use Rattle.plans.specs.Plans.{max_length};
ghost use Rattle.rounds.specs.Ledger.{frame};
ghost use Rattle.rounds.specs.Relays.{relay_code, relay_next, relay_give_code, relay_sums, move_code, moved};
ghost use Rattle.boundary.specs.Packed.{packed};
ghost use Rattle.relay_exports.specs.States.{relay_of, relay_open_code, counts_of};
ghost use Rattle.checkpoints.specs.Checkpoints.{save_code, bytes_after, used_after, restore_code, restored};

use arithmetic::Symbol;
use plans::Plan;

// How many numbers of a round are lent in one run, and where each stands.
const COUNTS: usize = 5;

// A round in which nobody has reported, where the counts are not refused. Any number will do for a round, so that none is asked.
#[unsafe(no_mangle)]
pub extern "C" fn kortyghai_relay_open(
    counts: &[Symbol; COUNTS],
    reported: &mut u16,
    sums: &mut [Symbol; Plan::MAX_LENGTH],
    ahead: &mut u16,
    held: &mut [Symbol; Plan::MAX_LENGTH],
) -> u64
    ensures code { result ≡ packed (relay_open_code counts.now) }
    ensures bits { reported.new ≡ if_accepted (relay_open_code counts.now) 0 reported.old }
    ensures totals { sums.new ≡ if_accepted (relay_open_code counts.now) (zeros max_length) sums.old }
    ensures early { ahead.new ≡ if_accepted (relay_open_code counts.now) 0 ahead.old }
    ensures kept { held.new ≡ if_accepted (relay_open_code counts.now) (zeros max_length) held.old }
{
    relay_exports::kortyghai_relay_open(counts, reported, sums, ahead, held)
}

// A frame into the round, or ahead of it; `said` is the round number that the frame has.
#[unsafe(no_mangle)]
pub extern "C" fn kortyghai_relay_count(
    counts: &[Symbol; COUNTS],
    number: u32,
    reported: &mut u16,
    sums: &mut [Symbol; Plan::MAX_LENGTH],
    ahead: &mut u16,
    held: &mut [Symbol; Plan::MAX_LENGTH],
    sender: usize,
    said: u32,
    block: &[Symbol],
) -> u64
    ensures answer { result ≡ packed (relay_code
        (relay_of counts.now number reported.old sums.old ahead.old held.old)
        (frame sender said block.now)) }
    ensures bits { reported.new ≡ (relay_next
        (relay_of counts.now number reported.old sums.old ahead.old held.old)
        (frame sender said block.now)).round.reported }
    ensures totals { sums.new ≡ (relay_next
        (relay_of counts.now number reported.old sums.old ahead.old held.old)
        (frame sender said block.now)).round.sums }
    ensures early { ahead.new ≡ (relay_next
        (relay_of counts.now number reported.old sums.old ahead.old held.old)
        (frame sender said block.now)).ahead.reported }
    ensures kept { held.new ≡ (relay_next
        (relay_of counts.now number reported.old sums.old ahead.old held.old)
        (frame sender said block.now)).ahead.sums }
{
    relay_exports::kortyghai_relay_count(
        counts, number, reported, sums, ahead, held, sender, said, block,
    )
}

// The relay moves on to its next round.
#[unsafe(no_mangle)]
pub extern "C" fn kortyghai_relay_advance(
    counts: &[Symbol; COUNTS],
    number: &mut u32,
    reported: &mut u16,
    sums: &mut [Symbol; Plan::MAX_LENGTH],
    ahead: &mut u16,
    held: &mut [Symbol; Plan::MAX_LENGTH],
) -> u64
    ensures answer { result ≡ packed (move_code
        (relay_of counts.now number.old reported.old sums.old ahead.old held.old)) }
    ensures round { number.new ≡ (moved
        (relay_of counts.now number.old reported.old sums.old ahead.old held.old)
        ).round.number }
    ensures bits { reported.new ≡ (moved
        (relay_of counts.now number.old reported.old sums.old ahead.old held.old)
        ).round.reported }
    ensures totals { sums.new ≡ (moved
        (relay_of counts.now number.old reported.old sums.old ahead.old held.old)
        ).round.sums }
    ensures early { ahead.new ≡ (moved
        (relay_of counts.now number.old reported.old sums.old ahead.old held.old)
        ).ahead.reported }
    ensures kept { held.new ≡ (moved
        (relay_of counts.now number.old reported.old sums.old ahead.old held.old)
        ).ahead.sums }
{
    relay_exports::kortyghai_relay_advance(counts, number, reported, sums, ahead, held)
}

// The relay's sums, once every user of its cluster has reported: put in the lent block, where nothing is refused.
#[unsafe(no_mangle)]
pub extern "C" fn kortyghai_relay_give(
    counts: &[Symbol; COUNTS],
    number: u32,
    reported: u16,
    sums: &[Symbol; Plan::MAX_LENGTH],
    ahead: u16,
    held: &[Symbol; Plan::MAX_LENGTH],
    out: &mut [Symbol],
) -> u64
    ensures code { result ≡ packed (relay_give_code
        (relay_of counts.now number reported sums.now ahead held.now) out.old) }
    ensures out { out.new ≡ relay_sums
        (relay_of counts.now number reported sums.now ahead held.now) out.old }
{
    relay_exports::kortyghai_relay_give(counts, number, reported, sums, ahead, held, out)
}

// A save of the round right after the used bytes, which stand as they are after it.
#[unsafe(no_mangle)]
pub extern "C" fn kortyghai_relay_save(
    counts: &[Symbol; COUNTS],
    number: u32,
    reported: u16,
    sums: &[Symbol; Plan::MAX_LENGTH],
    ahead: u16,
    held: &[Symbol; Plan::MAX_LENGTH],
    out: &mut [u8],
    used: &mut usize,
) -> u64
    ensures code { result ≡ packed (save_code
        (relay_of counts.now number reported sums.now ahead held.now) out.old used.old) }
    ensures out { out.new ≡ bytes_after
        (relay_of counts.now number reported sums.now ahead held.now) out.old used.old }
    ensures used { used.new ≡ used_after
        (relay_of counts.now number reported sums.now ahead held.now) out.old used.old }
{
    relay_exports::kortyghai_relay_save(counts, number, reported, sums, ahead, held, out, used)
}

// The round of the save that lies so many steps back from the end of the bytes, where nothing is refused.
#[unsafe(no_mangle)]
pub extern "C" fn kortyghai_relay_restore(
    saved: &[u8],
    steps: usize,
    counts: &mut [Symbol; COUNTS],
    number: &mut u32,
    reported: &mut u16,
    sums: &mut [Symbol; Plan::MAX_LENGTH],
    ahead: &mut u16,
    held: &mut [Symbol; Plan::MAX_LENGTH],
) -> u64
    ensures code { result ≡ packed (restore_code saved.now steps) }
    ensures counts { counts.new
        ≡ if_accepted (restore_code saved.now steps) (counts_of (restored saved.now steps)) counts.old }
    ensures round { number.new
        ≡ if_accepted (restore_code saved.now steps) (restored saved.now steps).round.number number.old }
    ensures bits { reported.new
        ≡ if_accepted (restore_code saved.now steps) (restored saved.now steps).round.reported reported.old }
    ensures totals { sums.new
        ≡ if_accepted (restore_code saved.now steps) (restored saved.now steps).round.sums sums.old }
    ensures early { ahead.new
        ≡ if_accepted (restore_code saved.now steps) (restored saved.now steps).ahead.reported ahead.old }
    ensures kept { held.new
        ≡ if_accepted (restore_code saved.now steps) (restored saved.now steps).ahead.sums held.old }
{
    relay_exports::kortyghai_relay_restore(
        saved, steps, counts, number, reported, sums, ahead, held,
    )
}
