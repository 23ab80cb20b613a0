// Saves of a relay's round, one after the other in a buffer, and coming back from one.
ghost use Rattle.std.specs.Prelude.{◌≡◌, ◌<◌};
ghost use Rattle.refusals.specs.Codes.{if_accepted};
ghost use Rattle.checkpoints.specs.Checkpoints.{save_code, bytes_after, used_after, restore_code, restored};
ghost use Rattle.boundary.specs.Packed.{packed};
ghost use Rattle.relay_exports.specs.States.{relay_of, counts_of};

use crate::frames::{COUNTS, put_state, relay_of};
use arithmetic::Symbol;
use boundary::{hand_over, pack};
use plans::Plan;
use rounds::RelayRound;

// A save of the round right after the used bytes, which stand as they are after it.
#[unsafe(no_mangle)]
pub extern "C" fn kortyghai_relay_save(
    counts: &[Symbol; COUNTS],
    number: u32,
    reported: u16,
    sums: &[Symbol; Plan::MAX_LENGTH],
    ahead: u16,
    held: &[Symbol; Plan::MAX_LENGTH],
    out: &mut [u8],
    used: &mut usize,
) -> u64
    ensures code { result ≡ packed (save_code
        (relay_of counts.now number reported sums.now ahead held.now) out.old used.old) }
    ensures out { out.new ≡ bytes_after
        (relay_of counts.now number reported sums.now ahead held.now) out.old used.old }
    ensures used { used.new ≡ used_after
        (relay_of counts.now number reported sums.now ahead held.now) out.old used.old }
{
    let relay = relay_of(*counts, number, reported, *sums, ahead, *held);
    let saved = checkpoints::save(relay, out, *used);
    hand_over(saved, used)
}

// U, V, q, L and the cluster, each where `relay_of` looks for it.
fn counts_of(relay: RelayRound) -> [Symbol; COUNTS]
    requires { (relay.round.clusters < 65536) × (relay.round.size < 65536) × (relay.round.length < 65536) × (relay.cluster < 65536) }
    ensures { result ≡ counts_of relay }
{
    let round = relay.round;
    [
        round.clusters as Symbol,
        round.size as Symbol,
        round.q,
        round.length as Symbol,
        relay.cluster as Symbol,
    ]
}

// The round of the save that lies so many steps back from the end of the bytes, where nothing is refused.
#[unsafe(no_mangle)]
pub extern "C" fn kortyghai_relay_restore(
    saved: &[u8],
    steps: usize,
    counts: &mut [Symbol; COUNTS],
    number: &mut u32,
    reported: &mut u16,
    sums: &mut [Symbol; Plan::MAX_LENGTH],
    ahead: &mut u16,
    held: &mut [Symbol; Plan::MAX_LENGTH],
) -> u64
    ensures code { result ≡ packed (restore_code saved.now steps) }
    ensures counts { counts.new
        ≡ if_accepted (restore_code saved.now steps) (counts_of (restored saved.now steps)) counts.old }
    ensures round { number.new
        ≡ if_accepted (restore_code saved.now steps) (restored saved.now steps).round.number number.old }
    ensures bits { reported.new
        ≡ if_accepted (restore_code saved.now steps) (restored saved.now steps).round.reported reported.old }
    ensures totals { sums.new
        ≡ if_accepted (restore_code saved.now steps) (restored saved.now steps).round.sums sums.old }
    ensures early { ahead.new
        ≡ if_accepted (restore_code saved.now steps) (restored saved.now steps).ahead.reported ahead.old }
    ensures kept { held.new
        ≡ if_accepted (restore_code saved.now steps) (restored saved.now steps).ahead.sums held.old }
{
    match checkpoints::restore(saved, steps) {
        Ok(relay) => {
            let run = counts_of(relay);
            *counts = run;
            *number = relay.round.number;
            put_state(relay, reported, sums, ahead, held);
            0
        }
        Err(refusal) => pack(refusal.code()),
    }
}
