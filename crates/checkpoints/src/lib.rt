// Checkpoints: a relay's round saved after the used bytes of a buffer, and restored from the used bytes, so many saves back.
#![tactic(auto)]

ghost use Rattle.std.specs.Prelude.{◌≡◌};
ghost use Rattle.std.specs.Result.{result_unwrap_or};
ghost use Rattle.refusals.specs.Codes.{code_of_result};
ghost use Rattle.rounds.specs.Rounds.{no_round};
ghost use Rattle.rounds.specs.Relays.{relay_round, nothing};
ghost use Rattle.checkpoints.specs.Checkpoints.{save_code, bytes_after, used_after, restore_code, restored};

mod reading;
mod writing;

use refusals::Refusal;
use rounds::RelayRound;

// U, V, the cluster and L, a byte each, come before all else; where each stands.
const CLUSTERS: usize = 0;

const SIZE: usize = 1;

const CLUSTER: usize = 2;

const LENGTH: usize = 3;

// The places of q, the round's number, the two rolls and the sums.
const PRIME: usize = 4;

const NUMBER: usize = 8;

const REPORTED: usize = 12;

const AHEAD: usize = 14;

const SUMS: usize = 16;

// The bytes of a symbol, and of a roll or a distance.
const WORD: usize = 4;

const HALF: usize = 2;

// The distance and the mark; and the least bytes of a save.
const TRAILER: usize = 4;

const LEAST: usize = 20;

// The last two bytes of a save.
const FIRST_MARK: u8 = 0x4b;

const LAST_MARK: u8 = 0x52;

// Saves a round right after the used bytes, and says how many are used then.
pub fn save(round: RelayRound, out: &mut [u8], used: usize) -> Result<usize, Refusal>
    ensures code { code_of_result result ≡ save_code round out.old used }
    ensures out { out.new ≡ bytes_after round out.old used }
    ensures used { result_unwrap_or result used ≡ used_after round out.old used }
{
    writing::check_saving(round, out, used)?;
    Ok(writing::write_save(round, out, used))
}

// Restores the save that lies so many steps back from the end of the used bytes, 0 for the last.
pub fn restore(saved: &[u8], steps: usize) -> Result<RelayRound, Refusal>
    ensures code { code_of_result result ≡ restore_code saved.now steps }
    ensures round { result_unwrap_or result (relay_round 0 no_round nothing) ≡ restored saved.now steps }
{
    let end = reading::end_of(saved, steps)?;
    reading::check_size(saved, end)?;
    let round = reading::round_at(saved, end);
    round.check_state()?;
    Ok(round)
}
