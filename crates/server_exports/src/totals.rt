// The server's round, and its total shown. U, V, q and L of a round are lent in one run; the rest of its state stands beside them.
ghost use Rattle.std.specs.Prelude.{◌≡◌};
ghost use Rattle.refusals.specs.Codes.{if_accepted};
ghost use Rattle.lists.specs.Lists.{zeros};
ghost use Rattle.rounds.specs.Ledger.{frame};
ghost use Rattle.rounds.specs.Rounds.{server_code, server_next, server_give_code, server_sums};
ghost use Rattle.plans.specs.Plans.{max_length};
ghost use Rattle.signed.specs.SignedBlocks.{totals_code, totals_after};
ghost use Rattle.boundary.specs.Packed.{packed};
ghost use Rattle.boundary.specs.Counts.{plan_of};
ghost use Rattle.server_exports.specs.States.{server_of, server_open_code};

use arithmetic::Symbol;
use boundary::{PLAN_NUMBERS, pack, pack_verdict, plan_of};
use plans::Plan;
use rounds::{Round, ServerRound};

// How many numbers of a round are lent in one run, and where each stands.
const COUNTS: usize = 4;

const CLUSTERS: usize = 0;

const SIZE: usize = 1;

const Q: usize = 2;

const LENGTH: usize = 3;

fn server_of(
    counts: [Symbol; COUNTS],
    number: u32,
    reported: u16,
    sums: [Symbol; Plan::MAX_LENGTH],
) -> ServerRound
    ensures { result ≡ server_of counts number reported sums }
{
    ServerRound {
        round: Round {
            clusters: counts[CLUSTERS] as usize,
            size: counts[SIZE] as usize,
            q: counts[Q],
            length: counts[LENGTH] as usize,
            number,
            reported,
            sums,
        },
    }
}

// A round in which nobody has reported, where the counts are not refused. Any number will do for a round, so that none is asked.
#[unsafe(no_mangle)]
pub extern "C" fn kortyghai_server_open(
    counts: &[Symbol; COUNTS],
    reported: &mut u16,
    sums: &mut [Symbol; Plan::MAX_LENGTH],
) -> u64
    ensures code { result ≡ packed (server_open_code counts.now) }
    ensures bits { reported.new ≡ if_accepted (server_open_code counts.now) 0 reported.old }
    ensures sums { sums.new ≡ if_accepted (server_open_code counts.now) (zeros max_length) sums.old }
{
    let blank = server_of(*counts, 0, *reported, *sums).round;
    match ServerRound::open(
        blank.clusters,
        blank.size,
        blank.q,
        blank.length,
        blank.number,
    ) {
        Ok(server) => {
            let none = server.round.sums;
            *reported = server.round.reported;
            *sums = none;
            0
        }
        Err(refusal) => pack(refusal.code()),
    }
}

// A relay's sums into the round; `said` is the round number that the frame has.
#[unsafe(no_mangle)]
pub extern "C" fn kortyghai_server_count(
    counts: &[Symbol; COUNTS],
    number: u32,
    reported: &mut u16,
    sums: &mut [Symbol; Plan::MAX_LENGTH],
    sender: usize,
    said: u32,
    block: &[Symbol],
) -> u64
    ensures answer { result ≡ packed (server_code (server_of counts.now number reported.old sums.old)
        (frame sender said block.now)) }
    ensures bits { reported.new ≡ (server_next (server_of counts.now number reported.old sums.old)
        (frame sender said block.now)).round.reported }
    ensures totals { sums.new ≡ (server_next (server_of counts.now number reported.old sums.old)
        (frame sender said block.now)).round.sums }
{
    let server = server_of(*counts, number, *reported, *sums);
    let step = server.count(sender, said, block);
    let round = step.state.round;
    let left = round.sums;
    *reported = round.reported;
    *sums = left;
    pack_verdict(step.answer)
}

// The total, once every relay has reported: put in the lent block, where nothing is refused.
#[unsafe(no_mangle)]
pub extern "C" fn kortyghai_server_give(
    counts: &[Symbol; COUNTS],
    number: u32,
    reported: u16,
    sums: &[Symbol; Plan::MAX_LENGTH],
    out: &mut [Symbol],
) -> u64
    ensures code { result ≡ packed (server_give_code (server_of counts.now number reported sums.now) out.old) }
    ensures out { out.new ≡ server_sums (server_of counts.now number reported sums.now) out.old }
{
    let server = server_of(*counts, number, reported, *sums);
    pack_verdict(server.give(out).answer)
}

// A block of totals as signed numbers, where nothing is refused.
#[unsafe(no_mangle)]
pub extern "C" fn kortyghai_show_totals(
    plan: &[Symbol; PLAN_NUMBERS],
    cap: u32,
    length: usize,
    totals: &[Symbol],
    out: &mut [i32],
) -> u64
    ensures code { result ≡ packed (totals_code (plan_of plan.now) cap length totals.now out.old) }
    ensures out { out.new ≡ totals_after (plan_of plan.now) cap length totals.now out.old }
{
    pack_verdict(signed::show_totals(plan_of(*plan), cap, length, totals, out))
}
