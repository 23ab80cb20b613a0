// A relay's round. U, V, q, L and the cluster are lent in one run; the rest of its state stands beside them.
ghost use Rattle.std.specs.Prelude.{◌≡◌};
ghost use Rattle.refusals.specs.Codes.{if_accepted};
ghost use Rattle.lists.specs.Lists.{zeros};
ghost use Rattle.plans.specs.Plans.{max_length};
ghost use Rattle.rounds.specs.Ledger.{frame};
ghost use Rattle.rounds.specs.Relays.{relay_code, relay_next, relay_give_code, relay_sums, move_code, moved};
ghost use Rattle.boundary.specs.Packed.{packed};
ghost use Rattle.relay_exports.specs.States.{relay_of, relay_open_code};

use arithmetic::Symbol;
use boundary::{pack, pack_verdict};
use plans::Plan;
use rounds::{Held, RelayRound, Round};

// How many numbers of a round are lent in one run, and where each stands.
pub(crate) const COUNTS: usize = 5;

const CLUSTERS: usize = 0;

const SIZE: usize = 1;

const Q: usize = 2;

const LENGTH: usize = 3;

const CLUSTER: usize = 4;

pub(crate) fn relay_of(
    counts: [Symbol; COUNTS],
    number: u32,
    reported: u16,
    sums: [Symbol; Plan::MAX_LENGTH],
    ahead: u16,
    held: [Symbol; Plan::MAX_LENGTH],
) -> RelayRound
    ensures { result ≡ relay_of counts number reported sums ahead held }
{
    let round = Round {
        clusters: counts[CLUSTERS] as usize,
        size: counts[SIZE] as usize,
        q: counts[Q],
        length: counts[LENGTH] as usize,
        number,
        reported,
        sums,
    };
    RelayRound {
        cluster: counts[CLUSTER] as usize,
        round,
        ahead: Held {
            reported: ahead,
            sums: held,
        },
    }
}

// Who has reported and the sums, of the round and of what is held for the next, go into the lent places.
pub(crate) fn put_state(
    relay: RelayRound,
    reported: &mut u16,
    sums: &mut [Symbol; Plan::MAX_LENGTH],
    ahead: &mut u16,
    held: &mut [Symbol; Plan::MAX_LENGTH],
)
    ensures bits { reported.new ≡ relay.round.reported }
    ensures totals { sums.new ≡ relay.round.sums }
    ensures early { ahead.new ≡ relay.ahead.reported }
    ensures kept { held.new ≡ relay.ahead.sums }
{
    let here = relay.round.sums;
    let beyond = relay.ahead.sums;
    *reported = relay.round.reported;
    *sums = here;
    *ahead = relay.ahead.reported;
    *held = beyond;
}

// A round in which nobody has reported, where the counts are not refused. Any number will do for a round, so that none is asked.
#[unsafe(no_mangle)]
pub extern "C" fn kortyghai_relay_open(
    counts: &[Symbol; COUNTS],
    reported: &mut u16,
    sums: &mut [Symbol; Plan::MAX_LENGTH],
    ahead: &mut u16,
    held: &mut [Symbol; Plan::MAX_LENGTH],
) -> u64
    ensures code { result ≡ packed (relay_open_code counts.now) }
    ensures bits { reported.new ≡ if_accepted (relay_open_code counts.now) 0 reported.old }
    ensures totals { sums.new ≡ if_accepted (relay_open_code counts.now) (zeros max_length) sums.old }
    ensures early { ahead.new ≡ if_accepted (relay_open_code counts.now) 0 ahead.old }
    ensures kept { held.new ≡ if_accepted (relay_open_code counts.now) (zeros max_length) held.old }
{
    let asked = relay_of(*counts, 0, *reported, *sums, *ahead, *held);
    let blank = asked.round;
    match RelayRound::open(
        blank.clusters,
        blank.size,
        blank.q,
        blank.length,
        asked.cluster,
        blank.number,
    ) {
        Ok(opened) => {
            put_state(opened, reported, sums, ahead, held);
            0
        }
        Err(refusal) => pack(refusal.code()),
    }
}

// A frame into the round, or ahead of it; `said` is the round number that the frame has.
#[unsafe(no_mangle)]
pub extern "C" fn kortyghai_relay_count(
    counts: &[Symbol; COUNTS],
    number: u32,
    reported: &mut u16,
    sums: &mut [Symbol; Plan::MAX_LENGTH],
    ahead: &mut u16,
    held: &mut [Symbol; Plan::MAX_LENGTH],
    sender: usize,
    said: u32,
    block: &[Symbol],
) -> u64
    ensures answer { result ≡ packed (relay_code
        (relay_of counts.now number reported.old sums.old ahead.old held.old)
        (frame sender said block.now)) }
    ensures bits { reported.new ≡ (relay_next
        (relay_of counts.now number reported.old sums.old ahead.old held.old)
        (frame sender said block.now)).round.reported }
    ensures totals { sums.new ≡ (relay_next
        (relay_of counts.now number reported.old sums.old ahead.old held.old)
        (frame sender said block.now)).round.sums }
    ensures early { ahead.new ≡ (relay_next
        (relay_of counts.now number reported.old sums.old ahead.old held.old)
        (frame sender said block.now)).ahead.reported }
    ensures kept { held.new ≡ (relay_next
        (relay_of counts.now number reported.old sums.old ahead.old held.old)
        (frame sender said block.now)).ahead.sums }
{
    let relay = relay_of(*counts, number, *reported, *sums, *ahead, *held);
    let step = relay.count(sender, said, block);
    put_state(step.state, reported, sums, ahead, held);
    pack_verdict(step.answer)
}

// The relay moves on to its next round.
#[unsafe(no_mangle)]
pub extern "C" fn kortyghai_relay_advance(
    counts: &[Symbol; COUNTS],
    number: &mut u32,
    reported: &mut u16,
    sums: &mut [Symbol; Plan::MAX_LENGTH],
    ahead: &mut u16,
    held: &mut [Symbol; Plan::MAX_LENGTH],
) -> u64
    ensures answer { result ≡ packed (move_code
        (relay_of counts.now number.old reported.old sums.old ahead.old held.old)) }
    ensures round { number.new ≡ (moved
        (relay_of counts.now number.old reported.old sums.old ahead.old held.old)
        ).round.number }
    ensures bits { reported.new ≡ (moved
        (relay_of counts.now number.old reported.old sums.old ahead.old held.old)
        ).round.reported }
    ensures totals { sums.new ≡ (moved
        (relay_of counts.now number.old reported.old sums.old ahead.old held.old)
        ).round.sums }
    ensures early { ahead.new ≡ (moved
        (relay_of counts.now number.old reported.old sums.old ahead.old held.old)
        ).ahead.reported }
    ensures kept { held.new ≡ (moved
        (relay_of counts.now number.old reported.old sums.old ahead.old held.old)
        ).ahead.sums }
{
    let relay = relay_of(*counts, *number, *reported, *sums, *ahead, *held);
    let step = relay.advance();
    let next = step.state;
    *number = next.round.number;
    put_state(next, reported, sums, ahead, held);
    pack_verdict(step.answer)
}

// The relay's sums, once every user of its cluster has reported: put in the lent block, where nothing is refused.
#[unsafe(no_mangle)]
pub extern "C" fn kortyghai_relay_give(
    counts: &[Symbol; COUNTS],
    number: u32,
    reported: u16,
    sums: &[Symbol; Plan::MAX_LENGTH],
    ahead: u16,
    held: &[Symbol; Plan::MAX_LENGTH],
    out: &mut [Symbol],
) -> u64
    ensures code { result ≡ packed (relay_give_code
        (relay_of counts.now number reported sums.now ahead held.now) out.old) }
    ensures out { out.new ≡ relay_sums
        (relay_of counts.now number reported sums.now ahead held.now) out.old }
{
    let relay = relay_of(*counts, number, reported, *sums, ahead, *held);
    let step = relay.give(out);
    pack_verdict(step.answer)
}
