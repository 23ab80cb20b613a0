// From uploads to the total: each relay's round and then the server's, step by step as `rounds` has them. Blocks have one symbol. Every frame is good, so
// nobody asks for the answer to a frame that is counted.
ghost use Rattle.std.specs.Prelude.{◌≡◌, ◌+◌, ◌-◌, ◌*◌, ◌%◌, ◌≤◌, ◌<◌, length, Ok};
ghost use Rattle.lists.specs.Lists.{at, All, tab};
ghost use Rattle.lists.specs.Sums.{sum_to};
ghost use Rattle.rounds.specs.Rounds.{server_run};
ghost use Rattle.trials.specs.Drawing.{heard_from, run_from, relay_frames, Sent, Relayed};

use arithmetic::Symbol;
use plans::Plan;
use refusals::Refusal;
use rounds::{RelayRound, ServerRound};

// Block length on paper.
pub(crate) const BLOCK: usize = 1;

// The upload of a user goes to the relay of its cluster; any other relay hears nothing.
fn hear(
    plan: Plan,
    cluster: usize,
    number: u32,
    uploads: &[Symbol],
    user: usize,
    round: RelayRound,
) -> RelayRound
    requires { (1 ≤ plan.size) × (user < length uploads.now) }
    ensures { result ≡ heard_from plan cluster number uploads.now round user }
{
    if user / plan.size + 1 != cluster {
        return round;
    }
    round
        .count(user % plan.size + 1, number, &uploads[user..user + 1])
        .state
}

// A relay's round after all users have sent, in this order.
fn hear_all(
    plan: Plan,
    cluster: usize,
    number: u32,
    uploads: &[Symbol],
    order: &[usize],
    opened: RelayRound,
) -> RelayRound
    requires { (1 ≤ plan.size) × All (λ i. i < length uploads.now) order.now × (length order.now ≤ 16) }
    ensures { result ≡ run_from plan cluster number uploads.now opened order.now }
{
    let mut round = opened;
    for &user in order {
        round = hear(plan, cluster, number, uploads, user, round);
    }
    round
}

// The sum that the relay of a cluster gives out.
fn relay_sum(
    plan: Plan,
    cluster: usize,
    number: u32,
    uploads: &[Symbol],
    order: &[usize],
) -> Result<Symbol, Refusal>
    requires { (1 ≤ cluster) × (cluster ≤ plan.clusters) × Sent plan uploads.now order.now }
    ensures { result ≡ Ok (sum_to plan.size (λ v. at uploads.now ((cluster - 1) * plan.size + v)) % plan.q) }
{
    let opened = RelayRound::open(plan.clusters, plan.size, plan.q, BLOCK, cluster, number)?;
    let round = hear_all(plan, cluster, number, uploads, order, opened);
    let mut sum = [0 as Symbol; BLOCK];
    round.give(&mut sum).answer?;
    Ok(sum[0])
}

// Relay by relay.
pub(crate) fn relay_sums(
    plan: Plan,
    number: u32,
    uploads: &[Symbol],
    order: &[usize],
    sums: &mut [Symbol],
) -> Result<(), Refusal>
    requires { (length sums.old ≡ plan.clusters) × Sent plan uploads.now order.now }
    ensures made { result ≡ Ok tt }
    ensures sums { sums.new
        ≡ tab plan.clusters (λ u. sum_to plan.size (λ v. at uploads.now (u * plan.size + v)) % plan.q) }
{
    for (u, sum) in sums.iter_mut().enumerate() {
        *sum = relay_sum(plan, u + 1, number, uploads, order)?;
    }
    Ok(())
}

// The server's round after all relays have sent.
fn collect(number: u32, sums: &[Symbol], opened: ServerRound) -> ServerRound
    requires { length sums.now ≤ 8 }
    ensures { result ≡ server_run opened (relay_frames number sums.now) }
{
    let mut round = opened;
    for u in 0..sums.len() {
        round = round.count(u + 1, number, &sums[u..u + 1]).state;
    }
    round
}

// The total that the server gives out.
pub(crate) fn total(plan: Plan, number: u32, sums: &[Symbol]) -> Result<Symbol, Refusal>
    requires { Relayed plan sums.now }
    ensures { result ≡ Ok (sum_to plan.clusters (at sums.now) % plan.q) }
{
    let opened = ServerRound::open(plan.clusters, plan.size, plan.q, BLOCK, number)?;
    let round = collect(number, sums, opened);
    let mut total = [0 as Symbol; BLOCK];
    round.give(&mut total).answer?;
    Ok(total[0])
}
