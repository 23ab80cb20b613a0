// Whether the vet accepts a plan, without its walk: the coalitions of exactly as many users as the limit says decide. They grow by users of falling number, so
// that each shares the tables of the members that it begins with.
ghost use Rattle.std.specs.Prelude.{◌≡◌, ◌+◌, ◌*◌, ◌≤◌, ◌<◌, ◌^◌, true, length, take};
ghost use Rattle.refusals.specs.Codes.{is_accepted};
ghost use Rattle.plans.specs.Plans.{plan, users_of, in_bounds};
ghost use Rattle.vetting.specs.Vet.{vet_code};
ghost use Rattle.vetting.specs.Walking.{level_at, levels_size, through, base_table};
ghost use Rattle.vetting.specs.Growing.{is_quiet_at, grown};

use crate::under_lock::check_before;
use crate::walk::{LEVELS, descend, leaks_to, set_base};
use arithmetic::Symbol;
use plans::Plan;

// Whether the coalition g, whose table stands on level k, leaks to no observer.
fn is_quiet(
    q: Symbol,
    clusters: usize,
    size: usize,
    cols: usize,
    k: usize,
    g: u16,
    levels: &[Symbol],
) -> bool
    requires { (length levels.now ≡ levels_size) × (clusters ≤ 8) × (size ≤ 8) × (clusters * size ≤ 16) × (cols ≤ 16) × (k ≤ 16) }
    ensures { result ≡ is_quiet_at (plan clusters size 0 cols q) g (level_at ((clusters * size + clusters) * cols) levels.now k) }
{
    let last = clusters as u16 + 1;
    for w in 0..last {
        if leaks_to(q, clusters, size, cols, 0, k, g, w, levels) {
            return false;
        }
    }
    true
}

// Whether each coalition of exactly as many users as the limit says that g, of k members, grows to by users below i passes: no row of a member depends on
// those that came before, and it is quiet. The table of g stands on level k; that and the levels before it stay.
fn grow(
    q: Symbol,
    clusters: usize,
    size: usize,
    limit: usize,
    cols: usize,
    i: usize,
    k: usize,
    g: u16,
    levels: &mut [Symbol],
) -> bool
    requires { (length levels.old ≡ levels_size) × (clusters ≤ 8) × (size ≤ 8) × (clusters * size ≤ 16) × (cols ≤ 16) × (k ≤ limit)
        × (i + k ≤ 16) × (g + 2 ^ i ≤ 65536) }
    ensures { (result ≡ grown (plan clusters size limit cols q) i k g (level_at ((clusters * size + clusters) * cols) levels.old k))
        × (take (through k) levels.new ≡ take (through k) levels.old) }
{
    let left = limit - k;
    if left == 0 {
        return is_quiet(q, clusters, size, cols, k, g, levels);
    }
    if i < left {
        return true;
    }
    let rows = clusters * size + clusters;
    let j = i - 1;
    if descend(q, rows, cols, k + 1, j, levels) {
        let h = g + (1u16 << j as u32);
        if grow(q, clusters, size, limit, cols, j, k + 1, h, levels) {
            return grow(q, clusters, size, limit, cols, j, k, g, levels);
        }
        return false;
    }
    // A line of its own, since the wrong body rows_not_asked attacks it.
    false
}

// Whether they all pass, from nobody on.
fn largest_pass(plan: Plan, table: &[Symbol]) -> bool
    requires { (in_bounds plan ≡ true) × (length table.now ≡ users_of plan * plan.rate) × (0 < plan.q) }
    ensures { result ≡ grown plan (users_of plan) 0 0 (base_table plan table.now) }
{
    let mut levels = [0 as Symbol; LEVELS];
    set_base(plan, table, &mut levels);
    grow(
        plan.q,
        plan.clusters,
        plan.size,
        plan.limit,
        plan.rate,
        plan.clusters * plan.size,
        0,
        0,
        &mut levels,
    )
}

// Whether the vet accepts a plan with this key table. It names no refusal.
pub fn accepts(plan: Plan, table: &[Symbol]) -> bool
    ensures { result ≡ is_accepted (vet_code plan table.now) }
{
    match check_before(plan, table, None) {
        Ok(()) => largest_pass(plan, table),
        Err(_) => false,
    }
}
