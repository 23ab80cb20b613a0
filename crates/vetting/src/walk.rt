// The walk over coalitions and observers, with one reduced table for each depth of a coalition.
ghost use Rattle.std.specs.Prelude.{◌≡◌, ◌+◌, ◌-◌, ◌*◌, ◌%◌, ◌≤◌, ◌<◌, ◌^◌, true, ◌++◌, length, take, drop};
ghost use Rattle.lists.specs.Lists.{at, tab, join_to, picked};
ghost use Rattle.matrices.specs.Tables.{row_of, has_pivot};
ghost use Rattle.lists.specs.Sums.{sum_to, how_many};
ghost use Rattle.plans.specs.Plans.{plan, users_of, in_bounds};
ghost use Rattle.vetting.specs.Walking.{most_rows, levels_size, chosen, cluster_mask, outsider_in, tested_mask, joint_mask, watch_mask};
ghost use Rattle.vetting.specs.Walking.{cluster_sum, base_table, level_at, descended, dependent, walked};

use crate::{Pair, Walked};
use arithmetic::Symbol;
use matrices::{copy, eliminate, reduce_rows};
use plans::Plan;

// The rows of the largest table: the users', and the clusters' below them.
const ROWS: usize = Plan::MAX_USERS + Plan::MAX_CLUSTERS;

// A level has room for that table.
const LEVEL: usize = ROWS * Plan::MAX_RATE;

// One for each number of members, from 0 on.
pub(crate) const LEVELS: usize = (Plan::MAX_USERS + 1) * LEVEL;

// Whether `watch` has bit i and `skip` doesn't.
fn is_chosen(watch: u32, skip: u32, i: u32) -> bool
    requires { i < 32 }
    ensures { result ≡ chosen watch skip i }
{
    (watch >> i) & 1 == 1 && (skip >> i) & 1 != 1
}

// The users of cluster u.
fn cluster_mask(size: u32, u: u32) -> u32
    requires { (size ≤ 8) × (u * size + size ≤ 16) }
    ensures { result ≡ cluster_mask size u }
{
    ((1 << size) - 1) << (u * size)
}

// Whether cluster u has a user outside the coalition.
fn has_outsider(size: u32, g: u32, u: u32) -> bool
    requires { (size ≤ 8) × (u * size + size ≤ 16) }
    ensures { result ≡ outsider_in size g u }
{
    let all: u32 = (1 << size) - 1;
    (g >> (u * size)) & all != all
}

// The clusters that have one, but the last: the table's zero sum settles that one.
fn tested_mask(clusters: u32, size: u32, g: u32) -> u32
    requires { (clusters ≤ 8) × (size ≤ 8) × (clusters * size ≤ 16) }
    ensures value { result ≡ tested_mask size g clusters }
    ensures upper_bound { result < 2 ^ clusters }
{
    let mut seen: u32 = 0;
    let mut tested: u32 = 0;
    for u in 0..clusters {
        if has_outsider(size, g, u) {
            tested = seen;
            seen = seen + (1 << u);
        }
    }
    tested
}

// The users of two clusters, from 0: those whom their joint observer watches.
pub(crate) fn joint_mask(users: u32, size: u32, first: u32, second: u32) -> u32
    requires { (users ≤ 16) × (1 ≤ size) }
    ensures { result ≡ joint_mask size first second users }
{
    let mut mask: u32 = 0;
    for i in 0..users {
        let u = i / size;
        if u == first || u == second {
            mask = mask + (1 << i);
        }
    }
    mask
}

// The rows that an observer watches: of a relay the users of its cluster, of the server, 0, sums of clusters, which stand after the users, and of the joint
// observer, after the relays, those of its mask.
fn watch_mask(clusters: u32, size: u32, both: u32, g: u32, w: u32) -> u32
    requires { (clusters ≤ 8) × (size ≤ 8) × (clusters * size ≤ 16) }
    ensures { result ≡ watch_mask clusters size both g w }
{
    if w == 0 {
        return tested_mask(clusters, size, g) << (clusters * size);
    }
    if w <= clusters {
        return cluster_mask(size, w - 1);
    }
    both
}

// Level k becomes level k - 1 eliminated by row i; whether that row is not 0.
pub(crate) fn descend(
    q: Symbol,
    rows: usize,
    cols: usize,
    k: usize,
    i: usize,
    levels: &mut [Symbol],
) -> bool
    requires { (length levels.old ≡ levels_size) × (rows ≤ most_rows) × (cols ≤ 16) × (0 < k) × (k ≤ 16) }
    ensures { (result ≡ has_pivot rows cols i (level_at (rows * cols) levels.old (k - 1)))
        × (levels.new ≡ descended q rows cols k i levels.old) }
{
    let n = rows * cols;
    let b = k * LEVEL;
    let a = b - LEVEL;
    levels.copy_within(a..a + n, b);
    eliminate(q, rows, cols, i, &mut levels[b..b + n])
}

// Row i of a table is put at row n of another.
fn copy_row(cols: usize, i: usize, n: usize, table: &[Symbol], out: &mut [Symbol])
    requires { (i * cols + cols ≤ length table.now) × (n * cols + cols ≤ length out.old) }
    ensures { out.new ≡ take (n * cols) out.old
        ++ (row_of cols table.now i ++ drop (n * cols + cols) out.old) }
{
    let a = i * cols;
    let b = n * cols;
    copy(&table[a..a + cols], &mut out[b..b + cols]);
}

// Puts the rows that `watch` names and `skip` doesn't one after the other; how many they are.
fn gather(
    rows: usize,
    cols: usize,
    watch: u32,
    skip: u32,
    table: &[Symbol],
    out: &mut [Symbol],
) -> usize
    requires { (rows ≤ most_rows) × (cols ≤ 16) × (rows * cols ≡ length table.now) × (rows * cols ≤ length out.old) }
    ensures { (result ≡ how_many rows (chosen watch skip))
        × (take (result * cols) out.new ≡ picked rows (chosen watch skip) (row_of cols table.now)) }
{
    let mut n: usize = 0;
    for i in 0..rows {
        if is_chosen(watch, skip, i as u32) {
            copy_row(cols, i, n, table, out);
            n += 1;
        }
    }
    n
}

// Whether those rows depend on each other.
fn are_dependent(
    q: Symbol,
    rows: usize,
    cols: usize,
    watch: u32,
    skip: u32,
    table: &[Symbol],
) -> bool
    requires { (rows ≤ most_rows) × (cols ≤ 16) × (rows * cols ≡ length table.now) }
    ensures { result ≡ dependent q rows cols watch skip table.now }
{
    let mut s = [0 as Symbol; LEVEL];
    let n = gather(rows, cols, watch, skip, table, &mut s);
    reduce_rows(q, n, cols, &mut s[..n * cols]) != n
}

// Whether the rows that an observer watches depend on each other over those of the coalition g, whose table stands on level k.
pub(crate) fn leaks_to(
    q: Symbol,
    clusters: usize,
    size: usize,
    cols: usize,
    both: u32,
    k: usize,
    g: u16,
    w: u16,
    levels: &[Symbol],
) -> bool
    requires { (length levels.now ≡ levels_size) × (clusters ≤ 8) × (size ≤ 8) × (clusters * size ≤ 16) × (cols ≤ 16) × (k ≤ 16) }
    ensures { result ≡ dependent q (clusters * size + clusters) cols (watch_mask clusters size both g w) g
        (level_at ((clusters * size + clusters) * cols) levels.now k) }
{
    let rows = clusters * size + clusters;
    let watch = watch_mask(clusters as u32, size as u32, both, g as u32, w as u32);
    let b = k * LEVEL;
    are_dependent(q, rows, cols, watch, g as u32, &levels[b..b + rows * cols])
}

// The first pair whose rows depend on each other: coalitions in rising number, and in each the observers in the order given. A coalition's lowest member is
// its last: without it the coalition has a smaller number, was met before, and still stands on the level below.
fn walk_levels(
    q: Symbol,
    clusters: usize,
    size: usize,
    limit: usize,
    cols: usize,
    both: u32,
    watching: &[u16],
    levels: &mut [Symbol],
) -> Walked
    requires { (length levels.old ≡ levels_size) × (clusters ≤ 8) × (size ≤ 8) × (clusters * size ≤ 16) × (cols ≤ 16) × (length watching.now ≤ 9) }
    ensures { result ≡ walked (plan clusters size limit cols q) both watching.now
        (take ((clusters * size + clusters) * cols) levels.old) }
{
    let users = clusters * size;
    let rows = users + clusters;
    let top: u16 = ((1u32 << users as u32) - 1) as u16;
    let mut g: u16 = 0;
    let mut looked: u32 = 0;
    'walk: loop {
        let k = u16::count_ones(g) as usize;
        if k <= limit {
            if g != 0 {
                let i = u16::trailing_zeros(g) as usize;
                descend(q, rows, cols, k, i, levels);
            }
            for &observer in watching {
                looked += 1;
                if leaks_to(q, clusters, size, cols, both, k, g, observer, levels) {
                    break 'walk Walked {
                        found: Some(Pair {
                            coalition: g,
                            observer,
                        }),
                        looked,
                    };
                }
            }
        }
        if g == top {
            break 'walk Walked {
                found: None,
                looked,
            };
        }
        g += 1;
    }
}

// Symbol k of the sum of the rows of cluster u.
fn cluster_sum(q: Symbol, size: usize, rate: usize, u: usize, k: usize, table: &[Symbol]) -> Symbol
    requires { (0 < q) × ((u * size + size) * rate ≤ length table.now) × (k < rate) }
    ensures { result ≡ cluster_sum q size rate table.now u k }
{
    let mut sum: Symbol = 0;
    for v in 0..size {
        sum = arithmetic::add_mod(q, sum, table[(u * size + v) * rate + k]);
    }
    sum
}

// The sum of column k of the first rows: they sum up like one cluster.
pub(crate) fn column_sum(q: Symbol, rows: usize, cols: usize, k: usize, table: &[Symbol]) -> Symbol
    requires { (0 < q) × (k < cols) × (rows * cols ≤ length table.now) }
    ensures { result ≡ sum_to rows (λ i. at table.now (i * cols + k)) % q }
{
    cluster_sum(q, rows, cols, 0, k, table)
}

// The sum of the rows of cluster u.
fn sum_row(q: Symbol, size: usize, rate: usize, u: usize, table: &[Symbol], out: &mut [Symbol])
    requires { (0 < q) × ((u * size + size) * rate ≤ length table.now) × (length out.old ≡ rate) }
    ensures { out.new ≡ tab rate (cluster_sum q size rate table.now u) }
{
    for k in 0..rate {
        out[k] = cluster_sum(q, size, rate, u, k, table);
    }
}

// The sum of each cluster's rows, one after the other.
fn sum_rows(
    q: Symbol,
    clusters: usize,
    size: usize,
    rate: usize,
    table: &[Symbol],
    out: &mut [Symbol],
)
    requires { (0 < q) × (clusters * size * rate ≤ length table.now) × (clusters * rate ≡ length out.old) }
    ensures { out.new ≡ join_to clusters (λ u. tab rate (cluster_sum q size rate table.now u)) }
{
    for u in 0..clusters {
        let b = u * rate;
        sum_row(q, size, rate, u, table, &mut out[b..b + rate]);
    }
}

// Level 0: the key table, and below it the sums of its clusters.
pub(crate) fn set_base(plan: Plan, table: &[Symbol], levels: &mut [Symbol])
    requires { (in_bounds plan ≡ true) × (length table.now ≡ users_of plan * plan.rate) × (0 < plan.q) × (length levels.old ≡ levels_size) }
    ensures { (length levels.new ≡ levels_size)
        × (take ((users_of plan + plan.clusters) * plan.rate) levels.new ≡ base_table plan table.now) }
{
    let n = plan.clusters * plan.size * plan.rate;
    let e = n + plan.clusters * plan.rate;
    copy(table, &mut levels[0..n]);
    sum_rows(
        plan.q,
        plan.clusters,
        plan.size,
        plan.rate,
        table,
        &mut levels[n..e],
    );
}

// The first pair that leaks, of every coalition with each of some observers, and how many were looked at.
pub(crate) fn find_leak(plan: Plan, table: &[Symbol], both: u32, watching: &[u16]) -> Walked
    requires { (in_bounds plan ≡ true) × (length table.now ≡ users_of plan * plan.rate) × (0 < plan.q) × (length watching.now ≤ 9) }
    ensures { result ≡ walked plan both watching.now (base_table plan table.now) }
{
    let mut levels = [0 as Symbol; LEVELS];
    set_base(plan, table, &mut levels);
    walk_levels(
        plan.q,
        plan.clusters,
        plan.size,
        plan.limit,
        plan.rate,
        both,
        watching,
        &mut levels,
    )
}
