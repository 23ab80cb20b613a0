// The entries of planner_exports, under their names, for one archive of all of them.
ghost use Rattle.std.specs.Prelude.{◌≡◌};
ghost use Rattle.refusals.specs.Codes.{first_of, if_accepted};
ghost use Rattle.vetting.specs.Vet.{vet_code};
ghost use Rattle.vetting.specs.Joint.{joint_code, joint_looked};
ghost use Rattle.vetting.specs.Length.{count_checks, pair_count};
ghost use Rattle.keys.specs.Maker.{rate_of, rate_checks};
ghost use Rattle.boundary.specs.Packed.{packed};
ghost use Rattle.boundary.specs.Counts.{plan_of, counts_of};
ghost use Rattle.planner_exports.specs.Asked.{prime_checks, joint_of, asked_code, asked_table, made_counts};
ghost use Rattle.records.specs.Records.{plan_read, read_code, table_after, write_code, bytes_after};
ghost use Rattle.reports.specs.Program.{program_code};

use arithmetic::Symbol;
use boundary::PLAN_NUMBERS;

// Whether q may be a plan's: 2 where it is no prime.
#[unsafe(no_mangle)]
pub extern "C" fn kortyghai_check_prime(q: Symbol) -> u64
    ensures { result ≡ packed (first_of (prime_checks q)) }
{
    planner_exports::kortyghai_check_prime(q)
}

// The vet's verdict on a plan and its key table.
#[unsafe(no_mangle)]
pub extern "C" fn kortyghai_vet(plan: &[Symbol; PLAN_NUMBERS], table: &[Symbol]) -> u64
    ensures { result ≡ packed (vet_code (plan_of plan.now) table.now) }
{
    planner_exports::kortyghai_vet(plan, table)
}

// The same with the number of pairs that were looked at, and with two relays under one lock, if any are; two zeros stand for none.
#[unsafe(no_mangle)]
pub extern "C" fn kortyghai_vet_joint(
    plan: &[Symbol; PLAN_NUMBERS],
    table: &[Symbol],
    first: usize,
    second: usize,
    looked: &mut u32,
) -> u64
    ensures code { result ≡ packed (joint_code (plan_of plan.now) table.now (joint_of first second)) }
    ensures looked { looked.new ≡ joint_looked (plan_of plan.now) table.now (joint_of first second) }
{
    planner_exports::kortyghai_vet_joint(plan, table, first, second, looked)
}

// How many pairs the vet looks at before it accepts a plan with these counts.
#[unsafe(no_mangle)]
pub extern "C" fn kortyghai_count_pairs(
    clusters: usize,
    size: usize,
    limit: usize,
    out: &mut u32,
) -> u64
    ensures code { result ≡ packed (first_of (count_checks clusters size limit)) }
    ensures out { out.new ≡ if_accepted (first_of (count_checks clusters size limit)) (pair_count clusters size limit) out.old }
{
    planner_exports::kortyghai_count_pairs(clusters, size, limit, out)
}

// The rate that the table maker will need for these counts.
#[unsafe(no_mangle)]
pub extern "C" fn kortyghai_rate(clusters: usize, size: usize, limit: usize, out: &mut usize) -> u64
    ensures code { result ≡ packed (first_of (rate_checks clusters size limit)) }
    ensures out { out.new ≡ if_accepted (first_of (rate_checks clusters size limit)) (rate_of clusters size limit) out.old }
{
    planner_exports::kortyghai_rate(clusters, size, limit, out)
}

// The table maker: fills the lent table and the plan's rate, where nothing is refused. What stood in the rate's place decides nothing.
#[unsafe(no_mangle)]
pub extern "C" fn kortyghai_make_table(
    plan: &mut [Symbol; PLAN_NUMBERS],
    generator: Symbol,
    table: &mut [Symbol],
) -> u64
    ensures code { result ≡ packed (asked_code plan.old generator table.old) }
    ensures plan { plan.new
        ≡ if_accepted (asked_code plan.old generator table.old) (made_counts plan.old) plan.old }
    ensures table { table.new ≡ asked_table plan.old generator table.old }
{
    planner_exports::kortyghai_make_table(plan, generator, table)
}

// What the program `vet` says of the record at the end of the bytes.
#[unsafe(no_mangle)]
pub extern "C" fn kortyghai_vet_record(bytes: &[u8]) -> u64
    ensures { result ≡ packed (program_code bytes.now) }
{
    planner_exports::kortyghai_vet_record(bytes)
}

// The record at the end of the bytes: its key table in the lent table, the plan's numbers in the lent ones, where nothing is refused.
#[unsafe(no_mangle)]
pub extern "C" fn kortyghai_read_record(
    bytes: &[u8],
    plan: &mut [Symbol; PLAN_NUMBERS],
    table: &mut [Symbol],
) -> u64
    ensures code { result ≡ packed (read_code bytes.now table.old) }
    ensures plan { plan.new
        ≡ if_accepted (read_code bytes.now table.old) (counts_of (plan_read bytes.now)) plan.old }
    ensures table { table.new ≡ table_after bytes.now table.old }
{
    planner_exports::kortyghai_read_record(bytes, plan, table)
}

// A plan and its key table as a record, which fills the lent bytes, where nothing is refused.
#[unsafe(no_mangle)]
pub extern "C" fn kortyghai_write_record(
    plan: &[Symbol; PLAN_NUMBERS],
    table: &[Symbol],
    out: &mut [u8],
) -> u64
    ensures code { result ≡ packed (write_code (plan_of plan.now) table.now out.old) }
    ensures out { out.new ≡ bytes_after (plan_of plan.now) table.now out.old }
{
    planner_exports::kortyghai_write_record(plan, table, out)
}
