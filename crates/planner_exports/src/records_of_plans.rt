// Plan records: read, written, and vetted.
ghost use Rattle.std.specs.Prelude.{◌≡◌, ◌<◌};
ghost use Rattle.refusals.specs.Codes.{if_accepted};
ghost use Rattle.records.specs.Records.{plan_read, read_code, table_after, write_code, bytes_after};
ghost use Rattle.reports.specs.Program.{program_code};
ghost use Rattle.boundary.specs.Packed.{packed};
ghost use Rattle.boundary.specs.Counts.{plan_of, counts_of};

use arithmetic::Symbol;
use boundary::{PLAN_NUMBERS, pack, pack_verdict, plan_of};
use plans::Plan;

// What the program `vet` says of the record at the end of the bytes.
#[unsafe(no_mangle)]
pub extern "C" fn kortyghai_vet_record(bytes: &[u8]) -> u64
    ensures { result ≡ packed (program_code bytes.now) }
{
    pack_verdict(reports::vet_record(bytes))
}

// U, V, T, R and q.
pub(crate) fn counts_of(plan: Plan) -> [Symbol; PLAN_NUMBERS]
    requires { (plan.clusters < 65536) × (plan.size < 65536) × (plan.limit < 65536) × (plan.rate < 65536) }
    ensures { result ≡ counts_of plan }
{
    [
        plan.clusters as Symbol,
        plan.size as Symbol,
        plan.limit as Symbol,
        plan.rate as Symbol,
        plan.q,
    ]
}

// The record at the end of the bytes: its key table in the lent table, the plan's numbers in the lent ones, where nothing is refused.
#[unsafe(no_mangle)]
pub extern "C" fn kortyghai_read_record(
    bytes: &[u8],
    plan: &mut [Symbol; PLAN_NUMBERS],
    table: &mut [Symbol],
) -> u64
    ensures code { result ≡ packed (read_code bytes.now table.old) }
    ensures plan { plan.new
        ≡ if_accepted (read_code bytes.now table.old) (counts_of (plan_read bytes.now)) plan.old }
    ensures table { table.new ≡ table_after bytes.now table.old }
{
    match records::read_record(bytes, table) {
        Ok(made) => {
            *plan = counts_of(made);
            0
        }
        Err(refusal) => pack(refusal.code()),
    }
}

// A plan and its key table as a record, which fills the lent bytes, where nothing is refused.
#[unsafe(no_mangle)]
pub extern "C" fn kortyghai_write_record(
    plan: &[Symbol; PLAN_NUMBERS],
    table: &[Symbol],
    out: &mut [u8],
) -> u64
    ensures code { result ≡ packed (write_code (plan_of plan.now) table.now out.old) }
    ensures out { out.new ≡ bytes_after (plan_of plan.now) table.now out.old }
{
    pack_verdict(records::write_record(plan_of(*plan), table, out))
}
