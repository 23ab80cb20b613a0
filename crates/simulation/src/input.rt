// Opening a run from the bytes that the program reads.
ghost use Rattle.std.specs.Prelude.{◌≡◌, ◌*◌, true, take};
ghost use Rattle.std.specs.Result.{result_unwrap_or};
ghost use Rattle.refusals.specs.Codes.{if_accepted, code_of_result};
ghost use Rattle.lists.specs.Lists.{zeros};
ghost use Rattle.residues.specs.Primes.{is_prime};
ghost use Rattle.plans.specs.Plans.{users_of, in_bounds, no_plan};
ghost use Rattle.records.specs.Records.{plan_read, table_read, padded};
ghost use Rattle.simulation.specs.Runs.{input_code};
ghost use Rattle.simulation.specs.Steps.{no_run, run_in, opened_of};
ghost use Rattle.simulation.specs.Drawing.{judge_code, record_code};

use crate::lines::rounds_fit;
use crate::{Opened, Run};
use arithmetic::Symbol;
use numerals::number_at;
use plans::Plan;
use records::{READ_TABLE, read_record};
use refusals::{Refusal, refuse_unless};
use signed::show_totals;
use vetting::vet;

// The most bytes that a program takes, and those before the record.
const MOST_BYTES: usize = 65535;

const HEAD: usize = 8;

// Block length on paper.
const BLOCK: usize = 1;

// The bytes of the cap, and of the number of rounds.
const NUMBER: usize = 4;

fn empty_table() -> [Symbol; READ_TABLE]
    ensures { result ≡ zeros 256 }
{
    [0; READ_TABLE]
}

// 16, and then the vet's, for a plan from a record. Showing a total judges the cap as every signed call does.
fn judge(plan: Plan, table: &[Symbol; READ_TABLE], cap: u32) -> Result<(), Refusal>
    requires { (in_bounds plan ≡ true) × (is_prime plan.q ≡ true) }
    ensures { code_of_result result ≡ judge_code plan (take (users_of plan * plan.rate) table.now) cap }
{
    let totals = [0 as Symbol; BLOCK];
    let mut shown = [0i32; BLOCK];
    show_totals(plan, cap, BLOCK, &totals, &mut shown)?;
    let n = plan.clusters * plan.size * plan.rate;
    vet(plan, &table[..n])
}

// The record's refusals, and then these; the table is put where it is lent, once nothing is refused.
fn read_judged(bytes: &[u8], cap: u32, table: &mut [Symbol; READ_TABLE]) -> Result<Plan, Refusal>
    ensures code { code_of_result result ≡ record_code bytes.now cap }
    ensures plan { result_unwrap_or result no_plan ≡ if_accepted (record_code bytes.now cap) (plan_read bytes.now) no_plan }
    ensures table { table.new ≡ if_accepted (record_code bytes.now cap) (padded (table_read bytes.now)) table.old }
{
    let mut read = empty_table();
    let plan = read_record(bytes, &mut read)?;
    judge(plan, &read, cap)?;
    *table = read;
    Ok(plan)
}

// From the bytes to what a run has before its first round, its table where one is lent; the vet runs once, here.
pub fn open_in(bytes: &[u8], table: &mut [Symbol; READ_TABLE]) -> Result<Opened, Refusal>
    ensures code { code_of_result result ≡ input_code bytes.now }
    ensures opened { result_unwrap_or result (opened_of no_run) ≡ opened_of (run_in bytes.now) }
    ensures table { table.new ≡ if_accepted (input_code bytes.now) (run_in bytes.now).table table.old }
{
    refuse_unless(bytes.len() <= MOST_BYTES, Refusal::WrongLength)?;
    refuse_unless(bytes.len() >= HEAD, Refusal::WrongLength)?;
    let cap = number_at(NUMBER, bytes, 0);
    let rounds = number_at(NUMBER, bytes, NUMBER);
    refuse_unless(rounds_fit(rounds), Refusal::BadRounds)?;
    let plan = read_judged(&bytes[HEAD..], cap, table)?;
    Ok(Opened { plan, cap, rounds })
}

// From the bytes to the first round of a run.
pub fn open(bytes: &[u8]) -> Result<Run, Refusal>
    ensures code { code_of_result result ≡ input_code bytes.now }
    ensures run { result_unwrap_or result no_run ≡ run_in bytes.now }
{
    let mut table = empty_table();
    let opened = open_in(bytes, &mut table)?;
    Ok(Run {
        plan: opened.plan,
        table,
        cap: opened.cap,
        rounds: opened.rounds,
        number: 1,
        state: 1,
    })
}
