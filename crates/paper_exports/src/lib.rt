// Entries of a pool on paper for callers in other languages: numbers, slices and arrays alone, and the same promises as the functions that they call.
#![tactic(auto)]

ghost use Rattle.std.specs.Prelude.{◌≡◌, ◌<◌};
ghost use Rattle.refusals.specs.Codes.{if_accepted};
ghost use Rattle.simulation.specs.Runs.{input_code};
ghost use Rattle.simulation.specs.Steps.{run_in, line_code, next_line, next_run};
ghost use Rattle.boundary.specs.Packed.{packed};
ghost use Rattle.boundary.specs.Counts.{counts_of};
ghost use Rattle.paper_exports.specs.States.{run_of, numbers_of};

use arithmetic::Symbol;
use boundary::{PLAN_NUMBERS, pack, plan_of};
use plans::Plan;
use records::READ_TABLE;
use simulation::Run;
use texts::Line;

// How many numbers of a run are lent beside its plan and table, and where each stands.
const NUMBERS: usize = 4;

const CAP: usize = 0;

const ROUNDS: usize = 1;

const NUMBER: usize = 2;

const STATE: usize = 3;

// The number of a run's first round, and the generator's state before it.
const FIRST: u32 = 1;

fn run_of(plan: [Symbol; PLAN_NUMBERS], table: [Symbol; READ_TABLE], numbers: [u32; NUMBERS]) -> Run
    ensures { result ≡ run_of plan table numbers }
{
    Run {
        plan: plan_of(plan),
        table,
        cap: numbers[CAP],
        rounds: numbers[ROUNDS],
        number: numbers[NUMBER],
        state: numbers[STATE],
    }
}

fn numbers_of(run: Run) -> [u32; NUMBERS]
    ensures { result ≡ numbers_of run }
{
    [run.cap, run.rounds, run.number, run.state]
}

// U, V, T, R and q.
fn counts_of(plan: Plan) -> [Symbol; PLAN_NUMBERS]
    requires { (plan.clusters < 65536) × (plan.size < 65536) × (plan.limit < 65536) × (plan.rate < 65536) }
    ensures { result ≡ counts_of plan }
{
    [
        plan.clusters as Symbol,
        plan.size as Symbol,
        plan.limit as Symbol,
        plan.rate as Symbol,
        plan.q,
    ]
}

// A run before its first round from the bytes that the program `simulate` reads, where nothing is refused.
#[unsafe(no_mangle)]
pub extern "C" fn kortyghai_paper_open(
    bytes: &[u8],
    plan: &mut [Symbol; PLAN_NUMBERS],
    table: &mut [Symbol; READ_TABLE],
    run: &mut [u32; NUMBERS],
) -> u64
    ensures code { result ≡ packed (input_code bytes.now) }
    ensures plan { plan.new ≡ if_accepted (input_code bytes.now) (counts_of (run_in bytes.now).plan) plan.old }
    ensures table { table.new ≡ if_accepted (input_code bytes.now) (run_in bytes.now).table table.old }
    ensures run { run.new ≡ if_accepted (input_code bytes.now) (numbers_of (run_in bytes.now)) run.old }
{
    match simulation::open_in(bytes, table) {
        Ok(opened) => {
            // Variables: the prover covers no array that is stored straight from a call.
            let counts = counts_of(opened.plan);
            let numbers = [opened.cap, opened.rounds, FIRST, FIRST];
            *plan = counts;
            *run = numbers;
            0
        }
        Err(refusal) => pack(refusal.code()),
    }
}

// The next round's line in the lent places, and the run after it, where nothing is refused. The run may be anything.
#[unsafe(no_mangle)]
pub extern "C" fn kortyghai_paper_line(
    plan: &[Symbol; PLAN_NUMBERS],
    table: &[Symbol; READ_TABLE],
    run: &mut [u32; NUMBERS],
    line: &mut [u8; Line::PLACES],
    length: &mut usize,
) -> u64
    ensures code { result ≡ packed (line_code (run_of plan.now table.now run.old)) }
    ensures run { run.new ≡ if_accepted (line_code (run_of plan.now table.now run.old))
        (numbers_of (next_run (run_of plan.now table.now run.old))) run.old }
    ensures line { line.new ≡ if_accepted (line_code (run_of plan.now table.now run.old))
        (next_line (run_of plan.now table.now run.old)).text line.old }
    ensures length { length.new ≡ if_accepted (line_code (run_of plan.now table.now run.old))
        (next_line (run_of plan.now table.now run.old)).length length.old }
{
    let mut next = run_of(*plan, *table, *run);
    match simulation::next_line(&mut next) {
        Ok(written) => {
            // Variables, for the same reason.
            let numbers = numbers_of(next);
            let text = written.text;
            *run = numbers;
            *line = text;
            *length = written.length;
            0
        }
        Err(refusal) => pack(refusal.code()),
    }
}
