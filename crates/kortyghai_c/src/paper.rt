// The entries of paper_exports, under their names, for one archive of all of them.
ghost use Rattle.std.specs.Prelude.{◌≡◌};
ghost use Rattle.refusals.specs.Codes.{if_accepted};
ghost use Rattle.simulation.specs.Runs.{input_code};
ghost use Rattle.simulation.specs.Steps.{run_in, line_code, next_line, next_run};
ghost use Rattle.boundary.specs.Packed.{packed};
ghost use Rattle.boundary.specs.Counts.{counts_of};
ghost use Rattle.paper_exports.specs.States.{run_of, numbers_of};

use arithmetic::Symbol;
use boundary::PLAN_NUMBERS;
use records::READ_TABLE;
use texts::Line;

// How many numbers of a run are lent beside its plan and table, and where each stands.
const NUMBERS: usize = 4;

// A run before its first round from the bytes that the program `simulate` reads, where nothing is refused.
#[unsafe(no_mangle)]
pub extern "C" fn kortyghai_paper_open(
    bytes: &[u8],
    plan: &mut [Symbol; PLAN_NUMBERS],
    table: &mut [Symbol; READ_TABLE],
    run: &mut [u32; NUMBERS],
) -> u64
    ensures code { result ≡ packed (input_code bytes.now) }
    ensures plan { plan.new ≡ if_accepted (input_code bytes.now) (counts_of (run_in bytes.now).plan) plan.old }
    ensures table { table.new ≡ if_accepted (input_code bytes.now) (run_in bytes.now).table table.old }
    ensures run { run.new ≡ if_accepted (input_code bytes.now) (numbers_of (run_in bytes.now)) run.old }
{
    paper_exports::kortyghai_paper_open(bytes, plan, table, run)
}

// The next round's line in the lent places, and the run after it, where nothing is refused. The run may be anything.
#[unsafe(no_mangle)]
pub extern "C" fn kortyghai_paper_line(
    plan: &[Symbol; PLAN_NUMBERS],
    table: &[Symbol; READ_TABLE],
    run: &mut [u32; NUMBERS],
    line: &mut [u8; Line::PLACES],
    length: &mut usize,
) -> u64
    ensures code { result ≡ packed (line_code (run_of plan.now table.now run.old)) }
    ensures run { run.new ≡ if_accepted (line_code (run_of plan.now table.now run.old))
        (numbers_of (next_run (run_of plan.now table.now run.old))) run.old }
    ensures line { line.new ≡ if_accepted (line_code (run_of plan.now table.now run.old))
        (next_line (run_of plan.now table.now run.old)).text line.old }
    ensures length { length.new ≡ if_accepted (line_code (run_of plan.now table.now run.old))
        (next_line (run_of plan.now table.now run.old)).length length.old }
{
    paper_exports::kortyghai_paper_line(plan, table, run, line, length)
}
