// The lines of a run on paper, one after the other.
ghost use Rattle.std.specs.Prelude.{◌≡◌, ◌&&◌, ◌<◌, ◌≤◌, leb, []};
ghost use Rattle.std.specs.Result.{result_unwrap_or};
ghost use Rattle.refusals.specs.Codes.{first_of, if_accepted, code_of_result};
ghost use Rattle.texts.specs.Texts.{line_with};
ghost use Rattle.trials.specs.Trials.{trial_checks};
ghost use Rattle.trials.specs.Answers.{trial_of, no_trial};
ghost use Rattle.simulation.specs.Drawing.{text_of, later_run};
ghost use Rattle.simulation.specs.Steps.{table_of, line_code, next_line, next_run, refused_line};

use crate::Run;
use refusals::{Refusal, code_of_result, refuse_unless};
use texts::Line;
use trials::{Trial, try_round};

// The most rounds of a run.
const MOST_ROUNDS: u32 = 10000;

// Round number, last sender's index, relay 1's sum, true sum, shown total.
fn write_line(number: u32, trial: Trial) -> Line
    requires { trial.last < 4294967296 }
    ensures { result ≡ line_with (text_of number trial) }
{
    Line::new()
        .put_field(number, b' ')
        .put_field(trial.last as u32, b' ')
        .put_field(trial.first, b' ')
        .put_field(trial.sum, b' ')
        .put_signed(trial.shown)
        .put(b'\n')
}

// Whether a run has a number of rounds that is allowed.
pub(crate) fn rounds_fit(rounds: u32) -> bool
    ensures { result ≡ (leb 1 rounds && leb rounds 10000) }
{
    1 <= rounds && rounds <= MOST_ROUNDS
}

// Whether the next round is one of the run's.
fn has_next(rounds: u32, number: u32) -> bool
    ensures { result ≡ (leb 1 rounds && leb rounds 10000 && leb 1 number && leb number rounds) }
{
    rounds_fit(rounds) && 1 <= number && number <= rounds
}

// The next round of a run, whatever its plan and table are.
fn try_next(run: Run) -> Result<Trial, Refusal>
    ensures code { code_of_result result ≡ first_of (trial_checks run.plan (table_of run) run.cap) }
    ensures trial { result_unwrap_or result no_trial
        ≡ if_accepted (first_of (trial_checks run.plan (table_of run) run.cap)) (trial_of run.plan (table_of run) run.cap run.state) no_trial }
{
    refuse_unless(run.plan.in_bounds(), Refusal::OutOfBounds)?;
    let n = run.plan.clusters * run.plan.size * run.plan.rate;
    try_round(run.plan, &run.table[..n], run.cap, run.number, run.state)
}

// The line of a round that was tried, and the run moved past it.
fn advance(run: &mut Run, trial: Trial) -> Line
    requires { (run.old.number ≤ 10000) × (trial.last < 4294967296) }
    ensures line { result ≡ line_with (text_of run.old.number trial) }
    ensures run { run.new ≡ later_run run.old trial.state }
{
    let line = write_line(run.number, trial);
    run.number += 1;
    run.state = trial.state;
    line
}

// The next round's line. A run that has none stays as it was.
pub fn next_line(run: &mut Run) -> Result<Line, Refusal>
    ensures code { code_of_result result ≡ line_code run.old }
    ensures line { result_unwrap_or result (line_with []) ≡ next_line run.old }
    ensures run { run.new ≡ next_run run.old }
{
    refuse_unless(has_next(run.rounds, run.number), Refusal::BadRounds)?;
    let trial = try_next(*run)?;
    Ok(advance(run, trial))
}

// The line that a refused input prints.
pub fn refused_line(verdict: Result<(), Refusal>) -> Line
    ensures { result ≡ refused_line (code_of_result verdict) }
{
    let code = code_of_result(&verdict);
    Line::new().put_field(code.number as u32, b'\n')
}
