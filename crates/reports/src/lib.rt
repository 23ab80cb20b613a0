// Reports: what the program `vet` does with the bytes that it reads.
#![tactic(auto)]

ghost use Rattle.std.specs.Prelude.{◌≡◌, ◌≤◌, length};
ghost use Rattle.refusals.specs.Codes.{code_of_result};
ghost use Rattle.lists.specs.Lists.{zeros};
ghost use Rattle.texts.specs.Texts.{line_with};
ghost use Rattle.reports.specs.Program.{program_code, line_of};

use arithmetic::Symbol;
use records::{READ_TABLE, read_record};
use refusals::{Code, Refusal, code_of_result, refuse_unless};
use texts::Line;
use vetting::vet;

// The most bytes that a program takes.
const MOST_BYTES: usize = 65535;

// The table that the reader fills.
fn empty_table() -> [Symbol; READ_TABLE]
    ensures { result ≡ zeros 256 }
{
    [0; READ_TABLE]
}

// The verdict on the record at the end of the bytes.
pub fn vet_record(bytes: &[u8]) -> Result<(), Refusal>
    ensures { code_of_result result ≡ program_code bytes.now }
{
    refuse_unless(bytes.len() <= MOST_BYTES, Refusal::WrongLength)?;
    let mut table = empty_table();
    let plan = read_record(bytes, &mut table)?;
    let n = plan.clusters * plan.size * plan.rate;
    vet(plan, &table[..n])
}

// Number and details on one line.
fn line_of(code: Code) -> Line
    ensures { result ≡ line_with (line_of code) }
{
    Line::new()
        .put_field(code.number as u32, b' ')
        .put_field(code.first as u32, b' ')
        .put_field(code.second as u32, b'\n')
}

// From the bytes that the program reads to the line that it prints.
pub fn vet_line(bytes: &[u8]) -> Line
    ensures line { result ≡ line_with (line_of (program_code bytes.now)) }
    ensures room { result.length ≤ length result.text }
{
    line_of(code_of_result(&vet_record(bytes)))
}
