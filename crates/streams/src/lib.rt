// The key stream: a run of symbols, each of which is drawn once.
#![tactic(auto)]

ghost use Rattle.std.specs.Prelude.{◌≡◌, ◌+◌, ◌≤◌, length};
ghost use Rattle.refusals.specs.Codes.{code_of_result};
ghost use Rattle.streams.specs.Streams.{drawn, draw_code, position_after, buffer_after};

use arithmetic::Symbol;
use plans::length_fits;
use refusals::{Refusal, Step, refuse_unless};

// A place on a key stream: the symbols before it are used up. It is lent to a draw, which moves it.
#[derive(Clone, Copy, Debug, PartialEq, Eq)]
pub struct Position {
    pub at: usize,
}

// The symbols from the position on, as many as the buffer holds.
fn copy_from(stream: &[Symbol], at: usize, out: &mut [Symbol])
    requires { at + length out.old ≤ length stream.now }
    ensures { out.new ≡ drawn stream.now at (length out.old) }
{
    // A block is short: a call that copies memory takes longer than to copy one symbol.
    for i in 0..out.len() {
        out[i] = stream[at + i];
    }
}

// A position past the end leaves no symbols, so it is refused as too few are.
fn check_draw(stream: &[Symbol], at: usize, length: usize, out: &[Symbol]) -> Result<(), Refusal>
    ensures { code_of_result result ≡ draw_code stream.now at length out.now }
{
    refuse_unless(length_fits(length), Refusal::BadBlockLength)?;
    refuse_unless(out.len() == length, Refusal::WrongLength)?;
    refuse_unless(
        at <= stream.len() && stream.len() - at >= length,
        Refusal::StreamTooShort,
    )
}

// The draw on plain numbers: the work of `draw`, which only takes its position apart.
pub fn draw_at(stream: &[Symbol], at: usize, length: usize, out: &mut [Symbol]) -> Step<usize>
    ensures { (code_of_result result.answer ≡ draw_code stream.now at length out.old)
        × (result.state ≡ position_after stream.now at length out.old)
        × (out.new ≡ buffer_after stream.now at length out.old) }
{
    match check_draw(stream, at, length, out) {
        Ok(()) => {
            copy_from(stream, at, out);
            Step::made(at + length)
        }
        Err(refusal) => Step::refused(refusal, at),
    }
}

// The next L symbols of the stream, and the position moved past them.
pub fn draw(
    stream: &[Symbol],
    position: &mut Position,
    length: usize,
    out: &mut [Symbol],
) -> Result<(), Refusal>
    ensures { (code_of_result result ≡ draw_code stream.now position.old.at length out.old)
        × (position.new.at ≡ position_after stream.now position.old.at length out.old)
        × (out.new ≡ buffer_after stream.now position.old.at length out.old) }
{
    let drawn = draw_at(stream, position.at, length, out);
    position.at = drawn.state;
    drawn.answer
}

// The same with plain parameters: a position is made here and lent to the draw, and its number is handed back.
pub fn draw_from(stream: &[Symbol], at: usize, length: usize, out: &mut [Symbol]) -> Step<usize>
    ensures { (code_of_result result.answer ≡ draw_code stream.now at length out.old)
        × (result.state ≡ position_after stream.now at length out.old)
        × (out.new ≡ buffer_after stream.now at length out.old) }
{
    let mut position = Position { at };
    let answer = draw(stream, &mut position, length, out);
    Step {
        answer,
        state: position.at,
    }
}
