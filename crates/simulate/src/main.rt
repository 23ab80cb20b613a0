// Reads a cap, a number of rounds and a plan record on standard input, runs the pool on paper, and prints a line a round.
#![tactic(auto)]

use console::read_full;
use simulation::Run;
use std::io;
use texts::Line;

fn write_line(rt: &impl Print, line: Line) -> io::Result<()> {
    if line.length <= Line::PLACES {
        rt.write_all(&line.text[..line.length])?;
    }
    Ok(())
}

fn write_rounds(rt: &impl Print, mut run: Run) -> io::Result<()> {
    for _ in 0..run.rounds {
        if let Ok(line) = simulation::next_line(&mut run) {
            write_line(rt, line)?;
        }
    }
    Ok(())
}

fn main(rt: HostRuntime) -> io::Result<()> {
    // One byte more than a program takes, so that a longer input is seen.
    let mut buffer = [0u8; 65536];
    let n = read_full(&mut rt.reader(), &mut buffer).bytes;
    match simulation::open(&buffer[..n]) {
        Ok(run) => write_rounds(&rt, run),
        Err(refusal) => write_line(&rt, simulation::refused_line(Err(refusal))),
    }
}
