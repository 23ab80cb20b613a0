// Runs each file that its arguments name as the program `simulate` does its input, and writes the file's name and the lines.
#![tactic(auto)]

use console::read_full;
use simulation::Run;
use std::env::{Env, FillError};
use std::fs::File;
use std::io;
use std::io::Read;
use std::rt::Files;
use texts::Line;

// The longest name of a file, in bytes.
const LONGEST_NAME: usize = 4096;

fn write_line(rt: &impl Print, line: Line) -> io::Result<()> {
    if line.length <= Line::PLACES {
        rt.write_all(&line.text[..line.length])?;
    }
    Ok(())
}

fn write_rounds(rt: &impl Print, mut run: Run) -> io::Result<()> {
    for _ in 0..run.rounds {
        if let Ok(line) = simulation::next_line(&mut run) {
            write_line(rt, line)?;
        }
    }
    Ok(())
}

fn run_bytes(rt: &impl Print, bytes: &[u8]) -> io::Result<()> {
    match simulation::open(bytes) {
        Ok(run) => write_rounds(rt, run),
        Err(refusal) => write_line(rt, simulation::refused_line(Err(refusal))),
    }
}

fn run_file<F: Read>(rt: &impl Print, file: &mut F) -> io::Result<()> {
    // One byte more than a program takes, so that a longer file is seen.
    let mut buffer = [0u8; 65536];
    let n = read_full(file, &mut buffer).bytes;
    run_bytes(rt, &buffer[..n])
}

fn run_name<R: Print + Files>(rt: &R, name: &[u8]) -> io::Result<()> {
    rt.write_all(name)?;
    rt.write_all(b":\n")?;
    if let Ok(path) = str::from_utf8(name) {
        if let Ok(mut file) = File::open(rt, path) {
            return run_file(rt, &mut file);
        }
    }
    // Without this a missing file would pass for an empty one.
    rt.write_all(b"no file\n")
}

fn main(rt: HostRuntime) -> io::Result<()> {
    for k in 1..usize::MAX {
        let mut name = [0u8; LONGEST_NAME];
        match rt.arg(k, &mut name) {
            Ok(n) => run_name(&rt, &name[..n])?,
            Err(FillError::NotPresent) => break,
            Err(FillError::TooLong) => run_name(&rt, &[])?,
        }
    }
    Ok(())
}
