// Vets each file that its arguments name as the program `vet` does its input, and writes the file's name and the line.
#![tactic(auto)]

use console::read_full;
use std::env::{Env, FillError};
use std::fs::File;
use std::io;
use std::io::Read;
use std::rt::Files;

// The longest name of a file, in bytes.
const LONGEST_NAME: usize = 4096;

fn write_line(rt: &impl Print, bytes: &[u8]) -> io::Result<()> {
    let line = reports::vet_line(bytes);
    rt.write_all(&line.text[..line.length])
}

fn vet_file<F: Read>(rt: &impl Print, file: &mut F) -> io::Result<()> {
    // One byte more than a program takes, so that a longer file is seen.
    let mut buffer = [0u8; 65536];
    let n = read_full(file, &mut buffer).bytes;
    write_line(rt, &buffer[..n])
}

fn vet_name<R: Print + Files>(rt: &R, name: &[u8]) -> io::Result<()> {
    rt.write_all(name)?;
    rt.write_all(b": ")?;
    if let Ok(path) = str::from_utf8(name) {
        if let Ok(mut file) = File::open(rt, path) {
            return vet_file(rt, &mut file);
        }
    }
    // Without this a missing file would pass for an empty one.
    rt.write_all(b"no file\n")
}

fn main(rt: HostRuntime) -> io::Result<()> {
    for k in 1..usize::MAX {
        let mut name = [0u8; LONGEST_NAME];
        match rt.arg(k, &mut name) {
            Ok(n) => vet_name(&rt, &name[..n])?,
            Err(FillError::NotPresent) => break,
            Err(FillError::TooLong) => vet_name(&rt, &[])?,
        }
    }
    Ok(())
}
