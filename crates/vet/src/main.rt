// Reads one plan record on standard input and prints the verdict: a number, 0 for accepted, and two details.
#![tactic(auto)]

use console::read_full;
use std::io;

fn main(rt: HostRuntime) -> io::Result<()> {
    // One byte more than a program takes, so that a longer input is seen.
    let mut buffer = [0u8; 65536];
    let n = read_full(&mut rt.reader(), &mut buffer).bytes;
    let line = reports::vet_line(&buffer[..n]);
    rt.write_all(&line.text[..line.length])
}
