// How many inputs got each number, and how many were told otherwise by the second implementation.
use std::io;
use std::num::wrapping_add_u64;

#[derive(Clone, Copy, Debug, PartialEq, Eq)]
pub struct Tally {
    inputs: u64,
    wide: u64,
    differ: u64,
    numbers: [u64; 8],
}

pub fn none() -> Tally {
    Tally {
        inputs: 0,
        wide: 0,
        differ: 0,
        numbers: [0; 8],
    }
}

impl Tally {
    // One input that ends as a wide record does.
    pub fn count_wide(mut self, wide: bool) -> Tally {
        if wide {
            self.wide = wrapping_add_u64(self.wide, 1);
        }
        self
    }

    // One input more, with its number and whether all agree on it. A number that no plan gets is counted as different.
    pub fn count(mut self, number: u16, same: bool) -> Tally {
        self.inputs = wrapping_add_u64(self.inputs, 1);
        let n = number as usize;
        if n < 8 {
            self.numbers[n] = wrapping_add_u64(self.numbers[n], 1);
        }
        if !same || n >= 8 {
            self.differ = wrapping_add_u64(self.differ, 1);
        }
        self
    }
}

// In the order in which the reader finds them.
fn print_reader(rt: &impl Print, n: [u64; 8]) -> io::Result<()> {
    println!(rt; "5, trailer: {}", n[5])?;
    println!(rt; "1, counts: {}", n[1])?;
    println!(rt; "4, length: {}", n[4])?;
    println!(rt; "2, not prime: {}", n[2])?;
    println!(rt; "3, symbols: {}", n[3])
}

fn print_vet(rt: &impl Print, n: [u64; 8]) -> io::Result<()> {
    println!(rt; "6, columns: {}", n[6])?;
    println!(rt; "7, leaks: {}", n[7])?;
    println!(rt; "0, accepted: {}", n[0])
}

pub fn print(rt: &impl Print, t: Tally) -> io::Result<()> {
    let n = t.numbers;
    println!(rt; "inputs: {}", t.inputs)?;
    println!(rt; "wide marks: {}", t.wide)?;
    print_reader(rt, n)?;
    print_vet(rt, n)?;
    println!(rt; "differ: {}", t.differ)
}
