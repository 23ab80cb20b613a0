// What a test program prints of a kind of cases.
use std::io;

// How often each number was answered, but for the last: how often the two implementations differ.
pub fn print_counts(rt: &impl Print, verb: &str, counts: &[usize]) -> io::Result<()> {
    if let Some((differ, answered)) = counts.split_last() {
        for (number, n) in answered.iter().enumerate() {
            if *n > 0 {
                print!(rt; "{n} {verb} {number}, ")?;
            }
        }
        println!(rt; "{differ} differ")?;
    }
    Ok(())
}
