// What the programs share: bytes read into lent memory.
#![tactic(auto)]

ghost use Rattle.std.specs.Prelude.{◌≡◌, ◌≤◌, ◌<◌, false, length, take};
ghost use Rattle.std.specs.Io.KnownBytes.{Consumes, IsAtEnd};

use std::io::Read;

// How many bytes were read, and whether a read that failed ended it.
#[derive(Clone, Copy, Debug, PartialEq, Eq)]
pub struct Filled {
    pub bytes: usize,
    pub failed: bool,
}

// Fills the buffer from its start, to its end, to the end of the input or to the first read that fails.
pub fn read_full<R: Read>(reader: &mut R, buffer: &mut [u8]) -> Filled
    ensures within { result.bytes ≤ length buffer.new }
    ensures bytes { Consumes (R.remaining reader.old) (R.remaining reader.new) (take result.bytes buffer.new) }
    ensures whole { result.failed ≡ false → result.bytes < length buffer.new → IsAtEnd (R.remaining reader.new) }
{
    let mut filled = 0;
    // a while: each read says how many bytes it gave
    while filled < buffer.len() {
        match reader.read(&mut buffer[filled..]) {
            Ok(0) => {
                return Filled {
                    bytes: filled,
                    failed: false,
                };
            }
            Ok(n) => filled += n,
            Err(_) => {
                return Filled {
                    bytes: filled,
                    failed: true,
                };
            }
        }
    }
    Filled {
        bytes: filled,
        failed: false,
    }
}
