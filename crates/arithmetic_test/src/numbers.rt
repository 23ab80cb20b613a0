// Casts, and a generator of numbers.
use arithmetic::Symbol;

// How many numbers there are of 16 and of 32 bits.
pub const OF_16_BITS: u64 = 65536;

pub const OF_32_BITS: u64 = 4294967296;

// The largest of 32 bits. No modulus is above it, so that it is never a symbol.
pub const LARGEST: Symbol = 4294967295;

// What the generator multiplies by and adds.
const FACTOR: u64 = 73244475;

const SUMMAND: u64 = 1013904223;

const SIXTEENTH: u64 = OF_32_BITS / 16;

pub fn low32(x: u64) -> u32 {
    (x % OF_32_BITS) as u32
}

pub fn wide(x: Symbol) -> u64 {
    x as u64
}

// The numbers and the details of refusals have 16 bits.
pub fn low16(x: Symbol) -> u16 {
    (wide(x) % OF_16_BITS) as u16
}

// The next state, of 32 bits: the upper half is mixed into the lower one, and by the product the lower into the upper, so that no two runs of states keep
// a fixed difference.
pub fn step(x: u64) -> u64 {
    let n = x % OF_32_BITS;
    ((n ^ (n / OF_16_BITS)) % OF_32_BITS * FACTOR + SUMMAND) % OF_32_BITS
}

// One of 16, by the state's highest bits.
pub fn sixteenth(x: u64) -> u64 {
    x % OF_32_BITS / SIXTEENTH
}
