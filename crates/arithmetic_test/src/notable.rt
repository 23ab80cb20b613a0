// Numbers at which a test of primes may fail, with their neighbours. Of 16 bits all numbers are compared, so that 561, 1,105 and 2,047 need no place here.
use crate::numbers::{OF_32_BITS, low32, wide};
use arithmetic::Symbol;

const LENGTH: usize = 64;

// Each comes with 64 numbers before it and 63 after it.
const BEFORE: u64 = 64;

const NEIGHBOURS: u64 = 128;

// How many inputs these are.
pub const NEAR: u64 = LENGTH as u64 * NEIGHBOURS;

static NOTABLE: [Symbol; LENGTH] = [
    // Where a width ends: before 0 come the largest numbers.
    0, 65536, 16777216, 2147483648,
    // The squares of 257, 1,093, 1,621, 1,627, 3,511, 46,337, 65,519, 65,521 and 65,535. Those of 1,093 and 3,511 pass at base 2.
    66049, 1194649, 2627641, 2647129, 12327121, 2147117569, 4292739361, 4293001441, 4294836225,
    // 1,621 times 1,627, 257 times 65,537, 65,519 times 65,521, 65,521 times 65,537, the cube of 1,621, and a power of 3.
    2637367, 16843009, 4292870399, 4294049777, 4259406061, 3486784401,
    // Strong pseudoprimes to base 2, some of them to 3, 5 and 7 too.
    1373653, 25326001, 161304001, 960946321, 1157839381, 3215031751, 3697278427, 4277526901,
    4278305651,
    // Carmichael numbers.
    3828001, 17098369, 321197185, 4034969401, 4127050621, 4215885697,
    // Products of two primes that pass at base 2.
    4469471, 28325881, 59631211, 97796953, 142922413, 196035001, 260156101, 332448229, 415476343,
    484200289, 571623583, 665462081, 775006201, 892740853, 1037560681, 1187235193, 1341010577,
    1495190699, 1645253989, 1837156049, 2043173273, 2256748777, 2484033481, 2692079167, 2957320351,
    3199915981, 3432997537, 3712887289, 4008224221, 4293088801,
];

// One of them for each k below NEAR.
pub fn near_notable(k: u64) -> Symbol {
    let place = (k / NEIGHBOURS) as usize % LENGTH;
    low32(wide(NOTABLE[place]) % OF_32_BITS + (OF_32_BITS - BEFORE) + k % NEIGHBOURS)
}
