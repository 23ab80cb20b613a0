// Numbers as bytes, low byte first, of four bytes at most: read and written one by one, and in rows.
#![tactic(auto)]

ghost use Rattle.std.specs.Prelude.{◌≡◌, cond, ◌&&◌, ◌++◌, map, ◌+◌, ◌-◌, ◌*◌, ◌≤◌, ◌<◌, leb, eqb, length};
ghost use Rattle.lists.specs.Lists.{at, zeros};
ghost use Rattle.numerals.specs.Bytes.{bytes_of, bytes_of_all, number_at, numbers_at, row_in_range, cut};

use arithmetic::Symbol;

// The most bytes of a number.
const WIDEST: usize = 4;

// What a byte is worth in terms of the byte before it.
const BYTE: Symbol = 256;

// The byte k places after a place, 0 past the end.
fn byte_at(bytes: &[u8], i: usize, k: usize) -> Symbol
    ensures { (result ≡ at bytes.now (i + k)) × (result < 256) }
{
    if i < bytes.len() && k < bytes.len() - i {
        bytes[i + k] as Symbol
    } else {
        0
    }
}

// The number of up to four bytes from a place on, low first. A byte past the end is 0, and there is no number of more bytes: 0.
pub fn number_at(width: usize, bytes: &[u8], i: usize) -> Symbol
    ensures { result ≡ cond (leb width 4) (number_at width bytes.now i) 0 }
{
    if width > WIDEST {
        return 0;
    }
    let mut n: Symbol = 0;
    for k in (0..width).rev() {
        n = n * BYTE + byte_at(bytes, i, k);
    }
    n
}

// Whether `count` numbers lie in so much room, which no product here passes.
fn row_fits(width: usize, count: usize, from: usize, room: usize) -> bool
    ensures { result ≡ row_in_range width count from room }
{
    width <= WIDEST && from <= room && (width == 0 || count <= (room - from) / width)
}

// Number k of `count`, and 0 past them.
fn symbol_at(width: usize, bytes: &[u8], from: usize, count: usize, k: usize) -> Symbol
    requires { (width ≤ 4) × (from + width * count ≤ length bytes.now) }
    ensures { result ≡ at (numbers_at width count bytes.now from) k }
{
    if k < count {
        number_at(width, bytes, from + width * k)
    } else {
        0
    }
}

// Fills a table with `count` numbers, and 0 past them.
fn fill(width: usize, bytes: &[u8], from: usize, count: usize, table: &mut [Symbol])
    requires { (width ≤ 4) × (from + width * count ≤ length bytes.now) × (count ≤ length table.old) }
    ensures { table.new ≡ numbers_at width count bytes.now from ++ zeros (length table.old - count) }
{
    for (k, symbol) in table.iter_mut().enumerate() {
        *symbol = symbol_at(width, bytes, from, count, k);
    }
}

// Fills a lent table with `count` numbers from a place on, and 0 past them, where they lie in the bytes and have room in the table.
pub fn read_numbers(width: usize, bytes: &[u8], from: usize, count: usize, table: &mut [Symbol])
    ensures { table.new
        ≡ cond (row_in_range width count from (length bytes.now) && leb count (length table.old))
        (numbers_at width count bytes.now from ++ zeros (length table.old - count)) table.old }
{
    if row_fits(width, count, from, bytes.len()) && count <= table.len() {
        fill(width, bytes, from, count, table);
    }
}

// A number in as many bytes as are lent, low first: what those hold of it.
pub fn write_number(n: Symbol, out: &mut [u8])
    ensures { out.new ≡ bytes_of (length out.old) (cut (length out.old) n) }
{
    let mut left = n;
    for byte in out.iter_mut() {
        *byte = (left % BYTE) as u8;
        left /= BYTE;
    }
}

fn write_all(width: usize, numbers: &[Symbol], out: &mut [u8])
    requires { length out.old ≡ width * length numbers.now }
    ensures { out.new ≡ bytes_of_all width (map (cut width) numbers.now) }
{
    for (k, &number) in numbers.iter().enumerate() {
        let i = width * k;
        write_number(number, &mut out[i..i + width]);
    }
}

// Numbers one after the other, where the lent bytes are as many as they have.
pub fn write_numbers(width: usize, numbers: &[Symbol], out: &mut [u8])
    ensures { out.new
        ≡ cond (leb width 4 && eqb (length out.old) (width * length numbers.now))
        (bytes_of_all width (map (cut width) numbers.now)) out.old }
{
    if row_fits(width, numbers.len(), 0, out.len()) && out.len() == width * numbers.len() {
        write_all(width, numbers, out);
    }
}
