// Records: a reader of plan records that starts from the end of a buffer, and a writer.
#![tactic(auto)]

ghost use Rattle.std.specs.Prelude.{◌≡◌, true, false, ◌&&◌, [], ◌∷◌, ◌++◌, ◌+◌, ◌-◌, ◌*◌, ◌^◌, ◌≤◌, ◌<◌, eqb, length};
ghost use Rattle.std.specs.Result.{result_unwrap_or};
ghost use Rattle.refusals.specs.Codes.{accepted, code_of_result};
ghost use Rattle.residues.specs.Primes.{is_prime, all_below};
ghost use Rattle.plans.specs.Plans.{users_of, in_bounds, no_plan};
ghost use Rattle.numerals.specs.Bytes.{bytes_of, numbers_at};
ghost use Rattle.records.specs.Records.{width_of, mark_of, size_with, width_in, record_of, distance, start};
ghost use Rattle.records.specs.Records.{bad_trailer, plan_read, read_code, plan_after, table_after, write_code, bytes_after};

use arithmetic::Symbol;
use numerals::{number_at, read_numbers, write_number, write_numbers};
use plans::{Plan, check_plan};
use primes::is_prime;
use refusals::{Refusal, refuse_unless};

// The bytes that q and each symbol have: in an old record, and in a wide one.
const NARROW: usize = 2;

const WIDE: usize = 4;

// The least q of a wide record.
const LEAST_WIDE: Symbol = 65536;

// U, V, T and R, a byte each, before q; and the bytes after the symbols.
const COUNTS: usize = 4;

const TRAILER: usize = 4;

// The bytes of the distance.
const DISTANCE: usize = 2;

// The last two bytes of a record; the last tells the two kinds apart.
const FIRST_MARK: u8 = 0x4b;

const NARROW_MARK: u8 = 0x50;

const WIDE_MARK: u8 = 0x51;

// The length of the table that is lent to the reader: the most symbols of a plan.
pub const READ_TABLE: usize = 256;

// The bytes of a symbol in the record of a plan with this q.
fn width_of(q: Symbol) -> usize
    ensures { result ≡ width_of q }
{
    if q < LEAST_WIDE { NARROW } else { WIDE }
}

// The last byte of a record with symbols of this width.
fn mark_of(width: usize) -> u8
    ensures { result ≡ mark_of width }
{
    if width == NARROW {
        NARROW_MARK
    } else {
        WIDE_MARK
    }
}

// The width that the record's last byte says.
fn width_in(bytes: &[u8]) -> usize
    requires { 1 ≤ length bytes.now }
    ensures { result ≡ width_in bytes.now }
{
    if bytes[bytes.len() - 1] == NARROW_MARK {
        NARROW
    } else {
        WIDE
    }
}

// The distance that the trailer says.
fn distance_in(bytes: &[u8]) -> usize
    requires { 4 ≤ length bytes.now }
    ensures { result ≡ distance bytes.now }
{
    number_at(DISTANCE, bytes, bytes.len() - TRAILER) as usize
}

// Whether the buffer does not end with a trailer whose record lies in the buffer.
fn bad_trailer(bytes: &[u8]) -> bool
    ensures { result ≡ bad_trailer bytes.now }
{
    let n = bytes.len();
    if n < TRAILER {
        return true;
    }
    let width = width_in(bytes);
    let distance = distance_in(bytes);
    bytes[n - 2] != FIRST_MARK
        || bytes[n - 1] != mark_of(width)
        || distance < COUNTS + width + TRAILER
        || n < distance
}

// The place of the record's first byte.
fn start_in(bytes: &[u8]) -> usize
    requires { bad_trailer bytes.now ≡ false }
    ensures { result ≡ start bytes.now }
{
    bytes.len() - distance_in(bytes)
}

// The plan that the record's first bytes say.
fn plan_in(bytes: &[u8]) -> Plan
    requires { bad_trailer bytes.now ≡ false }
    ensures { result ≡ plan_read bytes.now }
{
    let start = start_in(bytes);
    Plan {
        clusters: bytes[start] as usize,
        size: bytes[start + 1] as usize,
        limit: bytes[start + 2] as usize,
        rate: bytes[start + 3] as usize,
        q: number_at(width_in(bytes), bytes, start + COUNTS),
    }
}

// The symbols of the plan's key table.
fn symbols(plan: Plan) -> usize
    requires { in_bounds plan ≡ true }
    ensures { result ≡ users_of plan * plan.rate }
{
    plan.clusters * plan.size * plan.rate
}

// The bytes of a record of the plan with symbols of this width.
fn size_with(width: usize, plan: Plan) -> usize
    requires { (in_bounds plan ≡ true) × (width ≤ 4) }
    ensures { result ≡ size_with width plan }
{
    COUNTS + width + TRAILER + width * symbols(plan)
}

// Whether each of `count` numbers is below q.
fn numbers_below(q: Symbol, width: usize, bytes: &[u8], from: usize, count: usize) -> bool
    requires { (width ≤ 4) × (from + width * count ≤ length bytes.now) }
    ensures { result ≡ all_below q (numbers_at width count bytes.now from) }
{
    for k in 0..count {
        if number_at(width, bytes, from + width * k) >= q {
            return false;
        }
    }
    true
}

// Whether q is a prime, and the record has the width of its q.
fn check_prime(width: usize, q: Symbol) -> bool
    ensures { result ≡ is_prime q && eqb width (width_of q) }
{
    is_prime(q) && width == width_of(q)
}

// The reader's checks. The symbols are tested where they lie, so that a refusal writes nothing.
fn check_record(bytes: &[u8], table: &[Symbol]) -> Result<Plan, Refusal>
    ensures code { code_of_result result ≡ read_code bytes.now table.now }
    ensures plan { result_unwrap_or result no_plan ≡ plan_after bytes.now table.now }
{
    refuse_unless(!bad_trailer(bytes), Refusal::BadTrailer)?;
    let plan = plan_in(bytes);
    refuse_unless(plan.in_bounds(), Refusal::OutOfBounds)?;
    let width = width_in(bytes);
    refuse_unless(
        distance_in(bytes) == size_with(width, plan),
        Refusal::WrongLength,
    )?;
    refuse_unless(table.len() == READ_TABLE, Refusal::WrongLength)?;
    refuse_unless(check_prime(width, plan.q), Refusal::NotPrime)?;
    let start = start_in(bytes) + COUNTS + width;
    refuse_unless(
        numbers_below(plan.q, width, bytes, start, symbols(plan)),
        Refusal::NotASymbol,
    )?;
    Ok(plan)
}

// The plan of the record at the buffer's end, whose key table is put in the lent table.
pub fn read_record(bytes: &[u8], table: &mut [Symbol]) -> Result<Plan, Refusal>
    ensures code { code_of_result result ≡ read_code bytes.now table.old }
    ensures plan { result_unwrap_or result no_plan ≡ plan_after bytes.now table.old }
    ensures table { table.new ≡ table_after bytes.now table.old }
{
    let plan = check_record(bytes, table)?;
    let width = width_in(bytes);
    let start = start_in(bytes) + COUNTS + width;
    read_numbers(width, bytes, start, symbols(plan), table);
    Ok(plan)
}

// The counts, and q in the bytes after them.
fn write_head(plan: Plan, out: &mut [u8])
    requires { (in_bounds plan ≡ true) × (4 ≤ length out.old) × (plan.q < 256 ^ (length out.old - 4)) }
    ensures { out.new ≡ plan.clusters ∷ plan.size ∷ plan.limit ∷ plan.rate ∷ bytes_of (length out.old - 4) plan.q }
{
    out[0] = plan.clusters as u8;
    out[1] = plan.size as u8;
    out[2] = plan.limit as u8;
    out[3] = plan.rate as u8;
    write_number(plan.q, &mut out[COUNTS..]);
}

fn write_trailer(distance: usize, mark: u8, out: &mut [u8])
    requires { (distance < 65536) × (length out.old ≡ 4) }
    ensures { out.new ≡ bytes_of 2 distance ++ (0x4b ∷ mark ∷ []) }
{
    write_number(distance as Symbol, &mut out[..DISTANCE]);
    out[2] = FIRST_MARK;
    out[3] = mark;
}

// The record's three parts.
fn write_parts(plan: Plan, table: &[Symbol], out: &mut [u8])
    requires { accepted ≡ write_code plan table.now out.old }
    ensures { out.new ≡ record_of plan table.now }
{
    let width = width_of(plan.q);
    let size = out.len();
    let head = COUNTS + width;
    let end = size - TRAILER;
    write_head(plan, &mut out[..head]);
    write_numbers(width, table, &mut out[head..end]);
    write_trailer(size, mark_of(width), &mut out[end..]);
}

// The vet's checks of a plan and a table, then that of the buffer.
fn check_writing(plan: Plan, table: &[Symbol], out: &[u8]) -> Result<(), Refusal>
    ensures { code_of_result result ≡ write_code plan table.now out.now }
{
    check_plan(plan, table)?;
    refuse_unless(
        out.len() == size_with(width_of(plan.q), plan),
        Refusal::WrongLength,
    )
}

// Writes the record of a plan and its key table: the wide one where q asks for it.
pub fn write_record(plan: Plan, table: &[Symbol], out: &mut [u8]) -> Result<(), Refusal>
    ensures code { code_of_result result ≡ write_code plan table.now out.old }
    ensures out { out.new ≡ bytes_after plan table.now out.old }
{
    check_writing(plan, table, out)?;
    write_parts(plan, table, out);
    Ok(())
}
