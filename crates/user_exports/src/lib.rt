// Entries of a user for callers in other languages: numbers, slices and arrays alone, and the same promises as the functions that they call.
#![tactic(auto)]

ghost use Rattle.std.specs.Prelude.{◌≡◌};
ghost use Rattle.masking.specs.Blocks.{block_code, upload_after, unmask_after};
ghost use Rattle.signed.specs.SignedBlocks.{signed_upload_code, signed_upload_after, signed_unmask_code, signed_unmask_after};
ghost use Rattle.boundary.specs.Packed.{packed};
ghost use Rattle.boundary.specs.Counts.{plan_of};

use arithmetic::Symbol;
use boundary::{PLAN_NUMBERS, pack_verdict, plan_of};

// What a user sends: each reading with the key's symbol added, where nothing is refused.
#[unsafe(no_mangle)]
pub extern "C" fn kortyghai_upload(
    q: Symbol,
    length: usize,
    readings: &[Symbol],
    key: &[Symbol],
    out: &mut [Symbol],
) -> u64
    ensures code { result ≡ packed (block_code q length readings.now key.now out.old) }
    ensures out { out.new ≡ upload_after q length readings.now key.now out.old }
{
    pack_verdict(masking::upload(q, length, readings, key, out))
}

// The readings of an upload, for whoever has its key.
#[unsafe(no_mangle)]
pub extern "C" fn kortyghai_unmask(
    q: Symbol,
    length: usize,
    upload: &[Symbol],
    key: &[Symbol],
    out: &mut [Symbol],
) -> u64
    ensures code { result ≡ packed (block_code q length upload.now key.now out.old) }
    ensures out { out.new ≡ unmask_after q length upload.now key.now out.old }
{
    pack_verdict(masking::unmask(q, length, upload, key, out))
}

// What a user sends of signed readings inside a cap, where nothing is refused.
#[unsafe(no_mangle)]
pub extern "C" fn kortyghai_signed_upload(
    plan: &[Symbol; PLAN_NUMBERS],
    cap: u32,
    length: usize,
    readings: &[i32],
    key: &[Symbol],
    out: &mut [Symbol],
) -> u64
    ensures code { result
        ≡ packed (signed_upload_code (plan_of plan.now) cap length readings.now key.now out.old) }
    ensures out { out.new
        ≡ signed_upload_after (plan_of plan.now) cap length readings.now key.now out.old }
{
    pack_verdict(signed::signed_upload(plan_of(*plan), cap, length, readings, key, out))
}

// The signed readings of an upload, for whoever has its key.
#[unsafe(no_mangle)]
pub extern "C" fn kortyghai_signed_unmask(
    plan: &[Symbol; PLAN_NUMBERS],
    cap: u32,
    length: usize,
    upload: &[Symbol],
    key: &[Symbol],
    out: &mut [i32],
) -> u64
    ensures code { result
        ≡ packed (signed_unmask_code (plan_of plan.now) cap length upload.now key.now out.old) }
    ensures out { out.new
        ≡ signed_unmask_after (plan_of plan.now) cap length upload.now key.now out.old }
{
    pack_verdict(signed::signed_unmask(plan_of(*plan), cap, length, upload, key, out))
}
