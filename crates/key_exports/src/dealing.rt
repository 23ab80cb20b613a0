// Individual keys, and blocks drawn from a key stream.
ghost use Rattle.std.specs.Prelude.{◌≡◌};
ghost use Rattle.keys.specs.Keys.{key_code, keys_after};
ghost use Rattle.streams.specs.Streams.{draw_code, position_after, buffer_after};
ghost use Rattle.boundary.specs.Packed.{packed};
ghost use Rattle.boundary.specs.Counts.{plan_of};

use arithmetic::Symbol;
use boundary::{PLAN_NUMBERS, pack_verdict, plan_of};

// Each user's keys for `length` positions, where nothing is refused.
#[unsafe(no_mangle)]
pub extern "C" fn kortyghai_derive_keys(
    plan: &[Symbol; PLAN_NUMBERS],
    table: &[Symbol],
    length: usize,
    source: &[Symbol],
    keys: &mut [Symbol],
) -> u64
    ensures code { result
        ≡ packed (key_code (plan_of plan.now) table.now length source.now keys.old) }
    ensures keys { keys.new
        ≡ keys_after (plan_of plan.now) table.now length source.now keys.old }
{
    pack_verdict(keys::derive_keys(plan_of(*plan), table, length, source, keys))
}

// The next symbols of a key stream, and the position moved past them, where nothing is refused.
#[unsafe(no_mangle)]
pub extern "C" fn kortyghai_draw(
    stream: &[Symbol],
    position: &mut usize,
    length: usize,
    out: &mut [Symbol],
) -> u64
    ensures code { result ≡ packed (draw_code stream.now position.old length out.old) }
    ensures position { position.new ≡ position_after stream.now position.old length out.old }
    ensures out { out.new ≡ buffer_after stream.now position.old length out.old }
{
    let drawn = streams::draw_at(stream, *position, length, out);
    *position = drawn.state;
    pack_verdict(drawn.answer)
}
