// The example generator of the ISO C standard.
ghost use Rattle.std.specs.Prelude.{◌≡◌};
ghost use Rattle.trials.specs.Generator.{stepped, value_of};

const FACTOR: u64 = 1103515245;

const ADDEND: u64 = 12345;

// How many states there are, how many have the same value in a row, and how many values there are.
const STATES: u64 = 4294967296;

const SAME: u32 = 65536;

const VALUES: u32 = 32768;

// In 64 bits the product is whole.
pub fn next_state(state: u32) -> u32
    ensures { result ≡ stepped state }
{
    ((state as u64 * FACTOR + ADDEND) % STATES) as u32
}

pub fn value_of(state: u32) -> u32
    ensures { result ≡ value_of state }
{
    state / SAME % VALUES
}
