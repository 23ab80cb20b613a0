// What a round on paper draws: key symbols, readings and senders.
ghost use Rattle.std.specs.Prelude.{◌≡◌, ◌%◌, ◌<◌, ◌∷◌, length};
ghost use Rattle.lists.specs.Lists.{at, tab};
ghost use Rattle.trials.specs.Generator.{stepped_by, value_at};
ghost use Rattle.trials.specs.Trials.{without};
ghost use Rattle.trials.specs.Drawing.{senders_from};

use crate::generator::{next_state, value_of};

// Values modulo a number, one for each place, and the state after them.
pub(crate) fn draw(modulus: u32, state: u32, out: &mut [u32]) -> u32
    requires { 0 < modulus }
    ensures state { result ≡ stepped_by (length out.old) state }
    ensures out { out.new ≡ tab (length out.old) (λ k. value_at state k % modulus) }
{
    let mut s = state;
    for value in out.iter_mut() {
        s = next_state(s);
        *value = value_of(s) % modulus;
    }
    s
}

// The users in index order: who owes a frame before the first is sent.
pub(crate) fn fill_order(order: &mut [usize])
    ensures { order.new ≡ tab (length order.old) (λ i. i) }
{
    for (i, user) in order.iter_mut().enumerate() {
        *user = i;
    }
}

// Brings entry k to the front; the others keep their order.
fn bring_forward(owing: &mut [usize], k: usize)
    requires { k < length owing.old }
    ensures { owing.new ≡ at owing.old k ∷ without k owing.old }
{
    let mut held = owing[k];
    for i in 0..k + 1 {
        let next = owing[i];
        owing[i] = held;
        held = next;
    }
}

// Those who have sent stand in front, in the order of their frames, and those who are owing behind them in index order.
pub(crate) fn draw_senders(state: u32, order: &mut [usize]) -> u32
    ensures state { result ≡ stepped_by (length order.old) state }
    ensures order { order.new ≡ senders_from state (length order.old) order.old }
{
    let mut s = state;
    for j in 0..order.len() {
        s = next_state(s);
        let left = order.len() - j;
        let k = value_of(s) as usize % left;
        bring_forward(&mut order[j..], k);
    }
    s
}
