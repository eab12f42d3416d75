// The entry that goes back: it takes a frame of carriers and gives its packets.
//
// The state is lent. A refused call gives no packets, and leaves the state and every other byte that was lent as it was.
#![tactic(auto)]

ghost use Rattle.std.specs.Prelude.{◌≡◌, ◌<◌, ◌≤◌};
ghost use Rattle.settings.specs.Answers.{number_of};
ghost use Rattle.receiving_answers.specs.Receiving.{receiving};
ghost use Rattle.receiving_answers.proofs.Answers.{given_by};
ghost use Rattle.receiving_answers.specs.Entry.{Back, received};

pub use receiving_state::{State, start};
use settings::{Answer, Refusal};

mod frame;
mod words;

// Takes a frame of carriers, gives its packets into the lent slots, and moves the state on. It tells how many it gave.
pub fn back(state: &mut State, carriers: &[u8], slots: &mut [u8]) -> Result<usize, Refusal>
    ensures { Back state.old carriers.now slots.old (received result state.new) slots.new }
{
    accept(state, carriers, slots)?;
    let packets = settings::packets(state.settings);
    let count = given(state.taken, packets);
    *state = frame::take_frame(*state, packets, carriers, slots);
    Ok(count)
}

// The first reason for a refusal that applies, or done.
#[tactic(auto, unfolding(receiving_answers::specs::Receiving::receiving))]
fn accept(state: &State, carriers: &[u8], slots: &[u8]) -> Answer
    ensures { number_of result ≡ receiving state.now carriers.now slots.now }
{
    let settings = state.settings;
    if receiving_state::not_good(state) {
        return Err(Refusal::StateNotGood);
    }
    if carriers.len() != settings::carriers(settings) {
        return Err(Refusal::WrongNumberOfCarriers);
    }
    if slots.len() != 189 * settings::packets(settings) {
        return Err(Refusal::WrongLength);
    }
    if bit_interleaver::too_large(settings.v, carriers) {
        return Err(Refusal::CarrierValueTooLarge);
    }
    Ok(())
}

// How many packets a call gives.
fn given(taken: u8, packets: usize) -> usize
    requires { (12 ≤ packets) × (taken < 2) }
    ensures { result ≡ given_by taken packets }
{
    if taken == 0 {
        return packets - 12;
    }
    packets
}
