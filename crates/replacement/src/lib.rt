// The late replacement: one packet of a frame that is coded already, in its carriers and in the state left behind it.
#![tactic(auto)]

ghost use Rattle.std.specs.Prelude.{◌≡◌};
ghost use Rattle.settings.specs.Answers.{number_of};
ghost use Rattle.coding_answers.specs.Replacement.{replacing, replaced_into, state_replaced};

use coding_state::State;
use settings::{Answer, Refusal};

mod adding;

// Replaces a packet of a frame that is coded already: in its carriers, and in the state left behind it.
// A refused call leaves the state, and every other byte that was lent, as it was.
pub fn replace(
    state: &mut State,
    carriers: &mut [u8],
    number: usize,
    old: &[u8],
    new: &[u8],
) -> Answer
    ensures { (number_of result
        ≡ replacing state.old carriers.old number old.now new.now)
        × (state.new ≡ state_replaced state.old carriers.old number old.now new.now)
        × (carriers.new
        ≡ replaced_into state.old carriers.old number old.now new.now) }
{
    accept(state, carriers, number, old, new)?;
    *state = adding::add_difference(*state, carriers, number, old, new);
    Ok(())
}

// The first reason for a refusal that applies, or done.
#[tactic(auto, unfolding(coding_answers::specs::Replacement::replacing))]
fn accept(state: &State, carriers: &[u8], number: usize, old: &[u8], new: &[u8]) -> Answer
    ensures { number_of result
        ≡ replacing state.now carriers.now number old.now new.now }
{
    let settings = state.settings;
    if coding_state::not_good(state) {
        return Err(Refusal::StateNotGood);
    }
    if carriers.len() != settings::carriers(settings) {
        return Err(Refusal::WrongNumberOfCarriers);
    }
    if old.len() != 188 {
        return Err(Refusal::WrongLength);
    }
    if new.len() != 188 {
        return Err(Refusal::WrongLength);
    }
    if !(number < settings::packets(settings)) {
        return Err(Refusal::NumberNotBelowP);
    }
    if bit_interleaver::too_large(settings.v, carriers) {
        return Err(Refusal::CarrierValueTooLarge);
    }
    if !(sync_bytes::begins(old, 0) & sync_bytes::begins(new, 0)) {
        return Err(Refusal::SyncByteMissing);
    }
    Ok(())
}
