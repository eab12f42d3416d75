// The entry of coding for one word: rule 2 for its place in the frame, then rule 3, in one walk.
//
// The coding state is lent. A refused call leaves it, and every other byte that was lent, as it was.
#![tactic(auto)]

ghost use Rattle.std.specs.Prelude.{◌≡◌};
ghost use Rattle.settings.specs.Answers.{number_of};
ghost use Rattle.coding_answers.specs.SingleWords.{dispersing_interleaving};
ghost use Rattle.coding_answers.specs.SingleWords.{dispersed_interleaved_into, state_dispersed_interleaved};

use coding_state::State;
use settings::{Answer, Refusal};

// Disperses the word for its place in the frame and byte-interleaves it, from one lent word into another.
pub fn disperse_interleave(state: &mut State, place: usize, word: &[u8], out: &mut [u8]) -> Answer
    ensures { (number_of result
        ≡ dispersing_interleaving state.old place word.now out.old)
        × (state.new ≡ state_dispersed_interleaved state.old place word.now out.old)
        × (out.new ≡ dispersed_interleaved_into state.old place word.now out.old) }
{
    accept(state, place, word, out)?;
    let sequence = dispersal::sequence(dispersal::register_at(place));
    let mut bytes = [0u8; 204];
    bytes.copy_from_slice(word);
    let mut stream = [0u8; 212];
    dispersing_interleaver::walk(&mut state.memory, &sequence, &bytes, &mut stream);
    // The word that has come out stands behind the stream's first four bytes.
    out.copy_from_slice(&stream[4..208]);
    Ok(())
}

// The first reason for a refusal that applies, or done.
#[tactic(auto, unfolding(coding_answers::specs::SingleWords::dispersing_interleaving))]
fn accept(state: &State, place: usize, word: &[u8], out: &[u8]) -> Answer
    ensures { number_of result ≡ dispersing_interleaving state.now place word.now out.now }
{
    let settings = state.settings;
    if coding_state::not_good(state) {
        return Err(Refusal::StateNotGood);
    }
    if !((word.len() == 204) & (out.len() == 204)) {
        return Err(Refusal::WrongLength);
    }
    if !(place < settings::packets(settings)) {
        return Err(Refusal::NumberNotBelowP);
    }
    Ok(())
}
