// The entries of coding over a record of three layers. Each call names its layer, 0, 1 or 2 for A, B or C, asks 7 of
// the whole record and then 13, and then does what the entry of that name does to the layer's state.
//
// A refused call leaves the record as it was and alters no byte that was lent.
#![tactic(auto)]

ghost use Rattle.std.specs.Prelude.{◌≡◌};
ghost use Rattle.settings.specs.Answers.{number_of};
ghost use Rattle.layers.specs.Calls.{Did, in_layer};
ghost use Rattle.layer_records.specs.Record.{three_of};
ghost use Rattle.coding_answers.specs.Layers.{coding_kind, codes, replaces, disperses_interleaves};

use coding_state::State;
use layer_records::Record;
use settings::Answer;

// Codes a frame of the layer's packets into the lent carriers.
pub fn code(before: &mut Record<State>, layer: u8, packets: &[u8], carriers: &mut [u8]) -> Answer
    ensures { Did (in_layer coding_kind (codes packets.now carriers.old) carriers.old layer) (three_of before.old)
        (number_of result) (three_of before.new) carriers.new }
{
    coder::code(before.layer_mut(layer)?, packets, carriers)
}

// Replaces a packet of a frame of the layer that is coded already, in its carriers and in the record left behind it.
pub fn replace(
    before: &mut Record<State>,
    layer: u8,
    carriers: &mut [u8],
    number: usize,
    old: &[u8],
    new: &[u8],
) -> Answer
    ensures { Did (in_layer coding_kind (replaces carriers.old number old.now new.now) carriers.old layer)
        (three_of before.old) (number_of result) (three_of before.new) carriers.new }
{
    replacement::replace(before.layer_mut(layer)?, carriers, number, old, new)
}

// Disperses the word for its place in the layer's frame and byte-interleaves it by the layer's memory, from one lent
// word into another.
pub fn disperse_interleave(
    before: &mut Record<State>,
    layer: u8,
    place: usize,
    word: &[u8],
    out: &mut [u8],
) -> Answer
    ensures { Did (in_layer coding_kind (disperses_interleaves place word.now out.old) out.old layer)
        (three_of before.old) (number_of result) (three_of before.new) out.new }
{
    single_words::disperse_interleave(before.layer_mut(layer)?, place, word, out)
}
