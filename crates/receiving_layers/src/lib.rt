// The entry of going back over a record of three layers. A call names its layer, 0, 1 or 2 for A, B or C, asks 7 of the
// whole record and then 13, and then does what `receiver::back` does to the layer's state.
//
// A refused call leaves the record as it was and alters no byte that was lent.
#![tactic(auto)]

ghost use Rattle.std.specs.Result.{result_unwrap_or};
ghost use Rattle.settings.specs.Answers.{number_of};
ghost use Rattle.layers.specs.Calls.{Did, in_layer};
ghost use Rattle.layer_records.specs.Record.{three_of};
ghost use Rattle.receiving_answers.specs.Layers.{receiving_kind, handed, goes_back};

use layer_records::Record;
use receiving_state::State;
use settings::Refusal;

// Takes a frame of the layer's carriers, and gives its packets into the lent slots. The answer is how many it gave.
pub fn back(
    before: &mut Record<State>,
    layer: u8,
    carriers: &[u8],
    slots: &mut [u8],
) -> Result<usize, Refusal>
    ensures { Did (in_layer receiving_kind (goes_back carriers.now slots.old) (handed slots.old 0) layer)
        (three_of before.old) (number_of result) (three_of before.new) (handed slots.new (result_unwrap_or result 0)) }
{
    receiver::back(before.layer_mut(layer)?, carriers, slots)
}
