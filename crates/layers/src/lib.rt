// Three layers in one record (document 02, Ask 5): definitions and laws, the three numbers of a layer at a start, and
// what a record asks of the states of its layers.
#![tactic(auto)]

ghost use Rattle.std.specs.Prelude.{◌≡◌, true, ℕ, length};
ghost use Rattle.lists.specs.Tab.{part_of};
ghost use Rattle.lists.proofs.Parts.{with_part};
ghost use Rattle.layers.specs.Record.{unused, unused_layer};
ghost use Rattle.layers.specs.States.{StateMeaning, kind_of};

use settings::Settings;

// "At a start a layer is three numbers", and all three zero is an unused layer.
#[derive(Clone, Copy)]
pub struct Layer {
    pub v: u8,
    pub rate: u8,
    pub segments: u8,
}

// A state that a layer of a record carries from call to call, of coding or of going back.
pub trait LayerState: Copy {
    // What the states are, as the definitions of records have them.
    ghost meaning: { StateMeaning Self };

    ghost SIZE: { ℕ };

    // How many bytes a state is.
    const SIZE: u16;

    // The state before the first frame.
    fn fresh(settings: Settings) -> Self
        ensures { result ≡ meaning.fresh settings };

    // The settings with which the layer was started.
    fn settings(&self) -> Settings
        ensures { result ≡ meaning.settings self.now };

    // Whether the state is good.
    fn is_good(&self) -> bool
        ensures { result ≡ meaning.good self.now };

    // Whether the state is all zero.
    fn is_zero(&self) -> bool
        ensures { result ≡ unused (kind_of meaning) self.now };

    // The state that an area's bytes are, from a place on.
    fn read(area: &[u8], place: u32) -> Self
        ensures { result ≡ meaning.state_of (part_of area.now place meaning.size) };

    // Puts the state's bytes into an area, from a place on, as far as it has room.
    fn put(&self, place: u32, area: &mut [u8])
        ensures placed { area.new ≡ with_part (meaning.bytes self.now) place area.old }
        ensures long { length (meaning.bytes self.now) ≡ meaning.size };

    ghost size_is: { SIZE ≡ meaning.size };

    // A layer that isn't used is all zero.
    ghost unused_is: { unused (kind_of meaning) (unused_layer (kind_of meaning)) ≡ true };
}
