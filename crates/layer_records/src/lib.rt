// The record of three layers: the mode and layers A, B and C, each a state or unused. What holds of a record of coding
// states and of one of receiving states is said here once, of every type of states.
//
// Its start, the test that every call makes of it, and the layer that a call names.
#![tactic(auto)]

ghost use Rattle.std.specs.Prelude.{◌≡◌, IfOk};
ghost use Rattle.std.specs.Borrow.{sem};
ghost use Rattle.settings.specs.Answers.{number_of};
ghost use Rattle.layers.specs.Record.{unused_layer, good_layer, good_record, empty_record, layer_named, with_layer};
ghost use Rattle.layers.specs.Start.{starting_record, started_layer, started_record};
ghost use Rattle.layers.specs.States.{kind_of};
ghost use Rattle.layers.specs.Calls.{asked};
ghost use Rattle.layer_start.specs.Start.{layers_of};
ghost use Rattle.layer_records.specs.Record.{three_of, three_or, LendsLayer};

mod area;

use layer_start::Start;
use layers::{Layer, LayerState};
use settings::{Answer, Refusal, Settings};

// What three layers carry from call to call.
#[derive(Clone, Copy)]
pub struct Record<S> {
    pub mode: u8,
    pub a: S,
    pub b: S,
    pub c: S,
}

impl<S: LayerState> Record<S> {
    // Starts the layers: the record before the first frames, or the refusal.
    #[tactic(auto, unfolding(layers::specs::Start::started_record))]
    pub fn start(layers: Start) -> Result<Record<S>, Refusal>
        ensures answer_value { number_of result ≡ starting_record (layers_of layers) }
        ensures record_value { three_or (empty_record (kind_of S.meaning)) result
            ≡ started_record (kind_of S.meaning) (layers_of layers) }
    {
        layers.refusal()?;
        let mode = layers.mode;
        Ok(Record {
            mode,
            a: started(mode, layers.a),
            b: started(mode, layers.b),
            c: started(mode, layers.c),
        })
    }

    // The record of zeros, which is not good.
    #[tactic(auto, unfolding(layers::specs::Record::empty_record))]
    pub fn nothing() -> Record<S>
        ensures { three_of result ≡ empty_record (kind_of S.meaning) }
    {
        let state = unused();
        Record {
            mode: 0,
            a: state,
            b: state,
            c: state,
        }
    }

    // Lends the state of the layer that is named 0, 1 or 2. What a call asks of the record before all else: 7 of the
    // whole record, and then 13 of that layer. Any other name is an unused one.
    pub fn layer_mut(&mut self, layer: u8) -> Result<&mut S, Refusal>
        ensures* writes_back { sem 𝓛 (LendsLayer S.row self.entry layer result) }
        ensures answer_value { number_of result ≡ asked (kind_of S.meaning) layer (three_of self.old) }
        ensures state_value { IfOk result (λ state. state.now
            ≡ layer_named (kind_of S.meaning) (three_of self.old) layer) }
    {
        self.refusal(layer)?;
        match layer {
            0 => Ok(&mut self.a),
            1 => Ok(&mut self.b),
            2 => Ok(&mut self.c),
            _ => Err(Refusal::LayerNotUsed),
        }
    }

    // What a call asks of the record before all else: 7, then 13, or done.
    #[tactic(auto, unfolding(layers::specs::Calls::asked))]
    pub fn refusal(&self, layer: u8) -> Answer
        ensures { number_of result ≡ asked (kind_of S.meaning) layer (three_of self.now) }
    {
        if !self.is_good() {
            return Err(Refusal::StateNotGood);
        }
        if self.named(layer).is_zero() {
            return Err(Refusal::LayerNotUsed);
        }
        Ok(())
    }

    // Whether the record is good: 7 asks this of the whole record.
    #[tactic(auto, unfolding(layers::specs::Record::good_record, layers::specs::Record::segments_in, lists::specs::Tests::between))]
    fn is_good(&self) -> bool
        ensures { result ≡ good_record (kind_of S.meaning) (three_of self.now) }
    {
        let mode = self.mode;
        let legal = (1 <= mode) & (mode <= 3);
        let segments = u32::from(self.a.settings().segments)
            + u32::from(self.b.settings().segments)
            + u32::from(self.c.settings().segments);
        legal
            & is_fine(mode, &self.a)
            & is_fine(mode, &self.b)
            & is_fine(mode, &self.c)
            & (segments <= 13)
    }

    // The state of the layer that is named; any other name is an unused one.
    #[tactic(auto, unfolding(layers::specs::Record::layer_named))]
    pub fn named(&self, layer: u8) -> S
        ensures { result ≡ layer_named (kind_of S.meaning) (three_of self.now) layer }
    {
        match layer {
            0 => self.a,
            1 => self.b,
            2 => self.c,
            _ => unused(),
        }
    }

    // The record with another state in the layer that is named; any other name leaves it as it is.
    #[tactic(auto, unfolding(layers::specs::Record::with_layer))]
    pub fn with_state(self, layer: u8, state: S) -> Record<S>
        ensures { three_of result ≡ with_layer (three_of self) layer state }
    {
        match layer {
            0 => Record { a: state, ..self },
            1 => Record { b: state, ..self },
            2 => Record { c: state, ..self },
            _ => self,
        }
    }
}

// A layer's state before its first frame, all zero where it is unused.
#[tactic(auto, unfolding(layers::specs::Start::started_layer))]
fn started<S: LayerState>(mode: u8, layer: Layer) -> S
    ensures { result ≡ started_layer (kind_of S.meaning) mode layer }
{
    if layer_start::is_unused(layer) {
        return unused();
    }
    S::fresh(layer_start::settings_in(mode, layer))
}

// The state of an unused layer: all zero.
#[tactic(auto, unfolding(layers::specs::Record::unused_layer))]
fn unused<S: LayerState>() -> S
    ensures { result ≡ unused_layer (kind_of S.meaning) }
{
    S::fresh(Settings {
        mode: 0,
        v: 0,
        rate: 0,
        segments: 0,
    })
}

// Whether a layer is good in the record's mode, or unused and all zero.
#[tactic(auto, unfolding(layers::specs::Record::good_layer))]
fn is_fine<S: LayerState>(mode: u8, state: &S) -> bool
    ensures { result ≡ good_layer (kind_of S.meaning) mode state.now }
{
    (state.is_good() && state.settings().mode == mode) || state.is_zero()
}
