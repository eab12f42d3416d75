// What a start of a record tests: the mode, the three layers in turn, and their segments in all. Both records are
// started by it.
#![tactic(auto)]

ghost use Rattle.std.specs.Prelude.{◌≡◌};
ghost use Rattle.settings.specs.Answers.{number_of};
ghost use Rattle.layers.specs.Start.{no_layer, settings_in, starting_layer, starting_record};
ghost use Rattle.layer_start.specs.Start.{layers_of};

use layers::Layer;
use settings::{Answer, Refusal, Settings};

// What a start is given: the mode, and the three numbers of each layer.
#[derive(Clone, Copy)]
pub struct Start {
    pub mode: u8,
    pub a: Layer,
    pub b: Layer,
    pub c: Layer,
}

impl Start {
    // The first of 1, then of 2, 3 and 4 for A, B and C in turn, and of 12 that applies, or done.
    #[tactic(auto, unfolding(layers::specs::Start::starting_record, lists::specs::Tests::between))]
    pub fn refusal(self) -> Answer
        ensures { number_of result ≡ starting_record (layers_of self) }
    {
        if !((1 <= self.mode) & (self.mode <= 3)) {
            return Err(Refusal::ModeNotLegal);
        }
        layer_refusal(self.mode, self.a)?;
        layer_refusal(self.mode, self.b)?;
        layer_refusal(self.mode, self.c)?;
        let segments = u32::from(self.a.segments)
            + u32::from(self.b.segments)
            + u32::from(self.c.segments);
        if segments > 13 {
            return Err(Refusal::TooManySegments);
        }
        Ok(())
    }
}

// What a start of this layer alone answers; of an unused layer nothing is asked.
#[tactic(auto, unfolding(layers::specs::Start::starting_layer))]
fn layer_refusal(mode: u8, layer: Layer) -> Answer
    ensures { number_of result ≡ starting_layer mode layer }
{
    if is_unused(layer) {
        return Ok(());
    }
    settings::legal(settings_in(mode, layer))
}

// Whether the layer's three numbers are zero.
#[tactic(auto, unfolding(layers::specs::Start::no_layer))]
pub fn is_unused(layer: Layer) -> bool
    ensures { result ≡ no_layer layer }
{
    (layer.v == 0) & (layer.rate == 0) & (layer.segments == 0)
}

// The layer's settings in the record's mode.
pub fn settings_in(mode: u8, layer: Layer) -> Settings
    ensures { result ≡ settings_in mode layer }
{
    Settings {
        mode,
        v: layer.v,
        rate: layer.rate,
        segments: layer.segments,
    }
}
