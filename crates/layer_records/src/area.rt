// The record as lent bytes: the mode, and then the bytes of A, B and C. The doors for C call these.

ghost use Rattle.std.specs.Prelude.{◌≡◌};
ghost use Rattle.settings.specs.Answers.{number_of};
ghost use Rattle.layers.specs.Start.{started_record};
ghost use Rattle.layers.specs.States.{kind_of};
ghost use Rattle.layers.specs.Areas.{record_size, starting_into, record_in, area_with};
ghost use Rattle.layer_start.specs.Start.{layers_of};
ghost use Rattle.layer_records.specs.Record.{three_of};

use crate::Record;
use layer_start::Start;
use layers::LayerState;
use settings::{Answer, Refusal};

impl<S: LayerState> Record<S> {
    // Starts the layers: the record before the first frames into the lent area, or zeros where the start is refused.
    #[tactic(auto, unfolding(layers::specs::Areas::starting_into))]
    pub fn start_into(layers: Start, area: &mut [u8]) -> Answer
        ensures answer_value { number_of result
            ≡ starting_into (kind_of S.meaning) (layers_of layers) area.old }
        ensures area_value { area.new
            ≡ area_with (kind_of S.meaning) (started_record (kind_of S.meaning) (layers_of layers)) area.old }
    {
        let started = Record::<S>::start(layers);
        let other_length = area.len() != record_length::<S>();
        started.unwrap_or(Record::nothing()).put(area);
        started?;
        if other_length {
            return Err(Refusal::StateNotGood);
        }
        Ok(())
    }

    // The record that an area's bytes are. "An area of another length is a state that isn't good": the record of zeros.
    pub fn read(area: &[u8]) -> Record<S>
        ensures { three_of result ≡ record_in (kind_of S.meaning) area.now }
    {
        if area.len() != record_length::<S>() {
            return Record::nothing();
        }
        let size = u32::from(S::SIZE);
        Record {
            mode: area[0],
            a: S::read(area, 1),
            b: S::read(area, 1 + size),
            c: S::read(area, 1 + 2 * size),
        }
    }

    // Puts the record into an area that is as long as a record. Another area is left alone.
    pub fn put(&self, area: &mut [u8])
        ensures { area.new ≡ area_with (kind_of S.meaning) (three_of self.now) area.old }
    {
        if area.len() != record_length::<S>() {
            return;
        }
        let size = u32::from(S::SIZE);
        lent_areas::put_in(&[self.mode], 0, area);
        self.a.put(1, area);
        self.b.put(1 + size, area);
        self.c.put(1 + 2 * size, area);
    }
}

// The length of a record's area.
fn record_length<S: LayerState>() -> usize
    ensures { result ≡ record_size (kind_of S.meaning) }
{
    1 + 3 * usize::from(S::SIZE)
}
