// A receiving state as a layer of a record, and as bytes, 4,560 of them: the settings, whether a frame has been taken,
// the memory, the lines, the register, and the bits of the unfinished word.

ghost use Rattle.std.specs.Prelude.{refl};
ghost use Rattle.receiving_state.specs.Layer.{receiving_meaning};
ghost use Rattle.receiving_state.specs.Laws.{receiving_unused};

use crate::State;
use layers::LayerState;
use settings::Settings;

impl LayerState for State {
    ghost meaning = { receiving_meaning };

    ghost SIZE = { 4560 };

    const SIZE: u16 = 4560;

    fn fresh(settings: Settings) -> State {
        crate::fresh(settings)
    }

    fn settings(&self) -> Settings {
        self.settings
    }

    fn is_good(&self) -> bool {
        !crate::not_good(self)
    }

    #[tactic(auto, using(crate::proofs::Zeros::zero_fields))]
    fn is_zero(&self) -> bool {
        let settings = self.settings;
        let head = [settings.mode, settings.v, settings.rate, settings.segments];
        lent_areas::bits_then_zeros(&head, 0)
            && lent_areas::bits_then_zeros(&[self.taken], 0)
            && lent_areas::bits_then_zeros(&self.memory, 0)
            && lent_areas::bits_then_zeros(&self.lines, 0)
            && lent_areas::bits_then_zeros(&[self.register], 0)
            && lent_areas::bits_then_zeros(&self.held, 0)
    }

    fn read(area: &[u8], place: u32) -> State {
        let from = place as usize;
        let mut head = [0u8; 4];
        let mut taken = [0u8; 1];
        let mut memory = [0u8; 1122];
        let mut lines = [0u8; 360];
        let mut register = [0u8; 1];
        let mut held = [0u8; 3072];
        lent_areas::copy_out(area, from, &mut head);
        lent_areas::copy_out(area, from + 4, &mut taken);
        lent_areas::copy_out(area, from + 5, &mut memory);
        lent_areas::copy_out(area, from + 1127, &mut lines);
        lent_areas::copy_out(area, from + 1487, &mut register);
        lent_areas::copy_out(area, from + 1488, &mut held);
        let [mode, v, rate, segments] = head;
        State {
            settings: Settings {
                mode,
                v,
                rate,
                segments,
            },
            taken: taken[0],
            memory,
            lines,
            register: register[0],
            held,
        }
    }

    fn put(&self, place: u32, area: &mut [u8]) {
        let from = place as usize;
        let settings = self.settings;
        let head = [settings.mode, settings.v, settings.rate, settings.segments];
        lent_areas::put_in(&head, from, area);
        lent_areas::put_in(&[self.taken], from + 4, area);
        lent_areas::put_in(&self.memory, from + 5, area);
        lent_areas::put_in(&self.lines, from + 1127, area);
        lent_areas::put_in(&[self.register], from + 1487, area);
        lent_areas::put_in(&self.held, from + 1488, area);
    }

    ghost size_is = { refl };

    ghost unused_is = { receiving_unused };
}
