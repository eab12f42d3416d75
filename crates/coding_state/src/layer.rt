// A coding state as a layer of a record, and as bytes: 1,487 of them in document 01's order.

ghost use Rattle.std.specs.Prelude.{refl};
ghost use Rattle.coding_state.specs.Layer.{coding_meaning};
ghost use Rattle.coding_state.specs.Laws.{coding_unused};

use crate::State;
use layers::LayerState;
use settings::Settings;

impl LayerState for State {
    ghost meaning = { coding_meaning };

    ghost SIZE = { 1487 };

    const SIZE: u16 = 1487;

    fn fresh(settings: Settings) -> State {
        crate::fresh(settings)
    }

    fn settings(&self) -> Settings {
        self.settings
    }

    fn is_good(&self) -> bool {
        !crate::not_good(self)
    }

    #[tactic(auto, using(crate::proofs::Zeros::zero_fields))]
    fn is_zero(&self) -> bool {
        let settings = self.settings;
        let head = [settings.mode, settings.v, settings.rate, settings.segments];
        lent_areas::bits_then_zeros(&head, 0)
            && lent_areas::bits_then_zeros(&self.memory, 0)
            && lent_areas::bits_then_zeros(&[self.register], 0)
            && lent_areas::bits_then_zeros(&self.lines, 0)
    }

    fn read(area: &[u8], place: u32) -> State {
        let from = place as usize;
        let mut head = [0u8; 4];
        let mut memory = [0u8; 1122];
        let mut register = [0u8; 1];
        let mut lines = [0u8; 360];
        lent_areas::copy_out(area, from, &mut head);
        lent_areas::copy_out(area, from + 4, &mut memory);
        lent_areas::copy_out(area, from + 1126, &mut register);
        lent_areas::copy_out(area, from + 1127, &mut lines);
        let [mode, v, rate, segments] = head;
        State {
            settings: Settings {
                mode,
                v,
                rate,
                segments,
            },
            memory,
            register: register[0],
            lines,
        }
    }

    fn put(&self, place: u32, area: &mut [u8]) {
        let from = place as usize;
        let settings = self.settings;
        let head = [settings.mode, settings.v, settings.rate, settings.segments];
        lent_areas::put_in(&head, from, area);
        lent_areas::put_in(&self.memory, from + 4, area);
        lent_areas::put_in(&[self.register], from + 1126, area);
        lent_areas::put_in(&self.lines, from + 1127, area);
    }

    ghost size_is = { refl };

    ghost unused_is = { coding_unused };
}
