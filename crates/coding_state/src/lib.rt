// The coding state: what a layer's coding carries from frame to frame, its start, and the test whether one is good.
//
// Every entry of coding is lent one, and moves it on where it isn't refused.
#![tactic(auto)]

ghost use Rattle.std.specs.Prelude.{◌≡◌, not};
ghost use Rattle.std.specs.Result.{result_unwrap_or};
ghost use Rattle.settings.specs.Answers.{number_of};
ghost use Rattle.settings.specs.Legal.{starting};
ghost use Rattle.coding_state.specs.State.{fresh_coding_state, zero_coding_state, started_coding_state, good_coding_state};

mod layer;

use settings::{Refusal, Settings};

// What a layer's coding carries from frame to frame.
#[derive(Clone, Copy)]
pub struct State {
    pub settings: Settings,
    pub memory: [u8; 1122],
    pub register: u8,
    pub lines: [u8; 360],
}

// Starts a layer: its state before the first frame, or the refusal.
#[tactic(auto, unfolding(crate::specs::State::started_coding_state))]
pub fn start(settings: Settings) -> Result<State, Refusal>
    ensures answer_value { number_of result ≡ starting settings }
    ensures state_value { result_unwrap_or result zero_coding_state ≡ started_coding_state settings }
{
    settings::legal(settings)?;
    Ok(fresh(settings))
}

// The all-zero state, which is not good.
#[tactic(auto, unfolding(crate::specs::State::zero_coding_state))]
pub fn nothing() -> State
    ensures { result ≡ zero_coding_state }
{
    fresh(Settings {
        mode: 0,
        v: 0,
        rate: 0,
        segments: 0,
    })
}

// A state that is all zero but for its settings.
#[tactic(auto, unfolding(crate::specs::State::fresh_coding_state, rules::specs::Bytes::memory_at_start, rules::specs::Bits::lines_at_start,))]
fn fresh(settings: Settings) -> State
    ensures { result ≡ fresh_coding_state settings }
{
    State {
        settings,
        memory: [0; 1122],
        register: 0,
        lines: [0; 360],
    }
}

// Whether a state is not good: what every entry that is lent one tests first.
#[tactic(auto, unfolding(crate::specs::State::good_coding_state))]
pub fn not_good(state: &State) -> bool
    ensures { result ≡ not (good_coding_state state.now) }
{
    let settings = state.settings;
    let legal = settings::legal(settings).is_ok();
    let lines_fine = lent_areas::bits_then_zeros(&state.lines, 60 * (settings.v as usize));
    !(legal & (state.register < 64) & lines_fine)
}
