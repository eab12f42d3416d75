// The receiving state: what a layer's going back carries from frame to frame, its start, and the test whether one is
// good.
//
// The entry that goes back is lent one, and moves it on where it isn't refused.
#![tactic(auto)]

ghost use Rattle.std.specs.Prelude.{◌≡◌, true, cond, not, eqb};
ghost use Rattle.std.specs.Result.{result_unwrap_or};
ghost use Rattle.settings.specs.Answers.{number_of};
ghost use Rattle.settings.specs.Legal.{starting};
ghost use Rattle.receiving_state.specs.State.{fresh_receiving_state, zero_receiving_state};
ghost use Rattle.receiving_state.specs.State.{started_receiving_state, nothing_taken, good_receiving_state};

mod layer;

use settings::{Refusal, Settings};

// What a layer's going back carries from frame to frame.
#[derive(Clone, Copy)]
pub struct State {
    pub settings: Settings,
    // 1 once a frame has been taken. It is a byte of the state, and a state with another one is not good: no bool.
    pub taken: u8,
    pub memory: [u8; 1122],
    pub lines: [u8; 360],
    pub register: u8,
    // The bits of the unfinished word.
    pub held: [u8; 3072],
}

// Starts a layer: its state before the first frame, or the refusal.
#[tactic(auto, unfolding(crate::specs::State::started_receiving_state))]
pub fn start(settings: Settings) -> Result<State, Refusal>
    ensures answer_value { number_of result ≡ starting settings }
    ensures state_value { result_unwrap_or result zero_receiving_state ≡ started_receiving_state settings }
{
    settings::legal(settings)?;
    Ok(fresh(settings))
}

// The all-zero state, which is not good.
#[tactic(auto, unfolding(crate::specs::State::zero_receiving_state))]
pub fn nothing() -> State
    ensures { result ≡ zero_receiving_state }
{
    fresh(Settings {
        mode: 0,
        v: 0,
        rate: 0,
        segments: 0,
    })
}

// A state that is all zero but for its settings.
#[tactic(auto, unfolding(crate::specs::State::fresh_receiving_state))]
fn fresh(settings: Settings) -> State
    ensures { result ≡ fresh_receiving_state settings }
{
    State {
        settings,
        taken: 0,
        memory: [0; 1122],
        lines: [0; 360],
        register: 0,
        held: [0; 3072],
    }
}

// Whether a state is not good: what going back tests first.
pub fn not_good(state: &State) -> bool
    ensures { result ≡ not (good_receiving_state state.now) }
{
    let settings = state.settings;
    let legal = settings::legal(settings).is_ok();
    let few = legal & (state.taken < 2) & (state.register < 64);
    let lines_fine = lent_areas::bits_then_zeros(&state.lines, 60 * (settings.v as usize));
    let held_fine = lent_areas::bits_then_zeros(&state.held, received_bits::held_count(settings));
    !(few & lines_fine & held_fine & nothing_yet(state))
}

// Whether, before the first frame, all but the settings is zero.
fn nothing_yet(state: &State) -> bool
    ensures { result ≡ cond (eqb state.now.taken 0) (nothing_taken state.now) true }
{
    state.taken != 0 || nothing_taken(state)
}

// Whether all but the settings is zero.
#[tactic(auto, unfolding(crate::specs::State::nothing_taken))]
fn nothing_taken(state: &State) -> bool
    ensures { result ≡ nothing_taken state.now }
{
    let memory_zero = lent_areas::bits_then_zeros(&state.memory, 0);
    let lines_zero = lent_areas::bits_then_zeros(&state.lines, 0);
    let held_zero = lent_areas::bits_then_zeros(&state.held, 0);
    (state.register == 0) & memory_zero & lines_zero & held_zero
}
