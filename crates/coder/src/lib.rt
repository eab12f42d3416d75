// The entry that codes a frame of packets into carriers.
//
// The state is lent. A refused call leaves it, and every other byte that was lent, as it was.
#![tactic(auto)]

ghost use Rattle.std.specs.Prelude.{◌≡◌, not};
ghost use Rattle.settings.specs.Answers.{number_of};
ghost use Rattle.settings.specs.Sizes.{packets_of};
ghost use Rattle.coding_answers.specs.Coding.{all_begin, coding, coded_into, state_coded};

pub use coding_state::{State, start};
use settings::{Answer, Refusal, Settings};

mod frame;

// Codes a frame of packets into the lent carriers, and moves the state on.
pub fn code(state: &mut State, packets: &[u8], carriers: &mut [u8]) -> Answer
    ensures { (number_of result ≡ coding state.old packets.now carriers.old)
        × (state.new ≡ state_coded state.old packets.now carriers.old)
        × (carriers.new ≡ coded_into state.old packets.now carriers.old) }
{
    accept(state, packets, carriers)?;
    *state = frame::code_frame(*state, packets, carriers);
    Ok(())
}

// The first reason for a refusal that applies, or done.
#[tactic(auto, unfolding(coding_answers::specs::Coding::coding))]
fn accept(state: &State, packets: &[u8], carriers: &[u8]) -> Answer
    ensures { number_of result ≡ coding state.now packets.now carriers.now }
{
    let settings = state.settings;
    if coding_state::not_good(state) {
        return Err(Refusal::StateNotGood);
    }
    if packets.len() != 188 * settings::packets(settings) {
        return Err(Refusal::WrongLength);
    }
    if carriers.len() != settings::carriers(settings) {
        return Err(Refusal::WrongNumberOfCarriers);
    }
    if sync_byte_missing(settings, packets) {
        return Err(Refusal::SyncByteMissing);
    }
    Ok(())
}

// Whether one of the packets that a frame has doesn't begin with 47, or isn't there.
#[tactic(auto, using(lists::proofs::Firsts::first_below), unfolding(coding_answers::specs::Coding::all_begin))]
fn sync_byte_missing(settings: Settings, packets: &[u8]) -> bool
    ensures { result ≡ not (all_begin (packets_of settings) packets.now) }
{
    let count = settings::packets(settings);
    sync_bytes::first_lacking(packets, count) < count
}
