// A frame of carriers to slots, word by word.
ghost use Rattle.std.specs.Prelude.{◌≡◌, true, ◌+◌, ◌-◌, ◌*◌, ◌/◌, ◌<◌, ◌≤◌, length, take};
ghost use Rattle.settings.specs.Legal.{starting};
ghost use Rattle.settings.specs.Sizes.{P, C};
ghost use Rattle.settings.proofs.LegalSettings.{LegalBits, LegalRate};
ghost use Rattle.rules.specs.Dispersal.{dispersed};
ghost use Rattle.nearest.specs.Slot.{Slot};
ghost use Rattle.receiving_state.specs.State.{good_receiving_state};
ghost use Rattle.receiving_answers.specs.Receiving.{last_carriers, receiving_state_behind, Slots};
ghost use Rattle.receiver.specs.Steps.{finished_by, FramePairs, PairsOfCall, pairs_by, receiving_closed, Handed};

use super::words::{Finished, Run};
use super::{State, words};
use settings::Settings;

// Takes the frame: fills the slots, and gives the state behind it.
pub(super) fn take_frame(state: State, packets: usize, carriers: &[u8], slots: &mut [u8]) -> State
    requires { (good_receiving_state state ≡ true) × (packets ≡ P state.settings)
        × (length carriers.now ≡ C state.settings)
        × (length slots.old ≡ 189 * P state.settings) }
    ensures { (result ≡ receiving_state_behind state carriers.now)
        × Slots state carriers.now slots.old slots.new }
{
    let settings = state.settings;
    let held = state.held;
    let lines = state.lines;
    let taken = state.taken as usize;
    let passed = 11 - 11 * taken;
    let words = packets - 1 + taken;
    let mut table = [0u8; 104512];
    let mut run = opened(state);
    for n in 0..words {
        let last = n < taken;
        let number = (n + packets - taken) % packets;
        let finished = word_of(
            settings, last, number, &held, &lines, carriers, run, &mut table,
        );
        run = finished.run;
        let word = finished.word;
        give_from(&word, (number + packets - 11) % packets, passed, n, slots);
    }
    closed(state, run, carriers)
}

// Before the first word.
fn opened(state: State) -> Run
    ensures { (result.memory ≡ state.memory) × (result.register ≡ state.register) }
{
    let memory = state.memory;
    let register = state.register;
    Run { memory, register }
}

// The state behind the last word.
fn closed(state: State, run: Run, carriers: &[u8]) -> State
    requires { (starting state.settings ≡ 0) × (length carriers.now ≡ C state.settings) }
    ensures { result ≡ receiving_closed state.settings run carriers.now }
{
    let settings = state.settings;
    let last = last_carriers(carriers);
    let lines = bit_interleaver::waits(settings.v, &last);
    let held = received_bits::held_after(settings, carriers);
    let memory = run.memory;
    let register = run.register;
    State {
        settings,
        taken: 1,
        memory,
        lines,
        register,
        held,
    }
}

// Word `number` goes in: of this frame, or, where `last` says so, of the frame before.
fn word_of(
    settings: Settings,
    last: bool,
    number: usize,
    held: &[u8; 3072],
    lines: &[u8; 360],
    carriers: &[u8],
    run: Run,
    table: &mut [u8; 104512],
) -> Finished
    requires { (starting settings ≡ 0) × (number < P settings) × (last ≡ true → number ≡ P settings - 1)
        × (run.register < 64) }
    ensures { (result ≡ finished_by run
        (pairs_by settings last number held.now lines.now carriers.now))
        × (result.run.register < 64) }
{
    let size = puncturing::block_length(settings.rate);
    let pairs = call_pairs(settings, last, number, held, lines, carriers);
    words::finish(run, &pairs, 1632 * number % size, table)
}

// The n-th word fills a slot, but for the first ones, which are passed over.
fn give_from(word: &[u8; 204], place: usize, passed: usize, n: usize, slots: &mut [u8])
    requires { (n < 8192) × (189 * (n - passed) + 189 ≤ length slots.old) }
    ensures { Handed passed n (take 203 (dispersed place word.now)) slots.old
        slots.new }
{
    if passed <= n {
        let a = 189 * (n - passed);
        let e = a + 189;
        give(word, place, &mut slots[a..e]);
    }
}

// The received pairs of word `number`: of this frame, or, where `last` says so, of the frame before.
fn call_pairs(
    settings: Settings,
    last: bool,
    number: usize,
    held: &[u8; 3072],
    lines: &[u8; 360],
    carriers: &[u8],
) -> [u8; 1680]
    requires { (starting settings ≡ 0) × (number < P settings) × (last ≡ true → number ≡ P settings - 1) }
    ensures { PairsOfCall settings last number held.now lines.now
        carriers.now result }
{
    let rate = settings.rate;
    let size = puncturing::block_length(rate);
    if last {
        let lead = settings::kept_below(rate, (1632 * number % size) as u32);
        return received_bits::held_pairs(
            settings.v,
            rate,
            lead,
            received_bits::held_count(settings),
            held,
            lines,
            carriers,
        );
    }
    frame_pairs(settings.v, rate, 1632 * number / size, carriers)
}

// The received pairs from block s of the frame on. Its stretch of the carriers is lent on.
fn frame_pairs(v: u8, rate: u8, s: usize, carriers: &[u8]) -> [u8; 1680]
    requires { LegalBits v × LegalRate rate × (s < 1048576) }
    ensures { FramePairs v rate s carriers.now result }
{
    let bits = v as usize;
    let from = (24 / bits * s).min(carriers.len());
    let reach = 3360 / bits + 120;
    let end = (from + reach).min(carriers.len());
    received_bits::pairs(v, rate, &carriers[from..end])
}

// The slot of a finished word: the dispersal of the sent word's place is taken off.
fn give(word: &[u8; 204], place: usize, slot: &mut [u8])
    requires { length slot.old ≡ 189 }
    ensures { Slot (take 203 (dispersed place word.now)) slot.new
        × (length slot.new ≡ 189) }
{
    let opened = dispersal::disperse(place, word);
    // The lengths fit, so that it isn't refused.
    let _ = slot::give(&opened[0..203], slot);
}

// The last 120 carriers of the frame.
fn last_carriers(carriers: &[u8]) -> [u8; 120]
    requires { 120 ≤ length carriers.now }
    ensures { result ≡ last_carriers carriers.now }
{
    let mut last = [0u8; 120];
    last.copy_from_slice(&carriers[carriers.len() - 120..]);
    last
}
