// The difference of two packets goes through the rules like a frame of its own, from a state of zeros, and what comes
// out is added to the frame's carriers and to the state behind it. The difference is quiet before its packet's word and
// from the thirteenth word after that on, so no other words are gone through.
ghost use Rattle.std.specs.Prelude.{◌≡◌, true, ◌+◌, ◌*◌, ◌<◌, ◌≤◌, length};
ghost use Rattle.settings.specs.Sizes.{packets_by_rate, P, C};
ghost use Rattle.settings.proofs.LegalSettings.{LegalRate, LegalBits};
ghost use Rattle.rules.proofs.Counts.{per_block, whole_blocks};
ghost use Rattle.coding_state.specs.State.{good_coding_state};
ghost use Rattle.coding_answers.specs.Replacement.{added_to, difference_word, replaced_carriers, replaced_state};
ghost use Rattle.replacement.specs.Steps.{quiet_run, state_added};

use coding_state::State;
use word_coder::Run;

// Adds what the two packets differ by to the frame's carriers, and gives the state behind it with the same added.
pub(super) fn add_difference(
    state: State,
    carriers: &mut [u8],
    number: usize,
    old: &[u8],
    new: &[u8],
) -> State
    requires { (good_coding_state state ≡ true) × (length carriers.old ≡ C state.settings)
        × (length old.now ≡ 188)
        × (length new.now ≡ 188) × (number < P state.settings) }
    ensures { (result ≡ replaced_state state number old.now new.now)
        × (carriers.new
        ≡ replaced_carriers state.settings number old.now new.now carriers.old) }
{
    let settings = state.settings;
    let rate = settings.rate;
    let v = settings.v;
    let table = puncturing::block_table(rate);
    let last = settings::packets(settings).min(number + 13);
    let mut run = quiet(rate, number);
    let mut memory = [0u8; 1122];
    let mut stream = [0u8; 212];
    // What two words differ by isn't dispersed.
    let silent = [0u8; 204];
    let mut place = first_carrier(rate, v, number);
    let mut word = difference_word(old, new);
    for p in number..last {
        dispersing_interleaver::walk(&mut memory, &silent, &word, &mut stream);
        let coded = word_coder::step(&table, rate, v, run, &stream);
        let symbols = coded.symbols;
        let count = coded.count;
        bit_interleaver::add_placed(&symbols, v, place, count, carriers);
        place = place + count;
        let next = coded.run;
        run = next;
        word = [0u8; 204];
    }
    added(state, run, memory, stream[207])
}

// The run before the packet's word: zeros, and as many message bits that no block has taken as the words before it
// leave.
fn quiet(rate: u8, number: usize) -> Run
    requires { LegalRate rate × (number ≤ 3276) }
    ensures { result ≡ quiet_run rate number }
{
    Run {
        left: 1632 * number % puncturing::block_length(rate),
        history: [0; 120],
    }
}

// The first carrier of the packet's word: the words before it have so many symbols.
fn first_carrier(rate: u8, v: u8, number: usize) -> usize
    requires { LegalRate rate × LegalBits v × (number ≤ 3276) }
    ensures { result ≡ per_block v * whole_blocks (packets_by_rate rate) number }
{
    let each = 24 / (v as usize);
    each * (1632 * number / puncturing::block_length(rate))
}

// What the words sent of the two packets differ by.
fn difference_word(old: &[u8], new: &[u8]) -> [u8; 204]
    requires { (length old.now ≡ 188) × (length new.now ≡ 188) }
    ensures { result ≡ difference_word old.now new.now }
{
    let parity = remainder::parity(old);
    let mut word = codeword::sent_word(old, &parity);
    let other_parity = remainder::parity(new);
    let other = codeword::sent_word(new, &other_parity);
    add(&mut word, &other);
    word
}

// The state with what the run, the memory and the last byte of the stream hold behind the last word added.
fn added(state: State, run: Run, waiting: [u8; 1122], last: u8) -> State
    ensures { result ≡ state_added state run waiting last }
{
    let settings = state.settings;
    let mut memory = state.memory;
    add(&mut memory, &waiting);
    let history = run.history;
    let mut lines = state.lines;
    let delayed = bit_interleaver::lines(settings.v, &history);
    add(&mut lines, &delayed);
    State {
        settings,
        memory,
        register: state.register ^ convolutional_code::turned_register(last),
        lines,
    }
}

// Adds the bytes of one area to those of another.
fn add(bytes: &mut [u8], more: &[u8])
    requires { length more.now ≡ length bytes.old }
    ensures { bytes.new
        ≡ added_to (length bytes.old) bytes.old more.now }
{
    for k in 0..bytes.len() {
        bytes[k] = bytes[k] ^ more[k];
    }
}
