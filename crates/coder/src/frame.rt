// A frame of packets to carriers, word by word.
ghost use Rattle.std.specs.Prelude.{◌≡◌, true, ◌+◌, ◌*◌, ◌/◌, ◌%◌, ◌≤◌, length, get_or};
ghost use Rattle.settings.specs.Sizes.{P, C};
ghost use Rattle.settings.proofs.LegalSettings.{LegalRate, LegalBits};
ghost use Rattle.convolutional_code.specs.CodeTable.{turned};
ghost use Rattle.coding_state.specs.State.{good_coding_state};
ghost use Rattle.coding_answers.specs.Coding.{carriers_of_frame, coding_state_behind};
ghost use Rattle.coder.specs.Steps.{ParitiesIn, Rows, opened_progress, Worded, coding_closed};

use super::State;
use word_coder::Run;

// What goes from word to word: the run of rules 4 to 6, and how many carriers are written.
#[derive(Clone, Copy)]
pub(super) struct Progress {
    pub run: Run,
    pub written: usize,
}

// Codes the frame, and gives the state behind it.
pub(super) fn code_frame(state: State, packets: &[u8], carriers: &mut [u8]) -> State
    requires { (good_coding_state state ≡ true) × (length packets.now ≡ 188 * P state.settings)
        × (length carriers.old ≡ C state.settings) }
    ensures { (result ≡ coding_state_behind state packets.now)
        × (carriers.new ≡ carriers_of_frame state packets.now) }
{
    let settings = state.settings;
    let rate = settings.rate;
    let v = settings.v;
    let table = puncturing::block_table(rate);
    let mut progress = opened(state);
    let mut rows = [0u8; 512];
    let mut memory = state.memory;
    let mut stream = opened_stream(state.register);
    let mut register = dispersal::register_at(0);
    let count = packets.len() / 188;
    for p in 0..count {
        renew_rows(packets, p, &mut rows);
        let a = 188 * p;
        let e = a + 188;
        let row = 16 * (p % 32);
        let row_end = row + 16;
        let word = codeword::sent_word(&packets[a..e], &rows[row..row_end]);
        let sequence = dispersal::sequence(register);
        register = dispersal::register_after(&sequence);
        dispersing_interleaver::walk(&mut memory, &sequence, &word, &mut stream);
        progress = code_word(&table, rate, v, progress, &stream, carriers);
    }
    closed(state, progress, memory, stream[207])
}

// Before the first word.
fn opened(state: State) -> Progress
    ensures { result ≡ opened_progress state }
{
    let settings = state.settings;
    let lines = state.lines;
    let history = bit_interleaver::history(settings.v, &lines);
    Progress {
        run: Run { left: 0, history },
        written: 0,
    }
}

// The stream before the first word: the last bits that came out are the register's.
fn opened_stream(register: u8) -> [u8; 212]
    ensures { get_or result 207 0 ≡ turned 6 register }
{
    let mut stream = [0u8; 212];
    stream[207] = convolutional_code::turned_register(register);
    stream
}

// Where p is the first of 32 packets, the parities of those 32, or of as many as there are, come into the rows.
fn renew_rows(packets: &[u8], p: usize, rows: &mut [u8])
    requires { (188 * p + 188 ≤ length packets.now) × (length rows.old ≡ 512)
        × ((p % 32 ≡ 0 → ⊥) → Rows packets.now p rows.old) }
    ensures { Rows packets.now p rows.new × (length rows.new ≡ 512) }
{
    if p % 32 == 0 {
        let count = (packets.len() / 188 - p).min(32);
        let first = 188 * p;
        let end = first + 188 * count;
        put_parities(&packets[first..end], rows);
    }
}

// The parities of the packets into the first bytes of the area.
fn put_parities(packets: &[u8], area: &mut [u8])
    requires { (length packets.now ≡ 188 * (length packets.now / 188))
        × (16 * (length packets.now / 188) ≤ length area.old) }
    ensures { ParitiesIn packets.now area.new }
{
    let end = 16 * (packets.len() / 188);
    remainder::parities(packets, &mut area[0..end]);
}

// A word more: the stream with it goes through the step, and its carriers are written.
fn code_word(
    table: &[u32; 112],
    rate: u8,
    v: u8,
    progress: Progress,
    stream: &[u8; 212],
    carriers: &mut [u8],
) -> Progress
    requires { LegalRate rate × LegalBits v × (progress.written ≤ 1018368) }
    ensures { Worded table.now rate v progress stream.now carriers.old result
        carriers.new }
{
    let run = progress.run;
    let coded = word_coder::step(table, rate, v, run, stream);
    let symbols = coded.symbols;
    let count = coded.count;
    let written = progress.written;
    bit_interleaver::place(&symbols, v, written, count, carriers);
    let next = coded.run;
    Progress {
        run: next,
        written: written + count,
    }
}

// The state behind the last word. `last` is the last byte that came out of the byte interleaver.
fn closed(state: State, progress: Progress, memory: [u8; 1122], last: u8) -> State
    ensures { result ≡ coding_closed state progress memory last }
{
    let settings = state.settings;
    let run = progress.run;
    let history = run.history;
    State {
        settings,
        memory,
        register: convolutional_code::turned_register(last),
        lines: bit_interleaver::lines(settings.v, &history),
    }
}
