// What the line programs `frames`, `coding` and `receiving` share (document 01, "The settings program"): a line is cut
// out of a text that comes in pieces, a line of settings is read, and an answer is a line too.
#![tactic(auto)]

ghost use Rattle.std.specs.Prelude.{◌≡◌, is_some, cond, not, ◌&&◌, eqb};
ghost use Rattle.std.specs.Option.{unwrap_or};
ghost use Rattle.text_lines.specs.Cut.{Cut};
ghost use Rattle.text_lines.specs.Reading.{new_reading, with_piece, Stepped};
ghost use Rattle.text_lines.specs.First.{well_formed, no_settings, settings_begun, small, starting_number, beginning};
ghost use Rattle.text_lines.specs.First.{frame_read, frame_into};
ghost use Rattle.text_lines.specs.Awaiting.{over};
ghost use Rattle.text_lines.specs.Answer.{answer_into, answer_length};
ghost use Rattle.text_lines.specs.Turned.{areas_fit};

mod frames;
mod work;

pub use frames::FrameWork;
use settings::Settings;
pub use work::{LineAnswer, LineWork, Turned, turn};

// What a piece of the text did to a line that has begun: how many of its bytes are held, how many bytes of the piece
// are used up, and whether the line has ended. (The flag stands beside the counts, since `Cut` says them of a line that
// has ended and of one that hasn't.)
#[derive(Clone, Copy)]
pub struct Gathered {
    pub held: usize,
    pub used: usize,
    pub ended: bool,
}

// Goes on with a line, of which the first `held` bytes stand in `line`, up to its line feed or to the end of the piece.
// What there is no room for is passed over: the line is then longer than any that is answered.
pub fn gather(line: &mut [u8], held: usize, text: &[u8]) -> Gathered
    ensures { Cut line.old held text.now result line.new }
{
    let room = line.len();
    let mut count = numbers::least(held, room);
    for i in 0..text.len() {
        if text[i] == b'\n' {
            return Gathered {
                held: count,
                used: i + 1,
                ended: true,
            };
        }
        if count < room {
            line[count] = text[i];
            count += 1;
        }
    }
    Gathered {
        held: count,
        used: text.len(),
        ended: false,
    }
}

// How far a text is read: the bytes of its piece from `at` up to `end` are left, and `held` bytes are held of the line
// that has begun.
#[derive(Clone, Copy)]
pub struct Reading {
    pub at: usize,
    pub end: usize,
    pub held: usize,
}

// Before the first piece: nothing is left, and no line has begun.
pub fn new_reading() -> Reading
    ensures { result ≡ new_reading }
{
    Reading {
        at: 0,
        end: 0,
        held: 0,
    }
}

// With the next piece, of so many bytes.
pub fn with_piece(reading: Reading, count: usize) -> Reading
    ensures { result ≡ with_piece reading count }
{
    Reading {
        at: 0,
        end: count,
        held: reading.held,
    }
}

// What going on with a text gave: how far it is read, whether the line has ended, how many bytes of it stand at the
// front of its area, and whether the text may go on. (`Stepped` says each of the four in every case.)
#[derive(Clone, Copy)]
pub struct Step {
    pub reading: Reading,
    pub ended: bool,
    pub count: usize,
    pub more: bool,
}

// Goes on with the line in what is left of the piece, which stands in `text`. Where nothing is left the text is at its
// end, and so is the line if it has begun.
pub fn go_on(reading: Reading, text: &[u8], line: &mut [u8]) -> Step
    ensures { Stepped reading text.now line.old result line.new }
{
    let end = numbers::least(reading.end, text.len());
    let at = numbers::least(reading.at, end);
    let cut = gather(line, reading.held, &text[at..end]);
    let more = at < end;
    let ended = has_ended(cut, more);
    Step {
        reading: Reading {
            at: at + cut.used,
            end,
            held: held_on(cut, ended),
        },
        ended,
        count: cut.held,
        more,
    }
}

// Whether a line has ended, at its line feed or at the end of the text.
fn has_ended(cut: Gathered, more: bool) -> bool
    ensures { result ≡ cond more cut.ended (not (eqb cut.held 0)) }
{
    if more {
        return cut.ended;
    }
    cut.held != 0
}

// How many bytes are held of the line that is gone on with: a line that has ended leaves nothing.
fn held_on(cut: Gathered, ended: bool) -> usize
    ensures { result ≡ cond ended 0 cut.held }
{
    if ended {
        return 0;
    }
    cut.held
}

// Reads a line of settings: those that it writes, where it is one.
pub fn read_settings(line: &[u8]) -> Option<Settings>
    ensures formed { is_some result ≡ well_formed line.now }
    ensures written { unwrap_or result no_settings ≡ settings_begun line.now }
{
    let mut bytes = [0u8; 4];
    if !hexadecimal::read(line, &mut bytes) {
        return None;
    }
    let [mode, v, rate, segments] = bytes;
    Some(Settings {
        mode,
        v,
        rate,
        segments,
    })
}

// Whether a layer is one of the programs': legal, and N × 2^(mode−1) at most 2.
pub fn is_small(settings: Settings) -> bool
    ensures { result ≡ small settings }
{
    let carriers = settings::carriers(settings);
    if carriers == 0 {
        return false;
    }
    carriers <= 39168
}

// The number that a first line prints, 0 where it prints nothing and frames follow, and the settings that it writes.
// Both stand side by side, and not in a Result: `begin` tells the settings of a line that is refused too.
#[derive(Clone, Copy)]
pub struct Begun {
    pub number: u8,
    pub settings: Settings,
}

// Reads the first line of `coding` and `receiving`.
pub fn begin(line: &[u8]) -> Begun
    ensures { (result.number ≡ beginning line.now) × (result.settings ≡ settings_begun line.now) }
{
    match read_settings(line) {
        Some(settings) => Begun {
            number: starting_number(settings),
            settings,
        },
        None => Begun {
            number: 255,
            settings: Settings {
                mode: 0,
                v: 0,
                rate: 0,
                segments: 0,
            },
        },
    }
}

// The number that a line of these settings prints.
fn starting_number(settings: Settings) -> u8
    ensures { result ≡ starting_number settings }
{
    let refusal = settings::number(settings::legal(settings));
    if refusal != 0 {
        return refusal;
    }
    if is_small(settings) { 0 } else { 255 }
}

// Reads a frame's line, of `count` bytes, into the front of an area. It tells whether the line is one, of a layer that
// the programs take; any other leaves the area as it was. (A bool, which the clause gives as a value.)
pub fn read_frame(settings: Settings, count: usize, line: &[u8], area: &mut [u8]) -> bool
    ensures { (result ≡ frame_read settings count line.now area.old)
        × (area.new ≡ frame_into settings count line.now area.old) }
{
    if !is_small(settings) {
        return false;
    }
    if area.len() < count {
        return false;
    }
    hexadecimal::read(line, &mut area[0..count])
}

// What a program awaits: the line of settings, frames, or nothing more.
#[derive(Clone, Copy)]
pub enum Awaits {
    FirstLine,
    Frames,
    Nothing,
}

// Whether a loop goes on: the text may go on, and the run is not over.
pub fn goes_on(more: bool, awaits: Awaits) -> bool
    ensures { result ≡ (more && not (over awaits)) }
{
    match awaits {
        Awaits::FirstLine => more,
        Awaits::Frames => more,
        Awaits::Nothing => false,
    }
}

// Whether the areas lent to a program are its own: so many bytes for a line, and room for the longest answer.
pub fn areas_fit(room: usize, most: usize, line: &[u8], out: &[u8]) -> bool
    ensures { result ≡ areas_fit room most line.now out.now }
{
    if line.len() != room {
        return false;
    }
    most <= out.len()
}

// Writes a line of the output at the front of `out`: a number in two digits, bytes in two digits each, and a line feed.
// It gives the line's length; without room for it nothing is written, and the length is 0, which no line has.
pub fn put_answer(number: u8, bytes: &[u8], out: &mut [u8]) -> usize
    ensures value { result ≡ answer_length bytes.now out.old }
    ensures out_after { out.new ≡ answer_into number bytes.now out.old }
{
    if out.len() < 3 {
        return 0;
    }
    if (out.len() - 3) / 2 < bytes.len() {
        return 0;
    }
    let end = 2 * bytes.len() + 2;
    hexadecimal::write(number as u64, &mut out[0..2]);
    hexadecimal::write_bytes(bytes, &mut out[2..end]);
    out[end] = b'\n';
    end + 1
}
