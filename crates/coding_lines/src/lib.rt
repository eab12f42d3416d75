// The work of the program `coding` (document 01, after "The settings program"): a line in, a line out. The first
// line is one of settings, and each line after it a frame of packets in hexadecimal, which gives its carriers.
#![tactic(auto)]

ghost use Rattle.std.specs.Prelude.{◌≡◌, true, ◌≤◌, length, replicate};
ghost use Rattle.std.proofs.Common.{arith};
ghost use Rattle.text_lines.specs.First.{small};
ghost use Rattle.text_lines.specs.Answer.{Told};
ghost use Rattle.coding_state.specs.State.{started_coding_state};
ghost use Rattle.coding_lines.specs.Lines.{new_coding, coding_ended, coding_frames, coded_text, after_coded, shown_of};
ghost use Rattle.coding_lines.specs.Turns.{CodingTells, CodingFrameTells, coding_room, coding_answer_room, CodingTurn};
ghost use Rattle.coding_lines.specs.Laws.{room_is, answer_room_is, first_tells, frames_tell, nothing_tells};

use coding_state::State;
use settings::Settings;
use text_lines::{Awaits, FrameWork, LineWork, Reading};

// What goes from line to line: what is awaited, and the coding state. Each of both programs has a type of its own:
// an impl stands in the crate of its trait or of its type, and the states are of other crates.
#[derive(Clone, Copy)]
pub struct Run {
    pub awaits: Awaits,
    pub state: State,
}

// The run before the first line: no layer is started.
#[tactic(auto, unfolding(crate::specs::Lines::new_coding))]
pub fn new_run() -> Run
    ensures { result ≡ new_coding }
{
    Run {
        awaits: Awaits::FirstLine,
        state: coding_state::nothing(),
    }
}

impl LineWork for Run {
    ghost awaits = { λ run. run.awaits };

    ghost tells = { CodingTells };

    ghost room = { coding_room };

    ghost most = { coding_answer_room };

    ghost ROOM = { 47377 };

    ghost MOST = { 78339 };

    // One more than the longest frame has digits.
    const ROOM: usize = 47377;

    const MOST: usize = 78339;

    fn awaits(&self) -> Awaits {
        self.awaits
    }

    ghost room_is = { room_is };

    ghost most_is = { answer_room_is };
}

impl FrameWork for Run {
    ghost begun = { λ run settings. coding_frames (started_coding_state settings) };

    ghost ended = { coding_ended };

    ghost frame_tells = { CodingFrameTells };

    #[tactic(auto, unfolding(crate::specs::Lines::coding_frames))]
    fn begin(&mut self, settings: Settings) {
        self.awaits = Awaits::Frames;
        self.state = coding_state::start(settings).unwrap_or(coding_state::nothing());
    }

    #[tactic(auto, unfolding(crate::specs::Lines::coding_ended))]
    fn end(&mut self) {
        self.awaits = Awaits::Nothing;
    }

    fn frame(&mut self, line: &[u8], out: &mut [u8]) -> usize {
        if out.len() < Self::MOST {
            return 0;
        }
        let settings = self.state.settings;
        let count = 188 * settings::packets(settings);
        let mut packets = packet_area();
        if !text_lines::read_frame(settings, count, line, &mut packets) {
            self.end();
            return text_lines::put_answer(255, b"", out);
        }
        coded(self, &packets[0..count], out)
    }

    ghost number_fits = { omega arith };

    ghost first_tells = { first_tells };

    ghost frames_tell = { frames_tell };

    ghost nothing_tells = { nothing_tells };
}

// What a turn of the program's loop gave.
pub type Turned = text_lines::Turned<Run>;

// A turn of the program's loop: it goes on with the text, and where a line has ended answers it at the front of `out`.
// A line takes 47,377 bytes, one more than the longest frame has digits, and the longest answer 78,339; with other
// areas the answer is 5, and nothing is read or written.
pub fn turn(run: Run, reading: Reading, text: &[u8], line: &mut [u8], out: &mut [u8]) -> Turned
    ensures { CodingTurn run reading text.now line.old out.old result
        line.new out.new }
{
    text_lines::turn(run, reading, text, line, out)
}

// The frame of these packets.
fn coded(run: &mut Run, packets: &[u8], out: &mut [u8]) -> usize
    requires { small run.old.state.settings ≡ true }
    ensures { 78339 ≤ length out.old → Told (coded_text run.old.state packets.now)
        (after_coded run.old.state packets.now) out.old run.new result out.new }
{
    let count = settings::carriers(run.state.settings);
    let mut carriers = carrier_area();
    let answer = coder::code(&mut run.state, packets, &mut carriers[0..count]);
    run.awaits = Awaits::Frames;
    let number = settings::number(answer);
    let shown = shown_of(number, count);
    text_lines::put_answer(number, &carriers[0..shown], out)
}

// Room for the packets of the largest frame.
fn packet_area() -> [u8; 23688]
    ensures { length result ≡ 23688 }
{
    [0; 23688]
}

// Room for its carriers.
fn carrier_area() -> [u8; 39168]
    ensures { result ≡ replicate 39168 0 }
{
    [0; 39168]
}

// How many carriers are shown: all of them, or, where the frame was refused, none.
#[tactic(auto, unfolding(crate::specs::Lines::shown_of))]
fn shown_of(number: u8, count: usize) -> usize
    ensures { result ≡ shown_of number count }
{
    if number == 0 {
        return count;
    }
    0
}
