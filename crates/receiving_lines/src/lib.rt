// The work of the program `receiving` (document 01, after "The settings program"): a line in, a line out. The first
// line is one of settings, and each line after it a frame of carriers in hexadecimal, which gives its slots.
#![tactic(auto)]

ghost use Rattle.std.specs.Prelude.{◌≡◌, true, ◌≤◌, length, replicate};
ghost use Rattle.std.proofs.Common.{arith};
ghost use Rattle.text_lines.specs.First.{small};
ghost use Rattle.text_lines.specs.Answer.{SomeTold};
ghost use Rattle.receiving_state.specs.State.{started_receiving_state};
ghost use Rattle.receiving_lines.specs.Lines.{new_receiving, receiving_ended, receiving_frames, Shown, FrameTold, LineTold};
ghost use Rattle.receiving_lines.specs.Turns.{receiving_room, receiving_answer_room, ReceivingTurn};
ghost use Rattle.receiving_lines.specs.Laws.{room_is, answer_room_is, first_tells, frames_tell, nothing_tells};

use receiving_state::State;
use settings::Settings;
use text_lines::{Awaits, FrameWork, LineWork, Reading};

// What goes from line to line: what is awaited, and the receiving state. Each of both programs has a type of its own:
// an impl stands in the crate of its trait or of its type, and the states are of other crates.
#[derive(Clone, Copy)]
pub struct Run {
    pub awaits: Awaits,
    pub state: State,
}

// The run before the first line: no layer is started.
#[tactic(auto, unfolding(crate::specs::Lines::new_receiving))]
pub fn new_run() -> Run
    ensures { result ≡ new_receiving }
{
    Run {
        awaits: Awaits::FirstLine,
        state: receiving_state::nothing(),
    }
}

impl LineWork for Run {
    ghost awaits = { λ run. run.awaits };

    ghost tells = { LineTold };

    ghost room = { receiving_room };

    ghost most = { receiving_answer_room };

    ghost ROOM = { 78337 };

    ghost MOST = { 47631 };

    // One more than the longest frame has digits.
    const ROOM: usize = 78337;

    const MOST: usize = 47631;

    fn awaits(&self) -> Awaits {
        self.awaits
    }

    ghost room_is = { room_is };

    ghost most_is = { answer_room_is };
}

impl FrameWork for Run {
    ghost begun = { λ run settings. receiving_frames (started_receiving_state settings) };

    ghost ended = { receiving_ended };

    ghost frame_tells = { FrameTold };

    #[tactic(auto, unfolding(crate::specs::Lines::receiving_frames))]
    fn begin(&mut self, settings: Settings) {
        self.awaits = Awaits::Frames;
        self.state = receiving_state::start(settings).unwrap_or(receiving_state::nothing());
    }

    #[tactic(auto, unfolding(crate::specs::Lines::receiving_ended))]
    fn end(&mut self) {
        self.awaits = Awaits::Nothing;
    }

    fn frame(&mut self, line: &[u8], out: &mut [u8]) -> usize {
        if out.len() < Self::MOST {
            return 0;
        }
        let settings = self.state.settings;
        let count = settings::carriers(settings);
        let mut carriers = carrier_area();
        if !text_lines::read_frame(settings, count, line, &mut carriers) {
            self.end();
            return text_lines::put_answer(255, b"", out);
        }
        taken(self, &carriers[0..count], out)
    }

    ghost number_fits = { omega arith };

    ghost first_tells = { first_tells };

    ghost frames_tell = { frames_tell };

    ghost nothing_tells = { nothing_tells };
}

// What a turn of the program's loop gave.
pub type Turned = text_lines::Turned<Run>;

// A turn of the program's loop: it goes on with the text, and where a line has ended answers it at the front of `out`.
// A line takes 78,337 bytes, one more than the longest frame has digits, and the longest answer 47,631; with other
// areas the answer is 5, and nothing is read or written.
pub fn turn(run: Run, reading: Reading, text: &[u8], line: &mut [u8], out: &mut [u8]) -> Turned
    ensures { ReceivingTurn run reading text.now line.old out.old result
        line.new out.new }
{
    text_lines::turn(run, reading, text, line, out)
}

// The frame of these carriers.
fn taken(run: &mut Run, carriers: &[u8], out: &mut [u8]) -> usize
    requires { small run.old.state.settings ≡ true }
    ensures { 47631 ≤ length out.old → SomeTold (Shown run.old.state carriers.now) out.old run.new result out.new }
{
    let count = 189 * settings::packets(run.state.settings);
    let mut slots = slot_area();
    let received = receiver::back(&mut run.state, carriers, &mut slots[0..count]);
    run.awaits = Awaits::Frames;
    let number = settings::number(received);
    let shown = 189 * received.unwrap_or(0);
    text_lines::put_answer(number, &slots[0..shown], out)
}

// Room for the carriers of the largest frame.
fn carrier_area() -> [u8; 39168]
    ensures { length result ≡ 39168 }
{
    [0; 39168]
}

// Room for its slots.
fn slot_area() -> [u8; 23814]
    ensures { result ≡ replicate 23814 0 }
{
    [0; 23814]
}
