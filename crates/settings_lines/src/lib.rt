// The work of the program `frames` (document 01, "The settings program"): a line of settings in, a line of sizes out.
#![tactic(auto)]

ghost use Rattle.std.specs.Prelude.{◌≡◌};
ghost use Rattle.settings.specs.Answers.{number_of};
ghost use Rattle.settings_lines.specs.Lines.{printed, answer_to, sizes_number, sizes_out};
ghost use Rattle.settings_lines.specs.Turns.{FramesTells, frames_room, frames_answer_room, FramesTurn};
ghost use Rattle.settings_lines.specs.Laws.{room_is, answer_room_is};
ghost use Rattle.text_lines.specs.declared.Awaits.TheVariants.{FirstLine};

use settings::{Answer, Refusal};
use text_lines::{Awaits, LineAnswer, LineWork, Reading};

// The three numbers of an answer. The first is a number that is printed, and no refusal alone: a line of another form
// has 255.
#[derive(Clone, Copy)]
struct Numbers {
    refusal: u8,
    packets: usize,
    carriers: usize,
}

// The numbers of the answer to a line.
fn numbers_for(line: &[u8]) -> Numbers
    ensures { printed result.refusal result.packets result.carriers ≡ answer_to line.now }
{
    match text_lines::read_settings(line) {
        Some(settings) => Numbers {
            refusal: settings::number(settings::legal(settings)),
            packets: settings::packets(settings),
            carriers: settings::carriers(settings),
        },
        None => Numbers {
            refusal: 255,
            packets: 0,
            carriers: 0,
        },
    }
}

// Answers a line, at the front of `out`, which has to have room for fifteen bytes; without it the answer is 5, and
// nothing is written. The numbers of packets and of carriers are told as two and as four bytes.
pub fn answer_line(line: &[u8], out: &mut [u8]) -> Answer
    ensures { (number_of result ≡ sizes_number out.old)
        × (out.new ≡ sizes_out line.now out.old) }
{
    let numbers = numbers_for(line);
    let packets = numbers.packets;
    let carriers = numbers.carriers;
    let bytes = [
        (packets / 256 % 256) as u8,
        (packets % 256) as u8,
        (carriers / 16777216 % 256) as u8,
        (carriers / 65536 % 256) as u8,
        (carriers / 256 % 256) as u8,
        (carriers % 256) as u8,
    ];
    if text_lines::put_answer(numbers.refusal, &bytes, out) == 0 {
        return Err(Refusal::WrongLength);
    }
    Ok(())
}

// Nothing goes from line to line.
#[derive(Clone, Copy)]
pub struct NoRun;

impl LineWork for NoRun {
    ghost awaits = { λ run. FirstLine };

    ghost tells = { FramesTells };

    ghost room = { frames_room };

    ghost most = { frames_answer_room };

    ghost ROOM = { 9 };

    ghost MOST = { 15 };

    // One more than a line of settings has.
    const ROOM: usize = 9;

    const MOST: usize = 15;

    // Each line is one of settings, up to the end of the text.
    fn awaits(&self) -> Awaits {
        Awaits::FirstLine
    }

    ghost room_is = { room_is };

    ghost most_is = { answer_room_is };
}

impl LineAnswer for NoRun {
    fn answer(&mut self, line: &[u8], out: &mut [u8]) -> usize {
        if out.len() < Self::MOST {
            return 0;
        }
        // There is room, so it isn't refused.
        let _ = answer_line(line, out);
        Self::MOST
    }
}

// What a turn of the program's loop gave.
pub type Turned = text_lines::Turned<NoRun>;

// A turn of the program's loop: it goes on with the text, and where a line has ended answers it at the front of `out`.
// A line takes nine bytes, one more than a line of settings has, and an answer fifteen; with other areas the answer is
// 5, and nothing is read or written.
pub fn turn(reading: Reading, text: &[u8], line: &mut [u8], out: &mut [u8]) -> Turned
    ensures { FramesTurn reading text.now line.old out.old result
        line.new out.new }
{
    text_lines::turn(NoRun, reading, text, line, out)
}
