// A turn of a line program's loop, once for every program: what differs is what goes from line to line, and what a line
// is answered (`LineWork`, `LineAnswer`).

ghost use Rattle.std.specs.Prelude.{◌≡◌, ◌<◌, ◌≤◌, ℕ, List, [], length};
ghost use Rattle.text_lines.specs.declared.Awaits.{Awaits as AwaitsThat};
ghost use Rattle.text_lines.specs.Awaiting.{over};
ghost use Rattle.text_lines.specs.Answer.{Told, SomeTold};
ghost use Rattle.text_lines.specs.Turned.{TurnGiven};

use crate::{Awaits, Reading};
use settings::{Answer, Refusal};

// What goes from line to line of a program, and the room that its lines and answers take.
pub trait LineWork: Copy {
    // What is awaited; and the text that a line prints, and the run after it.
    ghost awaits: { Self → AwaitsThat };

    ghost tells: { Self → List ℕ → List ℕ → Self → Type 0 };

    // The room for a line, and for the longest answer, as the definitions of the program have them.
    ghost room: { ℕ };

    ghost most: { ℕ };

    ghost ROOM: { ℕ };

    ghost MOST: { ℕ };

    // How long the area of a line is: one byte more than the longest line that is answered.
    const ROOM: usize;

    // How long the longest answer is.
    const MOST: usize;

    // What is awaited.
    fn awaits(&self) -> Awaits
        ensures { result ≡ awaits self.now };

    ghost room_is: { ROOM ≡ room };

    ghost most_is: { MOST ≡ most };
}

// What a program does with a line.
pub trait LineAnswer: LineWork {
    // Answers a line, at the front of `out`, if that has room for the longest answer. It gives the answer's length.
    // Without that room nothing is told: the length is 0, and the run and `out` stay as they were.
    fn answer(&mut self, line: &[u8], out: &mut [u8]) -> usize
        ensures answered { Self.MOST ≤ length out.old
            → SomeTold (Self.tells self.old line.now) out.old self.new result out.new }
        ensures without_room { length out.old < Self.MOST → Told [] self.old out.old self.new result out.new };
}

// What a turn gave: whether the areas were the program's, what goes on to the next line, how far the text is read, the
// length of what is to be printed, and whether the loop goes on. (`Turn` says each of the five in every case.)
#[derive(Clone, Copy)]
pub struct Turned<R> {
    pub answer: Answer,
    pub run: R,
    pub reading: Reading,
    pub written: usize,
    pub more: bool,
}

// A turn of the program's loop: it goes on with the text, and where a line has ended answers it at the front of `out`.
// With other areas than the program's the answer is 5, and nothing is read or written.
pub fn turn<R: LineAnswer>(
    run: R,
    reading: Reading,
    text: &[u8],
    line: &mut [u8],
    out: &mut [u8],
) -> Turned<R>
    ensures { TurnGiven (λ run. over (R.awaits run)) R.tells R.room R.most run reading text.now line.old out.old
        result.answer result.run result.reading result.written result.more line.new out.new }
{
    if !crate::areas_fit(R::ROOM, R::MOST, line, out) {
        return Turned {
            answer: Err(Refusal::WrongLength),
            run,
            reading,
            written: 0,
            more: false,
        };
    }
    let step = crate::go_on(reading, text, line);
    let mut next = run;
    let mut written = 0;
    if step.ended {
        written = next.answer(&line[0..step.count], out);
    }
    Turned {
        answer: Ok(()),
        run: next,
        reading: step.reading,
        written,
        more: crate::goes_on(step.more, next.awaits()),
    }
}
