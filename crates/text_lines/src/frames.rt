// A program whose first line is one of settings, and each line after it a frame: `coding` and `receiving`.

ghost use Rattle.std.specs.Prelude.{◌≡◌, ◌<◌, ◌≤◌, ℕ, List, [], length};
ghost use Rattle.settings.specs.declared.Settings.{Settings as SettingsThat};
ghost use Rattle.text_lines.specs.declared.Awaits.TheVariants.{FirstLine, Frames, Nothing};
ghost use Rattle.text_lines.specs.First.{settings_begun, first_text, begun_run};
ghost use Rattle.text_lines.specs.Answer.{answer_text, Told, SomeTold};

use crate::{Awaits, LineAnswer, LineWork};
use settings::Settings;

// What such a program does with a layer and with a frame.
pub trait FrameWork: LineWork {
    // What goes on where frames of a layer follow, and where the run ends.
    ghost begun: { Self → SettingsThat → Self };

    ghost ended: { Self → Self };

    // The text that a line after the first prints, and the run after it.
    ghost frame_tells: { Self → List ℕ → List ℕ → Self → Type 0 };

    // Frames of a layer are awaited, which starts with these settings.
    fn begin(&mut self, settings: Settings)
        ensures { self.new ≡ begun self.old settings };

    // Nothing more is awaited.
    fn end(&mut self)
        ensures { self.new ≡ ended self.old };

    // Answers a line after the first, as `LineAnswer` says, without room for the longest answer too.
    fn frame(&mut self, line: &[u8], out: &mut [u8]) -> usize
        ensures answered { Self.MOST ≤ length out.old
            → SomeTold (frame_tells self.old line.now) out.old self.new result out.new }
        ensures without_room { length out.old < Self.MOST → Told [] self.old out.old self.new result out.new };

    // A number in two digits and a line feed are no longer than the longest answer.
    ghost number_fits: { 3 ≤ Self.MOST };

    // What a line tells, by what is awaited.
    ghost first_tells: { (run : Self) (line : List ℕ) → Self.awaits run ≡ FirstLine
        → Self.tells run line (first_text line) (begun_run line (begun run (settings_begun line)) (ended run)) };

    ghost frames_tell: { (run : Self) (line text : List ℕ) (next : Self) → Self.awaits run ≡ Frames
        → frame_tells run line text next → Self.tells run line text next };

    ghost nothing_tells: { (run : Self) (line : List ℕ) → Self.awaits run ≡ Nothing → Self.tells run line [] run };
}

impl<R: FrameWork> LineAnswer for R {
    // By what is awaited, where there is room.
    fn answer(&mut self, line: &[u8], out: &mut [u8]) -> usize {
        if out.len() < R::MOST {
            return 0;
        }
        match self.awaits() {
            Awaits::FirstLine => first(self, line, out),
            Awaits::Frames => self.frame(line, out),
            Awaits::Nothing => 0,
        }
    }
}

// The line of settings.
fn first<R: FrameWork>(run: &mut R, line: &[u8], out: &mut [u8]) -> usize
    ensures { 3 ≤ length out.old → Told (first_text line.now)
        (begun_run line.now (R.begun run.old (settings_begun line.now)) (R.ended run.old))
        out.old run.new result out.new }
{
    let begun = crate::begin(line);
    if begun.number != 0 {
        return stop(run, begun.number, out);
    }
    run.begin(begun.settings);
    0
}

// The number that ends the run.
fn stop<R: FrameWork>(run: &mut R, number: u8, out: &mut [u8]) -> usize
    ensures { 3 ≤ length out.old → Told (answer_text number []) (R.ended run.old) out.old run.new result out.new }
{
    run.end();
    crate::put_answer(number, b"", out)
}
