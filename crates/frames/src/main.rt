// The program `frames` (document 01, "The settings program"): settings lines on standard input, a line of sizes for
// each on standard output. What a line gives is `settings_lines`, the loop is `line_programs`; here are the lengths of
// the areas.
#![tactic(auto)]

ghost use Rattle.std.specs.Prelude.{◌≡◌};
ghost use Rattle.settings.specs.Answers.{number_of};

use line_programs::Complaints;
use settings::Answer;
use settings_lines::NoRun;

// How long the area for a line is: one byte more than a line of settings has digits.
const LINE: usize = 9;

// How long the area for an answer is.
const ANSWER: usize = 15;

// What is told where reading or writing fails.
const COMPLAINTS: Complaints<'static> = Complaints {
    input: b"frames: standard input cannot be read\n",
    output: b"frames: standard output cannot be written\n",
};

// Runs the program. The areas are as long as the definitions say, so it is not refused, and no turn is.
// (Here, and not once for all programs, since the length of an area is a constant of its program.)
fn run(rt: &HostRuntime) -> Answer
    ensures { number_of result ≡ 0 }
{
    line_programs::run_in_own_areas::<NoRun, LINE, ANSWER>(rt, COMPLAINTS, NoRun)
}

fn main(rt: HostRuntime) {
    let _ = run(&rt);
}
