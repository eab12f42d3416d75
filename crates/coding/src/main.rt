// The program `coding` (document 01, after "The settings program"): a line of settings and then frames of packets on
// standard input, a line a frame; the frames' carriers on standard output. What a line gives is `coding_lines`, the
// loop is `line_programs`; here are the lengths of the areas.
#![tactic(auto)]

ghost use Rattle.std.specs.Prelude.{◌≡◌};
ghost use Rattle.settings.specs.Answers.{number_of};

use coding_lines::Run;
use line_programs::Complaints;
use settings::Answer;

// How long the area for a line is: one byte more than the longest frame has digits.
const LINE: usize = 47377;

// How long the area for an answer is.
const ANSWER: usize = 78339;

// What is told where reading or writing fails.
const COMPLAINTS: Complaints<'static> = Complaints {
    input: b"coding: standard input cannot be read\n",
    output: b"coding: standard output cannot be written\n",
};

// Runs the program. The areas are as long as the definitions say, so it is not refused, and no turn is.
// (Here, and not once for all programs, since the length of an area is a constant of its program.)
fn run(rt: &HostRuntime) -> Answer
    ensures { number_of result ≡ 0 }
{
    line_programs::run_in_own_areas::<Run, LINE, ANSWER>(rt, COMPLAINTS, coding_lines::new_run())
}

fn main(rt: HostRuntime) {
    let _ = run(&rt);
}
