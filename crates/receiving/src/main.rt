// The program `receiving` (document 01, after "The settings program"): a line of settings and then frames of carriers
// on standard input, a line a frame; the slots given on standard output. What a line gives is `receiving_lines`, the
// loop is `line_programs`; here are the lengths of the areas.
#![tactic(auto)]

ghost use Rattle.std.specs.Prelude.{◌≡◌};
ghost use Rattle.settings.specs.Answers.{number_of};

use line_programs::Complaints;
use receiving_lines::Run;
use settings::Answer;

// How long the area for a line is: one byte more than the longest frame has digits.
const LINE: usize = 78337;

// How long the area for an answer is.
const ANSWER: usize = 47631;

// What is told where reading or writing fails.
const COMPLAINTS: Complaints<'static> = Complaints {
    input: b"receiving: standard input cannot be read\n",
    output: b"receiving: standard output cannot be written\n",
};

// Runs the program. The areas are as long as the definitions say, so it is not refused, and no turn is.
// (Here, and not once for all programs, since the length of an area is a constant of its program.)
fn run(rt: &HostRuntime) -> Answer
    ensures { number_of result ≡ 0 }
{
    line_programs::run_in_own_areas::<Run, LINE, ANSWER>(rt, COMPLAINTS, receiving_lines::new_run())
}

fn main(rt: HostRuntime) {
    let _ = run(&rt);
}
