// A run of the loop of the programs in areas that are lent: three times with the lines of `frames`, first with a line's
// area that doesn't fit, then with an answer's, and at last with both as they should be. Only then is anything read and
// printed: what `frames` prints.
#![tactic(auto)]

use settings_lines::NoRun;

// What stands in front of what is told where reading or writing fails.
const NAME: &str = "cases_loop";

fn main(rt: HostRuntime) {
    line_programs::run(&rt, NAME, NoRun, &mut [b'-'; 8], &mut [b'-'; 15]);
    line_programs::run(&rt, NAME, NoRun, &mut [b'-'; 9], &mut [b'-'; 14]);
    line_programs::run(&rt, NAME, NoRun, &mut [b'-'; 9], &mut [b'-'; 40]);
}
