// A run of `settings_lines` over every legal setting and those around them: modes 0 to 4, v 0 to 8, rates 0 to 6,
// segments 0 to 15, in this order, the segments fastest. Each line is cut in two at another place. The expected
// lines are `tests/second`'s.
#![tactic(auto)]

ghost use Rattle.std.specs.Prelude.{◌<◌, ◌≡◌, length};

use std::io;
use std::io::Write;

// The settings of case n as one number of eight hexadecimal digits.
fn number(n: u64) -> u64
    requires { n < 5040 }
{
    let segments = n % 16;
    let rate = n / 16 % 7;
    let v = n / 112 % 9;
    let mode = n / 1008;
    ((mode * 256 + v) * 256 + rate) * 256 + segments
}

// The line of case n, with its line feed.
fn put_line(n: u64, text: &mut [u8])
    requires n_bound { n < 5040 }
    requires text_len { length text.old ≡ 9 }
{
    hexadecimal::write(number(n), &mut text[0..8]);
    text[8] = b'\n';
}

// Answers the first `count` bytes of a line.
fn answer(rt: &HostRuntime, line: &[u8], count: usize, out: &mut [u8]) -> io::Result<()> {
    let held = numbers::least(count, line.len());
    // There is room for the answer, so that it isn't refused.
    let _ = settings_lines::answer_line(&line[0..held], out);
    rt.stdout().write_all(out)
}

// Case n, cut in two.
fn case(
    rt: &HostRuntime,
    n: u64,
    text: &mut [u8],
    line: &mut [u8],
    out: &mut [u8],
) -> io::Result<()>
    requires n_bound { n < 5040 }
    requires text_len { length text.old ≡ 9 }
{
    put_line(n, text);
    let cut = (n % 10) as usize;
    let first = text_lines::gather(line, 0, &text[0..cut]);
    let whole = text_lines::gather(line, first.held, &text[cut..]);
    answer(rt, line, whole.held, out)
}

fn main(rt: HostRuntime) -> io::Result<()> {
    let mut text = [0u8; 9];
    let mut line = [0u8; 9];
    let mut out = [0u8; 15];
    for n in 0..5040 {
        case(&rt, n, &mut text, &mut line, &mut out)?;
    }
    Ok(())
}
