// Runs the entry on one word, dispersing and byte-interleaving it. Each call is read from standard input in 1,693
// bytes: mode, v, rate, segments, the place in two bytes, the 1,122 bytes, the register, the 360 entries, and the
// word. For each it prints the number that the entry answers and the word after it (205 bytes), and the memory after
// it (1,122). The expected bytes are `tests/second`'s.
#![tactic(auto)]

ghost use Rattle.std.specs.Prelude.{◌≡◌, ◌<◌, length};

use coding_state::State;
use settings::Settings;
use std::io;
use std::io::{Read, Write};

// The state of a call.
fn state_of(call: &[u8]) -> State
    requires { length call.now ≡ 1693 }
{
    let mut memory = [0u8; 1122];
    let mut lines = [0u8; 360];
    memory.copy_from_slice(&call[6..1128]);
    lines.copy_from_slice(&call[1129..1489]);
    let settings = Settings {
        mode: call[0],
        v: call[1],
        rate: call[2],
        segments: call[3],
    };
    State {
        settings,
        memory,
        register: call[1128],
        lines,
    }
}

// The number of an answer, and the word behind it.
fn print(rt: &HostRuntime, number: u8, word: &[u8]) -> io::Result<()> {
    let first = [number];
    rt.stdout().write_all(&first)?;
    rt.stdout().write_all(word)
}

// The word dispersed and interleaved, and the memory.
fn print_after(rt: &HostRuntime, call: &[u8]) -> io::Result<()>
    requires { length call.now ≡ 1693 }
{
    let mut out = [0u8; 204];
    let mut state = state_of(call);
    let place = usize::from(call[4]) * 256 + usize::from(call[5]);
    let answer = single_words::disperse_interleave(&mut state, place, &call[1489..1693], &mut out);
    print(rt, settings::number(answer), &out)?;
    rt.stdout().write_all(&state.memory)
}

// A proved loop has to end, and nothing says that the input does: the calls are counted, as far as a number goes.
fn main(rt: HostRuntime) -> io::Result<()> {
    let mut call = [0u8; 1693];
    for _ in 0..u64::MAX {
        if rt.stdin().read_exact(&mut call).is_err() {
            break;
        }
        print_after(&rt, &call)?;
    }
    Ok(())
}
