// Runs the best message. Each call is read from standard input in 1,738 bytes: how many pairs (two bytes), the
// register, how long the message (two) and the table (three) are that are lent, and 1,730 pairs, of which the first
// so many are given. For each it prints 1 or 0, a number for all bytes of the lent table (two bytes), and the 1,730
// bytes of the message's area. Before a call the areas are EE. The expected bytes are `tests/second`'s.
#![tactic(auto)]

ghost use Rattle.std.specs.Prelude.{◌≡◌, ◌<◌, length};

use std::io;
use std::io::{Read, Write};

// A number for all bytes.
fn digest(bytes: &[u8]) -> usize
    ensures { result < 65521 }
{
    let mut sum: usize = 0;
    for byte in bytes {
        sum = (sum * 257 + usize::from(*byte) + 1) % 65521;
    }
    sum
}

// One call, in areas of its own.
fn answer(rt: &HostRuntime, call: &[u8]) -> io::Result<()>
    requires { length call.now ≡ 1738 }
{
    let mut table = [0xEEu8; 110784];
    let mut message = [0xEEu8; 1730];
    answer_in(rt, call, &mut table, &mut message)
}

// One call, in the areas that are lent. One that asks for more than there is prints nothing.
fn answer_in(rt: &HostRuntime, call: &[u8], table: &mut [u8], message: &mut [u8]) -> io::Result<()>
    requires { length call.now ≡ 1738 }
{
    let count = usize::from(call[0]) * 256 + usize::from(call[1]);
    let bits = usize::from(call[3]) * 256 + usize::from(call[4]);
    let room = (usize::from(call[5]) * 256 + usize::from(call[6])) * 256 + usize::from(call[7]);
    if count > 1730 {
        return Ok(());
    }
    if bits > message.len() {
        return Ok(());
    }
    if room > table.len() {
        return Ok(());
    }
    let end = 8 + count;
    run(
        rt,
        &call[8..end],
        call[2],
        &mut table[..room],
        &mut message[..bits],
    )?;
    rt.stdout().write_all(message)
}

// The best message; the answer and the table's number are printed.
fn run(
    rt: &HostRuntime,
    pairs: &[u8],
    register: u8,
    table: &mut [u8],
    message: &mut [u8],
) -> io::Result<()> {
    let told = best_message::best_message(pairs, register, table, message);
    let number = digest(table);
    let first = [u8::from(told), (number / 256) as u8, (number % 256) as u8];
    rt.stdout().write_all(&first)
}

// A proved loop has to end, and nothing says that the input does: the calls are counted, as far as a number goes.
fn main(rt: HostRuntime) -> io::Result<()> {
    let mut call = [0u8; 1738];
    for _ in 0..u64::MAX {
        if rt.stdin().read_exact(&mut call).is_err() {
            break;
        }
        answer(&rt, &call)?;
    }
    Ok(())
}
