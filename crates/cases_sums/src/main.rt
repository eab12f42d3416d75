// Runs the sums of document 01 that are run and not proved: eight bytes wrong, nine wrong with no codeword near; N =
// 0, 13, 14; packet P − 1 and P. Standard input has four received words of 203 bytes, dispersal taken off, and an old
// and a new packet. A line is printed for each sum; the expected ones are `tests/second`'s.
#![tactic(auto)]

ghost use Rattle.std.specs.Prelude.{◌≡◌, ◌<◌, length};

use std::io;
use std::io::{Read, Write};

// The checksum of bytes, as in the other cases.
fn checksum(bytes: &[u8]) -> u64 {
    let mut sum = 0u64;
    for byte in bytes {
        sum = (sum * 31 + u64::from(*byte) + 1) % 1000000007;
    }
    sum
}

// A number behind its name.
fn print_named(rt: &HostRuntime, name: &[u8], number: u64) -> io::Result<()> {
    rt.stdout().write_all(name)?;
    print!(rt; "{number}")
}

// The slot of a received word: how many bytes were corrected, and the packet.
fn print_word(rt: &HostRuntime, name: &[u8], word: &[u8]) -> io::Result<()> {
    let mut slot = [0u8; 189];
    let mut digits = [0u8; 376];
    // The lengths fit, so that it isn't refused.
    let _ = slot::give(word, &mut slot);
    hexadecimal::write_bytes(&slot[1..189], &mut digits);
    print_named(rt, name, u64::from(slot[0]))?;
    rt.stdout().write_all(b" ")?;
    rt.stdout().write_all(&digits)?;
    rt.stdout().write_all(b"\n")
}

// The number of a start with so many segments.
fn print_start(rt: &HostRuntime, name: &[u8], segments: u8) -> io::Result<()> {
    let mut area = [0u8; 4462];
    let layers = [2, 1, segments, 0, 0, 0, 0, 0, 0];
    let number = warintaya::warintaya_start(1, &layers, &mut area);
    print_named(rt, name, u64::from(number))?;
    rt.stdout().write_all(b"\n")
}

// A packet of the frame replaced: the number, and the checksums of the carriers and of the state.
fn print_replaced(
    rt: &HostRuntime,
    name: &[u8],
    place: usize,
    old: &[u8],
    new: &[u8],
    area: &mut [u8],
    carriers: &mut [u8],
) -> io::Result<()> {
    let number = warintaya::warintaya_replace(area, 0, carriers, place, old, new);
    let mut state = [0u8; 1487];
    lent_areas::copy_out(area, 1, &mut state);
    print_named(rt, name, u64::from(number))?;
    print_named(rt, b" ", checksum(carriers))?;
    print_named(rt, b" ", checksum(&state))?;
    rt.stdout().write_all(b"\n")
}

// Fills the frame's packets with one packet.
fn fill(packet: &[u8], packets: &mut [u8]) {
    for (k, byte) in packets.iter_mut().enumerate() {
        *byte = packet.get(k % 188).copied().unwrap_or(0);
    }
}

// A frame of twelve packets is coded, and its last packet replaced, and the one behind it, which there is not.
fn print_frame(rt: &HostRuntime, old: &[u8], new: &[u8]) -> io::Result<()> {
    let mut area = [0u8; 4462];
    let layers = [2, 1, 1, 0, 0, 0, 0, 0, 0];
    let mut packets = [0u8; 2256];
    let mut carriers = [0u8; 19584];
    fill(old, &mut packets);
    warintaya::warintaya_start(1, &layers, &mut area);
    warintaya::warintaya_code(&mut area, 0, &packets, &mut carriers);
    print_replaced(rt, b"packet 11: ", 11, old, new, &mut area, &mut carriers)?;
    print_replaced(rt, b"packet 12: ", 12, old, new, &mut area, &mut carriers)
}

// All the sums.
fn print_sums(rt: &HostRuntime, input: &[u8]) -> io::Result<()>
    requires { length input.now ≡ 1188 }
{
    print_word(rt, b"word 1: ", &input[0..203])?;
    print_word(rt, b"word 2: ", &input[203..406])?;
    print_word(rt, b"word 3: ", &input[406..609])?;
    print_word(rt, b"word 4: ", &input[609..812])?;
    print_start(rt, b"segments 0: ", 0)?;
    print_start(rt, b"segments 13: ", 13)?;
    print_start(rt, b"segments 14: ", 14)?;
    print_frame(rt, &input[812..1000], &input[1000..1188])
}

fn main(rt: HostRuntime) -> io::Result<()> {
    let mut input = [0u8; 1188];
    if rt.stdin().read_exact(&mut input).is_ok() {
        return print_sums(&rt, &input);
    }
    Ok(())
}
