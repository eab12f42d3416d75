// Runs the coding of whole frames by its door for C. Each call is read from standard input in 1,489 bytes: a coding
// state (1,487), a fault (0 none, 1 the packets lack their last byte, 2 the carriers lack one, 3 the last packet begins
// with 0x48), and a seed for the packets. The state is layer A, B or C of a record, by the seed, and the other two are
// unused. Two frames are coded one after the other; after each it prints the number of the answer, the layer's state
// (1,487), and a checksum of the carriers (8). The expected bytes are `tests/second`'s, of that layer alone.
#![tactic(auto)]

ghost use Rattle.std.specs.Prelude.{◌≡◌, ◌<◌, length};

use std::io;
use std::io::{Read, Write};

// Room for the packets and the carriers of two segments in mode 1. A larger layer is passed over.
const MOST_PACKETS: usize = 126;

const PACKET_BYTES: usize = 188;

// Fills the area with bytes that look random and are the same for the same start.
fn fill(start: u64, area: &mut [u8]) {
    let mut x = start % 65537;
    for byte in area {
        x = (x * 75 + 74) % 65537;
        *byte = (x % 256) as u8;
    }
}

// Begins each packet with the sync byte.
fn begin_packets(packets: &mut [u8]) {
    for packet in packets.chunks_mut(PACKET_BYTES) {
        packet[0] = 0x47;
    }
}

// By the fault 3 the last packet begins with another byte.
fn begin_last(fault: u8, packets: &mut [u8]) {
    let end = packets.len();
    if fault == 3 && PACKET_BYTES <= end {
        packets[end - PACKET_BYTES] = 0x48;
    }
}

// The checksum of the carriers.
fn checksum(carriers: &[u8]) -> u64 {
    let mut sum = 0u64;
    for byte in carriers {
        sum = (sum * 31 + u64::from(*byte) + 1) % 1000000007;
    }
    sum
}

// The number in eight bytes, the highest first.
fn print_number(rt: &HostRuntime, number: u64) -> io::Result<()> {
    rt.stdout().write_all(&number.to_be_bytes())
}

// Where the layer's state begins in a record's area.
fn place(layer: u8) -> usize {
    1 + 1487 * (layer as usize)
}

// Codes a frame of packets, and prints the answer, the layer's state behind it, and the carriers' checksum. The
// carriers are filled before, so that it shows whether a refused call leaves them alone.
fn print_frame(
    rt: &HostRuntime,
    area: &mut [u8],
    layer: u8,
    fault: u8,
    start: u64,
    packets: &mut [u8],
    carriers: &mut [u8],
) -> io::Result<()> {
    fill(start, carriers);
    fill(start, packets);
    begin_packets(packets);
    begin_last(fault, packets);
    let number = [warintaya::warintaya_code(area, layer, packets, carriers)];
    let mut state = [0u8; 1487];
    lent_areas::copy_out(area, place(layer), &mut state);
    rt.stdout().write_all(&number)?;
    rt.stdout().write_all(&state)?;
    print_number(rt, checksum(carriers))
}

// Two frames one after the other, of different packets, in a record whose other layers are unused.
fn print_frames(
    rt: &HostRuntime,
    state: &[u8],
    fault: u8,
    seed: u8,
    packets: &mut [u8],
    carriers: &mut [u8],
) -> io::Result<()>
    requires { 0 < length state.now }
{
    let layer = seed % 3;
    let mut area = [0u8; 4462];
    area[0] = state[0];
    lent_areas::put_in(state, place(layer), &mut area);
    let first = u64::from(seed) + 1;
    print_frame(rt, &mut area, layer, fault, first, packets, carriers)?;
    print_frame(rt, &mut area, layer, fault, first + 256, packets, carriers)
}

// The length, or one less.
fn lacking(length: usize, one: bool) -> usize {
    length.saturating_sub(usize::from(one))
}

// The frames of a call, where they fit into the areas.
fn answer_within(
    rt: &HostRuntime,
    call: &[u8],
    packets: &mut [u8],
    carriers: &mut [u8],
) -> io::Result<()>
    requires { length call.now ≡ 1489 }
{
    let fault = call[1487];
    let seed = call[1488];
    let count = warintaya::warintaya_packets(call[0], call[1], call[2], call[3]);
    if MOST_PACKETS < count {
        return Ok(());
    }
    let bytes = lacking(count * PACKET_BYTES, fault == 1);
    let carrier_count = warintaya::warintaya_carriers(call[0], call[1], call[2], call[3]);
    let values = lacking(carrier_count, fault == 2);
    if packets.len() < bytes {
        return Ok(());
    }
    if carriers.len() < values {
        return Ok(());
    }
    print_frames(
        rt,
        &call[0..1487],
        fault,
        seed,
        &mut packets[0..bytes],
        &mut carriers[0..values],
    )
}

// The frames of a call.
fn answer(rt: &HostRuntime, call: &[u8]) -> io::Result<()>
    requires { length call.now ≡ 1489 }
{
    let mut packets = [0u8; 23688];
    let mut carriers = [0u8; 39168];
    answer_within(rt, call, &mut packets, &mut carriers)
}

// A proved loop has to end, and nothing says that the input does: the calls are counted, as far as a number goes.
fn main(rt: HostRuntime) -> io::Result<()> {
    let mut call = [0u8; 1489];
    for _ in 0..u64::MAX {
        if rt.stdin().read_exact(&mut call).is_err() {
            break;
        }
        answer(&rt, &call)?;
    }
    Ok(())
}
