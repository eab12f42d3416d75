// Going back, the bits of a word: what is received of each message bit of a stretch of carriers (rules 6 and 5 of
// document 01 read backwards), the bits of a frame's last word that are held until the next frame, and a message as
// bytes. A received pair is 3 x + y, each digit the coded bit received, or 2 where there is none.
#![tactic(auto)]

ghost use Rattle.std.specs.Prelude.{◌≡◌, ◌<◌, ◌+◌, ◌-◌, ◌*◌, ◌≤◌, ◌/◌, ◌⊎◌, get_or, length};
ghost use Rattle.rules.specs.Back.{message_byte, message_bytes, register_of, received_digit, held_count, held_after};
ghost use Rattle.lists.specs.Tab.{tab};
ghost use Rattle.settings.proofs.LegalSettings.{LegalBits};
ghost use Rattle.settings.specs.Patterns.{pattern_length};
ghost use Rattle.rules.specs.Puncturing.{pattern_at};
ghost use Rattle.received_bits.specs.Received.{pairs_of, held_pairs_of};
ghost use Rattle.received_bits.specs.Steps.{plane_at, Digits, pair_in_planes, kept_place, digit_place, kind_of};
ghost use Rattle.settings.specs.Legal.{starting};
ghost use Rattle.settings.specs.Sizes.{C};
ghost use Rattle.received_bits.specs.Held.{held_of, held_from};

use settings::Settings;

mod held;

// The message's bytes.
pub fn bytes_of(bits: &[u8; 1632]) -> [u8; 204]
    ensures { result ≡ message_bytes bits.now }
{
    let mut out = [0u8; 204];
    for j in 0..204 {
        out[j] = byte_of(bits, j);
    }
    out
}

// Byte j of a message.
fn byte_of(bits: &[u8; 1632], j: usize) -> u8
    requires { j < 204 }
    ensures { result ≡ message_byte bits.now j }
{
    let i = 8 * j;
    bits[i] % 2 * 128
        + bits[i + 1] % 2 * 64
        + bits[i + 2] % 2 * 32
        + bits[i + 3] % 2 * 16
        + bits[i + 4] % 2 * 8
        + bits[i + 5] % 2 * 4
        + bits[i + 6] % 2 * 2
        + bits[i + 7] % 2
}

// The register behind the message: its last six bits.
pub fn register_of(bits: &[u8; 1632]) -> u8
    ensures { (result ≡ register_of bits.now) × (result < 64) }
{
    bits[1631] % 2 * 32
        + bits[1630] % 2 * 16
        + bits[1629] % 2 * 8
        + bits[1628] % 2 * 4
        + bits[1627] % 2 * 2
        + bits[1626] % 2
}

// The received pairs of the blocks of message bits from the first row of a stretch of carriers on. Each v has its own
// call, so that the loop over a line is compiled for it.
pub fn pairs(v: u8, rate: u8, carriers: &[u8]) -> [u8; 1680]
    ensures { result ≡ pairs_of v rate carriers.now }
{
    if settings::pattern_length(rate) == 0 {
        return [8; 1680];
    }
    let rate = Rate { number: rate };
    if v == 6 {
        let planes = planes_of(6, carriers);
        return pairs_by(6, rate, &planes);
    }
    if v == 4 {
        let planes = planes_of(4, carriers);
        return pairs_by(4, rate, &planes);
    }
    if v == 2 {
        let planes = planes_of(2, carriers);
        return pairs_by(2, rate, &planes);
    }
    [8; 1680]
}

// The received pairs of the last word of a frame, which begins `lead` kept bits after its block: `count` of its bits
// are held, and the others come out of the lines with the carriers of the next frame.
pub fn held_pairs(
    v: u8,
    rate: u8,
    lead: usize,
    count: usize,
    held: &[u8; 3072],
    lines: &[u8; 360],
    carriers: &[u8],
) -> [u8; 1680]
    ensures { result ≡ held_pairs_of v rate lead count held.now lines.now
        carriers.now }
{
    if settings::pattern_length(rate) == 0 {
        return [8; 1680];
    }
    let rate = Rate { number: rate };
    if v == 6 {
        return held::pairs_held(6, rate, lead, count, held, lines, carriers);
    }
    if v == 4 {
        return held::pairs_held(4, rate, lead, count, held, lines, carriers);
    }
    if v == 2 {
        return held::pairs_held(2, rate, lead, count, held, lines, carriers);
    }
    [8; 1680]
}

// The digits line by line.
fn planes_of(v: usize, carriers: &[u8]) -> [u8; 5040]
    requires { LegalBits v }
    ensures { result ≡ tab 5040 (plane_at v (received_digit v carriers.now)) }
{
    let rows = 3360 / v;
    let delay = 120 / (v - 1);
    let mut planes = [2u8; 5040];
    for l in 0..v {
        let first = l * delay;
        let count = count_from(first, rows, carriers.len());
        for k in 0..count {
            planes[rows * l + k] = (carriers[first + k] >> (v - 1 - l)) % 2;
        }
    }
    planes
}

// How many of so many rows the carriers from the first on have.
fn count_from(first: usize, rows: usize, carriers: usize) -> usize
    ensures { (result ≤ rows) × (result ≤ carriers - first) × ((result ≡ rows) ⊎ (result ≡ carriers - first)) }
{
    if carriers < first {
        return 0;
    }
    if carriers - first < rows {
        return carriers - first;
    }
    rows
}

// The pairs from the planes.
fn pairs_by(v: usize, rate: Rate, planes: &[u8; 5040]) -> [u8; 1680]
    requires { LegalBits v × Digits planes.now }
    ensures { result ≡ tab 1680 (pair_in_planes v rate.number planes.now) }
{
    let size = puncturing::block_length(rate.number);
    let blocks = 1680 / size;
    let each = 24 / v;
    let places = places_of(v, rate);
    let mut out = [8u8; 1680];
    for s in 0..blocks {
        for i in 0..size {
            out[size * s + i] = pair(planes, places[i] + each * s, places[24 + i] + each * s);
        }
    }
    out
}

// The pair of the two digits at these places.
fn pair(planes: &[u8; 5040], x: usize, y: usize) -> u8
    requires { (x < 5040) × (y < 5040) × Digits planes.now }
    ensures { result ≡ 3 * get_or planes.now x 0 + get_or planes.now y 0 }
{
    3 * planes[x] + planes[y]
}

// Where X and, from 24 on, Y of each message bit of a block stand in the planes.
fn places_of(v: usize, rate: Rate) -> [usize; 48]
    requires { LegalBits v }
    ensures { result ≡ tab 48 (digit_place v rate.number) }
{
    let mut places = [0usize; 48];
    for i in 0..48 {
        places[i] = digit_place(v, rate, i);
    }
    places
}

// Where X, or from 24 on Y, of a message bit of a block stands.
fn digit_place(v: usize, rate: Rate, i: usize) -> usize
    requires { LegalBits v × (i < 48) }
    ensures { result ≡ digit_place v rate.number i }
{
    let n = i % 24;
    let kind = rate.kind_of(n);
    let kept = settings::kept_below(rate.number, n as u32);
    if i < 24 {
        if kind == 2 {
            return 3360;
        }
        return kept_place(v, kept);
    }
    if kind == 1 {
        return 3360;
    }
    if kind == 2 {
        return kept_place(v, kept);
    }
    kept_place(v, kept + 1)
}

// Where a kept bit of a block stands.
fn kept_place(v: usize, kept: usize) -> usize
    requires { LegalBits v × (kept < 64) }
    ensures { result ≡ kept_place v kept }
{
    kept % v * (3360 / v) + kept / v
}

// The places of a rate's pattern that keep X alone, the first lowest.
const X_ALONE: [usize; 6] = [0, 0, 0, 0b100, 0b10100, 0b1010000];

// A rate, 1 to 5.
#[derive(Clone, Copy)]
struct Rate {
    number: u8,
    ghost legal: { 0 < pattern_length number },
}

impl Rate {
    // What the pattern keeps of message bit n: 0 for both, 1 for X and 2 for Y.
    fn kind_of(self, n: usize) -> usize
        ensures { result ≡ kind_of (pattern_at self.number n) }
    {
        let place = n % settings::pattern_length(self.number);
        if place == 0 {
            return 0;
        }
        2 - (X_ALONE[usize::from(self.number)] >> place) % 2
    }
}

// How many bits of a frame's last word are held after the frame, or 0 where the settings are not legal.
pub fn held_count(settings: Settings) -> usize
    ensures { result ≡ held_of settings }
{
    if settings::number(settings::legal(settings)) != 0 {
        return 0;
    }
    legal_count(settings)
}

// The bits held after a frame, or zeros where the settings are not legal or the carriers not a frame.
pub fn held_after(settings: Settings, carriers: &[u8]) -> [u8; 3072]
    ensures { result ≡ held_from settings carriers.now }
{
    if settings::number(settings::legal(settings)) != 0 {
        return [0; 3072];
    }
    if carriers.len() != settings::carriers(settings) {
        return [0; 3072];
    }
    bits_after(settings, carriers)
}

// How many bits of a frame's last word are held after the frame, for legal settings.
fn legal_count(settings: Settings) -> usize
    requires { starting settings ≡ 0 }
    ensures { (result ≡ held_count settings) × (result ≤ 3072) }
{
    let packets = settings::packets(settings);
    let last = settings::kept_below(settings.rate, (1632 * (packets - 1)) as u32);
    let bits = settings.v as usize;
    settings::carriers(settings) * bits - last - 120 * bits
}

// The bits held after a frame of legal settings.
fn bits_after(settings: Settings, carriers: &[u8]) -> [u8; 3072]
    requires { (starting settings ≡ 0) × (length carriers.now ≡ C settings) }
    ensures { result ≡ held_after settings carriers.now }
{
    let packets = settings::packets(settings);
    let first = settings::kept_below(settings.rate, (1632 * (packets - 1)) as u32);
    let count = legal_count(settings);
    let mut held = [0u8; 3072];
    for i in 0..count {
        held[i] = kept_bit(settings.v, carriers, first + i);
    }
    held
}

// Kept bit c of the frame.
fn kept_bit(v: u8, carriers: &[u8], c: usize) -> u8
    requires { LegalBits v × (c / v + 120 < length carriers.now) }
    ensures { result ≡ received_digit v carriers.now c }
{
    let bits = v as usize;
    let line = c % bits;
    (carriers[c / bits + line * (120 / (bits - 1))] >> (bits - 1 - line)) % 2
}
