// The last word of a frame: some of its bits are held, and the others come out of the lines with the next frame.
ghost use Rattle.std.specs.Prelude.{◌≡◌, cond, true, ◌+◌, ◌*◌, ◌<◌, replicate};
ghost use Rattle.lists.specs.Tab.{piece_start, tab};
ghost use Rattle.settings.proofs.LegalSettings.{LegalBits};
ghost use Rattle.rules.specs.Bits.{wait_of};
ghost use Rattle.rules.specs.Back.{line_digit, shown_by};
ghost use Rattle.received_bits.specs.Received.{pair_in_blocks, held_fits, last_digit};
ghost use Rattle.received_bits.specs.Steps.{plane_at};

use super::{Rate, pairs_by};

// The pairs of the word, v and the rate being legal.
pub(super) fn pairs_held(
    v: usize,
    rate: Rate,
    lead: usize,
    count: usize,
    held: &[u8; 3072],
    lines: &[u8; 360],
    carriers: &[u8],
) -> [u8; 1680]
    requires { LegalBits v }
    ensures { result ≡ cond (held_fits v lead count)
        (tab 1680 (pair_in_blocks rate.number
        (last_digit v lead count held.now lines.now carriers.now)))
        (replicate 1680 8) }
{
    if fits(v, lead, count) {
        let planes = planes_held(v, lead, count, held, lines, carriers);
        return pairs_by(v, rate, &planes);
    }
    [8; 1680]
}

// Whether what is held ends with a row, and there is room for the word.
fn fits(v: usize, lead: usize, count: usize) -> bool
    requires { LegalBits v }
    ensures { result ≡ held_fits v lead count }
{
    if count > 3072 {
        return false;
    }
    if lead > 3360 {
        return false;
    }
    if (lead + count) % v != 0 {
        return false;
    }
    lead + count + 120 * v <= 3360
}

// The digits line by line.
fn planes_held(
    v: usize,
    lead: usize,
    count: usize,
    held: &[u8; 3072],
    lines: &[u8; 360],
    carriers: &[u8],
) -> [u8; 5040]
    requires { LegalBits v × (held_fits v lead count ≡ true) }
    ensures { result ≡ tab 5040
        (plane_at v (last_digit v lead count held.now lines.now carriers.now)) }
{
    let rows = 3360 / v;
    let known = (lead + count) / v + 120;
    let mut planes = [2u8; 5040];
    for l in 0..v {
        for k in 0..known {
            planes[rows * l + k] = last_digit(v, lead, count, held, lines, carriers, k * v + l);
        }
    }
    planes
}

// What is received of kept bit c.
fn last_digit(
    v: usize,
    lead: usize,
    count: usize,
    held: &[u8; 3072],
    lines: &[u8; 360],
    carriers: &[u8],
    c: usize,
) -> u8
    requires { LegalBits v × (held_fits v lead count ≡ true) × (c < lead + count + 120 * v) }
    ensures { result ≡ last_digit v lead count held.now lines.now carriers.now c }
{
    if c < lead {
        return 2;
    }
    if c < lead + count {
        return held[c - lead] % 2;
    }
    let shown = c - (lead + count);
    shown_by(v, lines, carriers, shown / v, shown % v)
}

// What line l shows at carrier k of the next frame.
fn shown_by(v: usize, lines: &[u8; 360], carriers: &[u8], k: usize, l: usize) -> u8
    requires { LegalBits v × (k < 120) × (l < v) }
    ensures { result ≡ shown_by v lines.now carriers.now k l }
{
    let wait = 120 - l * (120 / (v - 1));
    if k < wait {
        return lines[first_of(v, l) + k] % 2;
    }
    digit_of(v, carriers, k - wait, l)
}

// Where the entries of line l begin.
fn first_of(v: usize, l: usize) -> usize
    requires { LegalBits v × (l < v) }
    ensures { result ≡ piece_start (wait_of v) l }
{
    let mut first = 0;
    for i in 0..l {
        first += 120 - i * (120 / (v - 1));
    }
    first
}

// The bit of line l of carrier k.
fn digit_of(v: usize, carriers: &[u8], k: usize, l: usize) -> u8
    requires { LegalBits v × (l < v) }
    ensures { result ≡ line_digit v carriers.now k l }
{
    if k < carriers.len() {
        return (carriers[k] >> (v - 1 - l)) % 2;
    }
    2
}
