// Rule 6 of document 01, bit interleaving, by symbols: the carriers of a run of symbols, what the lines hold between
// two frames, and the test of carriers for values that are too large. A symbol is the v kept bits of which the first
// goes to line 0, as a number, first bit highest. Carrier k takes line l from symbol k - l * 120 / (v - 1).
#![tactic(auto)]

ghost use Rattle.std.specs.Prelude.{◌≡◌, true, ◌&&◌, false, not, ◌+◌, ◌<◌, ◌-◌, ◌*◌, ◌/◌, ◌%◌, ◌^◌, ◌≤◌, leb};
ghost use Rattle.rules.specs.Bits.{line_delay, in_sizes, entry_after, carriers_in_range};
ghost use Rattle.bit_interleaver.specs.Symbols.{carrier_from, placed, add_placed, entry_before, history_bit};
ghost use Rattle.bit_interleaver.specs.Symbols.{made, put_by, legal, history_of, entries_of, waiting_of};
ghost use Rattle.lists.specs.Tab.{tab};
ghost use Rattle.lists.specs.Binary.{binary};
ghost use Rattle.rules.proofs.Entries.{sizes_of, Fits};

// Writes carriers `first` .. `first + count - 1` from a run of symbols, of which symbol j stands at 120 + j behind
// the 120 before it. Writes nothing if v is none of 2, 4, 6 or there is no room for so many.
pub fn place(symbols: &[u8; 1760], v: u8, first: usize, count: usize, carriers: &mut [u8])
    ensures { carriers.new ≡ placed v symbols.now first count carriers.old }
{
    put::<false>(symbols, v, first, count, carriers);
}

// Adds the run's carriers, where `place` writes them.
pub fn add_placed(symbols: &[u8; 1760], v: u8, first: usize, count: usize, carriers: &mut [u8])
    ensures { carriers.new ≡ add_placed v symbols.now first count carriers.old }
{
    put::<true>(symbols, v, first, count, carriers);
}

// Writes the run's carriers, or adds them.
fn put<const ADD: bool>(
    symbols: &[u8; 1760],
    v: u8,
    first: usize,
    count: usize,
    carriers: &mut [u8],
)
    ensures { carriers.new ≡ put_by ADD v symbols.now first count carriers.old }
{
    if has_room(v, first, count, carriers.len()) {
        for j in 0..count {
            carriers[first + j] = put_on::<ADD>(carriers[first + j], carrier(v, symbols, j));
        }
    }
}

// What stands where a carrier is written, or added.
fn put_on<const ADD: bool>(before: u8, carrier: u8) -> u8
    ensures { result ≡ made ADD before carrier }
{
    if ADD {
        return before ^ carrier;
    }
    carrier
}

// Whether there is room in a run of symbols and in so many carriers, and v is 2, 4 or 6.
fn has_room(v: u8, first: usize, count: usize, carriers: usize) -> bool
    ensures { result ≡ (leb (120 + count) 1760 && leb (first + count) carriers && legal v) }
{
    if count > 1640 {
        return false;
    }
    if count > carriers {
        return false;
    }
    if first > carriers - count {
        return false;
    }
    if v == 6 {
        return true;
    }
    if v == 4 {
        return true;
    }
    v == 2
}

// The carrier of symbol j: of the three loops that this makes of one, the compiler takes that of v.
fn carrier(v: u8, symbols: &[u8; 1760], j: usize) -> u8
    requires { (j < 1640) × (legal v ≡ true) }
    ensures { result ≡ carrier_from v symbols.now j }
{
    if v == 6 {
        return carrier6(symbols, j);
    }
    if v == 4 {
        return carrier4(symbols, j);
    }
    carrier2(symbols, j)
}

// A carrier of 64QAM: line l of the symbol 24 × l before.
fn carrier6(symbols: &[u8; 1760], j: usize) -> u8
    requires { j < 1640 }
    ensures { result ≡ carrier_from 6 symbols.now j }
{
    (symbols[120 + j] & 32)
        | (symbols[96 + j] & 16)
        | (symbols[72 + j] & 8)
        | (symbols[48 + j] & 4)
        | (symbols[24 + j] & 2)
        | (symbols[j] & 1)
}

// A carrier of 16QAM: line l of the symbol 40 × l before.
fn carrier4(symbols: &[u8; 1760], j: usize) -> u8
    requires { j < 1640 }
    ensures { result ≡ carrier_from 4 symbols.now j }
{
    (symbols[120 + j] & 8) | (symbols[80 + j] & 4) | (symbols[40 + j] & 2) | (symbols[j] & 1)
}

// A carrier of QPSK: line 1 of the symbol 120 before.
fn carrier2(symbols: &[u8; 1760], j: usize) -> u8
    requires { j < 1640 }
    ensures { result ≡ carrier_from 2 symbols.now j }
{
    (symbols[120 + j] & 2) | (symbols[j] & 1)
}

// The lines' entries as the 120 symbols before a frame; bits that came out already are 0.
pub fn history(v: u8, lines: &[u8; 360]) -> [u8; 120]
    ensures { result ≡ history_of v lines.now }
{
    if v == 6 {
        return history_by(6, 24, lines);
    }
    if v == 4 {
        return history_by(4, 40, lines);
    }
    if v == 2 {
        return history_by(2, 120, lines);
    }
    [0u8; 120]
}

// The 120 symbols before a frame, v being legal.
fn history_by(v: usize, delay: usize, lines: &[u8; 360]) -> [u8; 120]
    requires { (delay ≡ line_delay v) × Fits false v }
    ensures { result ≡ tab 120 (λ i. binary v (history_bit v lines.now i)) }
{
    let mut out = [0u8; 120];
    for i in 0..120 {
        out[i] = history_symbol(v, delay, lines, i);
    }
    out
}

// The i-th of them. `at` goes along the lines: where line l begins.
fn history_symbol(v: usize, delay: usize, lines: &[u8; 360], i: usize) -> u8
    requires { (delay ≡ line_delay v) × (i < 120) × Fits false v }
    ensures { result ≡ binary v (history_bit v lines.now i) }
{
    let mut symbol: u8 = 0;
    let mut at: usize = 0;
    for l in 0..v {
        symbol = symbol * 2 + history_bit(lines, at, l * delay, i);
        at = at + l * delay;
    }
    symbol
}

// Line bit of the i-th symbol, of a line with `size` entries from `at` on.
fn history_bit(lines: &[u8; 360], at: usize, size: usize, i: usize) -> u8
    requires { (at + size ≤ 360) × (size ≤ 120) × (i < 120) }
    ensures { result ≡ entry_before lines.now at size i }
{
    if i + size < 120 {
        return 0;
    }
    lines[at + (i + size - 120)] % 2
}

// Back: the lines' entries after a frame whose last 120 symbols are the history.
pub fn lines(v: u8, history: &[u8; 120]) -> [u8; 360]
    ensures { result ≡ entries_of v history.now }
{
    if v == 6 {
        return lines_by(false, 6, 24, history);
    }
    if v == 4 {
        return lines_by(false, 4, 40, history);
    }
    if v == 2 {
        return lines_by(false, 2, 120, history);
    }
    [0u8; 360]
}

// Going back: the lines' entries after a frame with these last 120 carriers.
pub fn waits(v: u8, last: &[u8; 120]) -> [u8; 360]
    ensures { result ≡ waiting_of v last.now }
{
    if v == 6 {
        return lines_by(true, 6, 24, last);
    }
    if v == 4 {
        return lines_by(true, 4, 40, last);
    }
    if v == 2 {
        return lines_by(true, 2, 120, last);
    }
    [0u8; 360]
}

// The entries line by line, v being legal. `at` is where line l begins.
fn lines_by(back: bool, v: usize, delay: usize, history: &[u8; 120]) -> [u8; 360]
    requires { (delay ≡ line_delay v) × Fits back v }
    ensures { result ≡ in_sizes (sizes_of back v) v (entry_after (sizes_of back v) v history.now) }
{
    let mut out = [0u8; 360];
    let mut at: usize = 0;
    for l in 0..v {
        let size = size_of(back, v, delay, l);
        for e in 0..size {
            out[at + e] = bit_of(history[120 - size + e], v - 1 - l);
        }
        at = at + size;
    }
    out
}

// How many entries line l has: as many carriers as it delays, and going back as it waits.
fn size_of(back: bool, v: usize, delay: usize, l: usize) -> usize
    requires { (delay ≡ line_delay v) × (l < v) × Fits back v }
    ensures { result ≡ sizes_of back v l }
{
    if back {
        return 120 - l * delay;
    }
    l * delay
}

// The bit of the symbol with so many below it.
fn bit_of(symbol: u8, below: usize) -> u8
    requires { below < 8 }
    ensures { result ≡ symbol / 2 ^ below % 2 }
{
    (symbol >> below) % 2
}

// Whether a carrier value is 2^v or more. The bits of all carriers together are below 2^v where each carrier is, so one
// test is enough, behind a loop with no way out that the compiler can do for many carriers at once.
pub fn too_large(v: u8, carriers: &[u8]) -> bool
    ensures { result ≡ not (carriers_in_range v carriers.now) }
{
    let mut all: u8 = 0;
    for carrier in carriers {
        all |= *carrier;
    }
    if 7 < v {
        return false;
    }
    (1 << v) <= all
}
