// Rule 5 of document 01, puncturing, a block at a time: M = 12, 16, 18, 20 or 21 message bits by rate keep exactly 24
// bits. The 24 bits are a sum without carries of seven entries of a table, one for each half byte of the block's
// message bits and the six before them, since the code is linear.
#![tactic(auto)]

ghost use Rattle.std.specs.Prelude.{◌≡◌, ℕ, ◌*◌, ◌/◌, ◌%◌, ◌^◌, ◌<◌, ◌≤◌, get_or};
ghost use Rattle.lists.specs.Binary.{binary};
ghost use Rattle.settings.specs.Sizes.{packets_by_rate};
ghost use Rattle.settings.specs.Patterns.{pattern_length};
ghost use Rattle.puncturing.specs.Block.{block_table, sum_of_entries, block_by};
ghost use Rattle.puncturing.specs.Steps.{shift_of, base_of, picked_bit};

// "12, 16, 18, 20 or 21 by rate"; no other number is a rate. (`settings` has the same numbers, of packets by rate, to
// itself.)
const BLOCK_LENGTHS: [usize; 6] = [0, 12, 16, 18, 20, 21];

// M, the message bits of a block, or 0 for a number that is no rate.
#[tactic(auto, unfolding(settings::specs::Sizes::packets_by_rate))]
pub fn block_length(rate: u8) -> usize
    ensures { result ≡ packets_by_rate rate }
{
    BLOCK_LENGTHS.get(usize::from(rate)).copied().unwrap_or(0)
}

// The table of a rate, all 0 for a number that is no rate.
pub fn block_table(rate: u8) -> [u32; 112]
    ensures { result ≡ block_table rate }
{
    if settings::pattern_length(rate) == 0 {
        return [0; 112];
    }
    Rate { number: rate }.table()
}

// The 24 kept bits of a block, the first highest, from its message bits and the six before them, the oldest highest.
pub fn block(table: &[u32; 112], bits: u32) -> u32
    ensures { result ≡ block_by table.now bits }
{
    lower(table, bits)
        ^ table[64 + low(bits >> 16)]
        ^ table[80 + low(bits >> 20)]
        ^ table[96 + low(bits >> 24)]
}

// The sum of the entries for the four lowest half bytes.
fn lower(table: &[u32; 112], bits: u32) -> u32
    ensures { result ≡ sum_of_entries table.now bits 4 }
{
    table[low(bits)]
        ^ table[16 + low(bits >> 4)]
        ^ table[32 + low(bits >> 8)]
        ^ table[48 + low(bits >> 12)]
}

// The lowest half byte.
fn low(bits: u32) -> usize
    ensures { (result ≡ bits % 16) × (result < 16) }
{
    (bits % 16) as usize
}

// The kept bits of a rate's pattern that are X, the first lowest.
const X_KEPT: [usize; 6] = [0, 0b01, 0b001, 0b1001, 0b101001, 0b10100001];

// A rate, 1 to 5.
#[derive(Clone, Copy)]
struct Rate {
    number: u8,
    ghost legal: { 0 < pattern_length number },
}

impl Rate {
    // The table of the rate.
    fn table(self) -> [u32; 112]
        ensures { result ≡ block_table self.number }
    {
        let code = convolutional_code::code_table();
        let mut shifts = [0usize; 24];
        let mut bases = [0usize; 24];
        for i in 0..24 {
            shifts[i] = self.shift_of(i);
            bases[i] = self.base_of(i);
        }
        let mut table = [0u32; 112];
        for place in 0..112 {
            table[place] = kept_bits(&code, &shifts, &bases, half_byte(place));
        }
        table
    }

    // How far up in a block's bits the window of kept bit i is.
    fn shift_of(self, i: usize) -> usize
        requires { i < 24 }
        ensures { result ≡ shift_of self.number i }
    {
        let length = settings::pattern_length(self.number);
        let source = i / (length + 1) * length + (i % (length + 1)).saturating_sub(1);
        block_length(self.number) - 1 - source
    }

    // Where the half of the code's table begins that kept bit i is picked from: 128 where it is X, and 0 where it is Y.
    fn base_of(self, i: usize) -> usize
        requires { i < 24 }
        ensures { result ≡ base_of self.number i }
    {
        let length = settings::pattern_length(self.number);
        (X_KEPT[usize::from(self.number)] >> (i % (length + 1))) % 2 * 128
    }
}

// The half byte that a place of the table is for, where it stands in a block's bits.
fn half_byte(place: usize) -> u32
    requires { place < 112 }
    ensures { result ≡ place % 16 * 16 ^ (place / 16) }
{
    ((place % 16) as u32) << (4 * (place / 16))
}

// The 24 kept bits of a block, the first highest, picked from the table of coded bits.
fn kept_bits(code: &[u8; 256], shifts: &[usize; 24], bases: &[usize; 24], bits: u32) -> u32
    requires { ((i : ℕ) → get_or code.now i 0 < 2) × ((i : ℕ) → get_or shifts.now i 0 < 32)
        × ((i : ℕ) → get_or bases.now i 0 ≤ 128) }
    ensures { result ≡ binary 24 (picked_bit code.now shifts.now bases.now bits) }
{
    let mut kept = 0;
    for i in 0..24 {
        let window = (bits >> shifts[i]) % 128;
        kept = kept * 2 + u32::from(code[bases[i] + window as usize]);
    }
    kept
}
