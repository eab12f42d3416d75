// The remainder of a word modulo the generator of the Reed-Solomon code of ISDB-T, whose roots are 2^0 .. 2^15.
// Bytes are coefficients, the highest first, and sixteen of them are taken a step. The remainder of a message times
// x^16 is the message's parity.
#![tactic(auto)]

ghost use Rattle.std.specs.Prelude.{◌≡◌, ℕ, ◌+◌, ◌*◌, ◌-◌, ◌<◌, ◌≤◌, get_or, length};
ghost use Rattle.field.specs.Field.{◌⊕◌, double};
ghost use Rattle.lists.specs.Tab.{tab};
ghost use Rattle.remainder.specs.Remainder.{Remainder, Parity, all_zero};
ghost use Rattle.rules.specs.Word.{parity_of};
ghost use Rattle.remainder.specs.Packets.{parities_fit, parities_of};
ghost use Rattle.remainder.specs.Steps.{Put, Multiples, Table, padded};

use tables::POWERS;

mod tables;

// The remainder of the word.
pub fn remainder(word: &[u8]) -> [u8; 16]
    ensures { Remainder word.now result }
{
    let mut area = [0u8; 8192];
    filled(&mut area).reduced(word)
}

// The parity of the message: the remainder of the message times x^16.
pub fn parity(message: &[u8]) -> [u8; 16]
    ensures { result ≡ parity_of message.now }
{
    let mut area = [0u8; 8192];
    filled(&mut area).parity(message)
}

// The parity of each of the packets of 188 bytes is put into sixteen bytes of `out`, one behind the other: the table is
// filled once for all of them. Where the lengths do not fit, the answer is false, and nothing is altered. (It is a bool,
// which the clause gives as a value: an `Option<()>` says no more.)
pub fn parities(packets: &[u8], out: &mut [u8]) -> bool
    ensures { (result ≡ parities_fit packets.now out.old)
        × (out.new ≡ parities_of packets.now out.old) }
{
    let count = packets.len() / 188;
    if packets.len() != 188 * count {
        return false;
    }
    if out.len() != 16 * count {
        return false;
    }
    let mut area = [0u8; 8192];
    let rows = filled(&mut area);
    for p in 0..count {
        let parity = rows.parity(&packets[188 * p..188 * p + 188]);
        out[16 * p..16 * p + 16].copy_from_slice(&parity);
    }
    true
}

// Whether all sixteen bytes are 0.
pub fn is_zero(bytes: [u8; 16]) -> bool
    ensures { result ≡ all_zero bytes }
{
    let mut sum = 0;
    for byte in bytes {
        sum |= byte;
    }
    sum == 0
}

// The rows that remainders are made by, in an area of the caller's: sixteen bytes at 256 n + 16 j for n times
// x^(31 - j), and 4096 further on for 16 n times that, n being below 16. (Rows that own their bytes would be copied
// when they are handed out, which makes the parity of one packet a quarter slower.)
#[derive(Clone, Copy)]
struct Rows<'a> {
    bytes: &'a [u8; 8192],
    ghost right: { Table bytes.now },
}

impl<'a> Rows<'a> {
    // The parity of the message.
    fn parity(self, message: &[u8]) -> [u8; 16]
        ensures { result ≡ parity_of message.now }
    {
        self.shifted(self.reduced(message))
    }

    // The remainder of the word.
    fn reduced(self, word: &[u8]) -> [u8; 16]
        ensures { Remainder word.now result }
    {
        let (head, blocks) = word.split_at(word.len() % 16);
        let mut result = first_block(head);
        for block in blocks.chunks_exact(16) {
            result = plus(self.shifted(result), block);
        }
        result
    }

    // The bytes times x^16, modulo the generator.
    fn shifted(self, bytes: [u8; 16]) -> [u8; 16]
        ensures { Parity bytes result }
    {
        let table = self.bytes;
        let mut sum = [0u8; 16];
        for j in 0..16 {
            let f = usize::from(bytes[j]);
            let low = 256 * (f % 16) + 16 * j;
            let high = 4096 + 256 * (f / 16) + 16 * j;
            sum = plus(plus(sum, &table[low..low + 16]), &table[high..high + 16]);
        }
        sum
    }
}

// At most sixteen bytes, behind zeros.
fn first_block(head: &[u8]) -> [u8; 16]
    requires { length head.now ≤ 16 }
    ensures { result ≡ tab 16 (padded (16 - length head.now) head.now) }
{
    let mut result = [0u8; 16];
    result[16 - head.len()..].copy_from_slice(head);
    result
}

// The sum of both sixteen bytes.
fn plus(bytes: [u8; 16], other: &[u8]) -> [u8; 16]
    requires { length other.now ≡ 16 }
    ensures { result ≡ tab 16 (λ k. get_or bytes k 0 ⊕ get_or other.now k 0) }
{
    let mut result = [0u8; 16];
    for k in 0..16 {
        result[k] = bytes[k] ^ other[k];
    }
    result
}

// The rows, in an area that is all 0.
fn filled(area: &mut [u8; 8192]) -> Rows<'_>
    requires { (i : ℕ) → get_or area.old i 0 ≡ 0 }
{
    fill(area);
    Rows { bytes: area }
}

// Fills the area, which is all 0: the multiples of the powers by each low half byte, and by each high one.
fn fill(table: &mut [u8; 8192])
    requires { (i : ℕ) → get_or table.old i 0 ≡ 0 }
    ensures { Table table.new }
{
    // one by one: a copy by the library's method makes the remainder of one word 4 % slower
    let powers = POWERS;
    for k in 0..256 {
        table[256 + k] = powers[k];
    }
    put_multiples(table, 0);
    put_double(table, 2048, 4352);
    put_multiples(table, 4096);
}

// Sixteen blocks of 256 bytes from `at` on, of which the first is 0 already: block n becomes n times block 1.
fn put_multiples(table: &mut [u8; 8192], at: usize)
    requires { (at ≤ 4096) × ((k : ℕ) → k < 256 → get_or table.old (at + k) 0 ≡ 0)
        × ((k : ℕ) → k < 256 → get_or table.old (at + 256 + k) 0 < 256) }
    ensures { Multiples at 16 table.old table.new }
{
    for n in 1..8 {
        put_double(table, at + 256 * n, at + 512 * n);
        put_sum(table, at + 256, at + 512 * n, at + 512 * n + 256);
    }
}

// Twice the 256 bytes at `from`, at `to`. This and `put_sum` read one block and two: one function that is passed what
// to do would need clauses on what its closure reads, and be no plainer.
fn put_double(table: &mut [u8; 8192], from: usize, to: usize)
    requires { (from + 256 ≤ to) × (to + 256 ≤ 8192) }
    ensures { Put to 256 (λ k. double (get_or table.old (from + k) 0)) table.old table.new }
{
    for k in 0..256 {
        table[to + k] = field::twice(table[from + k]);
    }
}

// The sum of the 256 bytes at `one` and those at `other`, at `to`.
fn put_sum(table: &mut [u8; 8192], one: usize, other: usize, to: usize)
    requires { (one + 256 ≤ to) × (other + 256 ≤ to) × (to + 256 ≤ 8192) }
    ensures { Put to 256 (λ k. get_or table.old (one + k) 0 ⊕ get_or table.old (other + k) 0)
        table.old table.new }
{
    for k in 0..256 {
        table[to + k] = field::plus(table[one + k], table[other + k]);
    }
}
