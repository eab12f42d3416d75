// The sixteen syndromes of a word: its values at the roots of the code.
ghost use Rattle.std.specs.Prelude.{◌≡◌, ℕ, ◌*◌, ◌/◌, ◌%◌, ◌<◌, get_or};
ghost use Rattle.field.specs.Field.{◌⊕◌, ◌⊗◌, power};
ghost use Rattle.reed_solomon.specs.Decode.{Syndromes, picked_rows};

use super::tables::{Exponent, Tables};

// The row where c has the bit, and 0 elsewhere.
fn pick(c: u8, bit: u8, row: u8) -> u8
    requires { 0 < bit }
    ensures { result ≡ c / bit % 2 * row }
{
    if c / bit % 2 == 0 {
        return 0;
    }
    row
}

// The powers from 2 to the k on where c has the bits 0 to 3.
fn half(c: u8, k: usize, tables: &Tables) -> u8
    requires { k < 20 }
    ensures { result ≡ picked_rows c k tables.now.powers }
{
    let powers = &tables.powers;
    pick(c, 1, powers[k])
        ^ pick(c, 2, powers[k + 1])
        ^ pick(c, 4, powers[k + 2])
        ^ pick(c, 8, powers[k + 3])
}

// 2 to the k times c, bit by bit of c: sixteen of these are made at once, which products by logarithms are not.
fn lane(c: u8, k: usize, tables: &Tables) -> u8
    requires { k < 16 }
    ensures { result ≡ power 2 k ⊗ c }
{
    half(c, k, tables) ^ half(c / 16, k + 4, tables)
}

// Each entry k of s times 2 to the k, plus f: one step of Horner's rule at the sixteen roots.
fn turned(s: &[u8; 16], f: u8, tables: &Tables) -> [u8; 16]
    ensures { (k : ℕ) → k < 16 → get_or result k 0 ≡ f ⊕ power 2 k ⊗ get_or s.now k 0 }
{
    let mut n = [0u8; 16];
    for k in 0..16 {
        n[k] = f ^ lane(s[k], k, tables);
    }
    n
}

// The syndromes of sixteen bytes, and so of each word of which they are the remainder.
pub(super) fn syndromes(rest: &[u8; 16], tables: &Tables) -> [u8; 16]
    ensures { Syndromes rest.now result }
{
    let mut s = [0u8; 16];
    for byte in rest {
        s = turned(&s, *byte, tables);
    }
    s
}

// The syndromes s, after the byte at the locator 2 to the q has changed by e.
pub(super) fn change(s: &mut [u8; 16], q: Exponent, e: u8, tables: &Tables)
    ensures { (j : ℕ) → j < 16 → get_or s.new j 0 ≡ get_or s.old j 0 ⊕ power 2 (q.value * j) ⊗ e }
{
    let mut l = Exponent::new(0);
    for entry in s.iter_mut() {
        *entry ^= tables.times(l, e);
        l = l + q;
    }
}
