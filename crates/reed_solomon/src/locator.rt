// The locator polynomial of a word's errors: the kernel of a matrix of syndromes, by elimination.
ghost use Rattle.std.specs.Prelude.{◌≡◌, ℕ, ◌+◌, ◌<◌, MatchBool, get_or};
ghost use Rattle.field.specs.Field.{◌⊕◌, ◌⊗◌, power};
ghost use Rattle.reed_solomon.specs.Rows.{Joined, Vanished, Locator};

use super::tables::{Exponent, Tables};

// The 8 images of a polynomial and then its 9 coefficients (specs/Rows.antt).
type Row = [u8; 17];

// The row at c has 1 as its first image other than 0, at c.
type Basis = [Option<Row>; 8];

// row plus 2 to the l times the pivot.
fn reduce(row: &mut Row, pivot: &Row, l: Exponent, tables: &Tables)
    ensures { (k : ℕ) → k < 17 → get_or row.new k 0
        ≡ get_or row.old k 0 ⊕ power 2 l.value ⊗ get_or pivot.now k 0 }
{
    for (k, entry) in row.iter_mut().enumerate() {
        *entry = tables.plus_times(*entry, l, pivot[k]);
    }
}

// 2 to the l times row.
fn scaled(mut row: Row, l: Exponent, tables: &Tables) -> Row
    ensures { (k : ℕ) → k < 17 → get_or result k 0 ≡ power 2 l.value ⊗ get_or row k 0 }
{
    for entry in row.iter_mut() {
        *entry = tables.times(l, *entry);
    }
    row
}

// Reduces row by the rows of the basis. Where an image is left, row joins the basis, at its first image: whether it
// does.
fn insert(basis: &mut Basis, row: &mut Row, tables: &Tables) -> bool
    ensures { MatchBool result (Joined row.old basis.old basis.new) (Vanished row.old basis.old row.new) }
{
    for c in 0..8 {
        if row[c] != 0 {
            let l = tables.logarithm(row[c]);
            let Some(pivot) = &basis[c] else {
                basis[c] = Some(scaled(*row, -l, tables));
                return true;
            };
            reduce(row, pivot, l, tables);
        }
    }
    false
}

// The nine coefficients of a row.
fn coefficients(row: &Row) -> [u8; 9]
    ensures { (k : ℕ) → k < 9 → get_or result k 0 ≡ get_or row.now (8 + k) 0 }
{
    let mut l = [0u8; 9];
    l.copy_from_slice(&row[8..]);
    l
}

// A polynomial, not 0, that takes the syndromes to 0 at the first eight places: there always is one.
pub(super) fn locator(s: &[u8; 16], tables: &Tables) -> [u8; 9]
    ensures { Locator s.now result }
{
    let mut basis: Basis = [None; 8];
    for i in 0..9 {
        // the row for x to the i
        let mut row = [0u8; 17];
        row[..8].copy_from_slice(&s[i..i + 8]);
        row[8 + i] = 1;
        if !insert(&mut basis, &mut row, tables) {
            return coefficients(&row);
        }
    }
    unreachable!()
}
