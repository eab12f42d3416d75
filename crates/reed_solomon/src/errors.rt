// The errors at the roots of the locator polynomial, and the word without them.
ghost use Rattle.std.specs.Prelude.{◌≡◌, ℕ, ◌+◌, ◌-◌, ◌<◌, get_or, length};
ghost use Rattle.field.specs.Field.{◌⊕◌, ◌⊗◌, power};
ghost use Rattle.reed_solomon.specs.Decode.{Places, ErrorAt, Mended, Syndromes};

use super::syndromes::change;
use super::tables::{Exponent, Tables};

// The first `left` of t become t[k + 1] plus 2 to the l times t[k]: each error's share times (its locator plus 2 to
// the l).
fn fold(t: &mut [u8; 16], left: usize, l: Exponent, tables: &Tables)
    requires { left < 16 }
    ensures { (j : ℕ) → j < left
        → get_or t.new j 0 ≡ get_or t.old (j + 1) 0 ⊕ power 2 l.value ⊗ get_or t.old j 0 }
{
    for k in 0..left {
        t[k] = tables.plus_times(t[k + 1], l, t[k]);
    }
}

// The error at the place a of those listed: the other places are folded away.
fn error_at(s: &[u8; 16], at: &[u8], a: usize, tables: &Tables) -> u8
    requires { Places at.now (length at.now) × (a < length at.now) }
    ensures { ErrorAt s.now at.now (length at.now) (203 - get_or at.now a 0) result }
{
    let x = tables.power(Exponent::new(usize::from(at[a])));
    let mut t = *s;
    let mut d = Exponent::new(0);
    let mut left = at.len();
    for (b, place) in at.iter().enumerate() {
        if b != a {
            left -= 1;
            let l = Exponent::new(usize::from(*place));
            fold(&mut t, left, l, tables);
            d = d + tables.logarithm(x ^ tables.power(l));
        }
    }
    tables.times(-d, t[0])
}

// The errors at the places listed are taken away from the word, whose syndromes are s. How many of them are not 0, and
// the syndromes of the word then.
pub(super) fn mend(word: &mut [u8; 204], s: &[u8; 16], at: &[u8], tables: &Tables) -> (u8, [u8; 16])
    requires { Places at.now (length at.now) × Syndromes word.old s.now }
    ensures { Mended s.now at.now (length at.now) word.old word.new result.0 × Syndromes word.new result.1 }
{
    let mut rest = *s;
    let mut count: u8 = 0;
    for (a, place) in at.iter().enumerate() {
        let e = error_at(s, at, a, tables);
        let q = usize::from(*place);
        change(&mut rest, Exponent::new(q), e, tables);
        word[203 - q] ^= e;
        if e != 0 {
            count += 1;
        }
    }
    (count, rest)
}
