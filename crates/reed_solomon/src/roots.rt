// The places at which the locator polynomial is 0: its nine terms are indices into a table of powers and step from
// place to place.
ghost use Rattle.std.specs.Prelude.{◌≡◌, ℕ, ◌+◌, ◌*◌, ◌<◌, ◌≤◌, List, [], ◌∷◌, ◌++◌, get_or, length, take};
ghost use Rattle.field.specs.Field.{◌⊗◌, power};
ghost use Rattle.field.specs.Roots.{poly};
ghost use Rattle.reed_solomon.specs.Rows.{total};
ghost use Rattle.reed_solomon.specs.Decode.{FewZeros, ListedZeros, NotZero, Roots};
ghost use Rattle.reed_solomon.specs.Search.{TermTable, Term, Terms, Below};

use super::tables::Tables;
use std::marker::Model;

// The exponents of roots, rising. In fixed memory, since nothing here takes any from the heap: the first `count` of `at`.
#[derive(Drop)]
pub(super) struct Found {
    at: [u8; 8],
    count: usize,
}

impl Model for Found {
    ghost Value = { List ℕ };

    ghost view = { λ found. take found.count found.at };

    ghost invariant = { λ found. found.count ≤ 8 };
}

impl Found {
    fn new() -> Self
        ensures { result ≡ [] }
    {
        Found {
            at: [0; 8],
            count: 0,
        }
    }

    fn push(&mut self, exponent: u8)
        requires { length self.old < 8 }
        ensures { self.new ≡ self.old ++ exponent ∷ [] }
    {
        self.at[self.count] = exponent;
        self.count += 1;
    }

    pub(super) fn as_slice(&self) -> &[u8]
        ensures { result.now ≡ self.now }
    {
        &self.at[..self.count]
    }
}

// 32 zeros, and then the powers of 2 up to 2 to the 287.
fn term_table(tables: &Tables) -> [u8; 320]
    ensures { TermTable result }
{
    let mut table = [0u8; 320];
    table[32..287].copy_from_slice(&tables.powers[..255]);
    table[287..].copy_from_slice(&tables.powers[..33]);
    table
}

// The index of the term a.
fn index(a: u8, tables: &Tables) -> u16
    ensures { Term result a }
{
    if a == 0 {
        return 0;
    }
    32 + tables.logarithm(a).value as u16
}

// The indices of the nine terms at 1.
fn indices(l: &[u8; 9], tables: &Tables) -> [u16; 9]
    ensures { Terms l.now 0 result }
{
    let mut e = [0u16; 9];
    for (k, a) in l.iter().enumerate() {
        e[k] = index(*a, tables);
    }
    e
}

// The index of 2 to the k times the term.
fn stepped(e: u16, k: u16) -> u16
    requires { (e < 287) × (k ≤ 32) }
    ensures { (t : ℕ) → Term e t → Term result (t ⊗ power 2 k) }
{
    if e < 32 {
        return e;
    }
    let s = e + k;
    if s < 287 {
        return s;
    }
    s - 255
}

// The indices four places on.
fn step(e: &[u16; 9]) -> [u16; 9]
    requires { Below e.now }
    ensures { (l : List ℕ) (q : ℕ) → Terms l q e.now → Terms l (q + 4) result }
{
    let mut n = [0u16; 9];
    for k in 0..9 {
        n[k] = stepped(e[k], 4 * (k as u16));
    }
    n
}

// The sum of the nine terms j places on.
fn value(e: &[u16; 9], j: usize, table: &[u8; 320]) -> u8
    requires { Below e.now × (j < 4) }
    ensures { result ≡ total 9 (λ k. get_or table.now (get_or e.now k 0 + k * j) 0) }
{
    let mut v: u8 = 0;
    for k in 0..9 {
        v = table[usize::from(e[k]) + k * j] ^ v;
    }
    v
}

// The values of the polynomial at 2 to the q, for each q below 204.
fn values(l: &[u8; 9], tables: &Tables) -> [u8; 204]
    ensures { (q : ℕ) → q < 204 → get_or result q 0 ≡ poly l.now (power 2 q) }
{
    let table = term_table(tables);
    let mut e = indices(l, tables);
    let mut v = [0u8; 204];
    for turn in 0..51 {
        let q = 4 * turn;
        v[q] = value(&e, 0, &table);
        v[q + 1] = value(&e, 1, &table);
        v[q + 2] = value(&e, 2, &table);
        v[q + 3] = value(&e, 3, &table);
        e = step(&e);
    }
    v
}

// The places at which v is 0.
fn zeros(v: &[u8; 204]) -> Found
    requires { FewZeros v.now }
    ensures { (length result ≤ 8) × ListedZeros v.now result (length result) 204 }
{
    let mut at = Found::new();
    for q in 0..204 {
        if v[usize::from(q)] == 0 {
            at.push(q);
        }
    }
    at
}

// The roots of the polynomial l, which is not 0, among the places.
pub(super) fn roots(l: &[u8; 9], tables: &Tables) -> Found
    requires { NotZero l.now }
    ensures { Roots l.now result (length result) }
{
    zeros(&values(l, tables))
}
