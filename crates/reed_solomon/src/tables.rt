// Products over GF(256) by logarithms to the base 2.
ghost use Rattle.std.specs.Prelude.{◌≡◌, ◌<◌};
ghost use Rattle.field.specs.Field.{◌⊕◌, ◌⊗◌, power};
ghost use Rattle.field.specs.Tables.{Powers, Logarithms};

use std::ops::{Add, Neg};

// An exponent of 2. Sums are modulo 255, since 2 to the 255 is 1.
#[derive(Clone, Copy)]
pub(super) struct Exponent {
    pub(super) value: usize,
    ghost small: { value < 255 },
}

impl Exponent {
    pub(super) fn new(value: usize) -> Self
        requires { value < 255 }
        ensures { result.value ≡ value }
    {
        Exponent { value }
    }
}

impl Add for Exponent {
    type Output = Exponent;

    ghost add_gives = { λ l m r. power 2 r.value ≡ power 2 l.value ⊗ power 2 m.value };

    fn add(self, other: Exponent) -> Exponent {
        let sum = self.value + other.value;
        Exponent::new(if sum < 255 { sum } else { sum - 255 })
    }
}

impl Neg for Exponent {
    type Output = Exponent;

    ghost neg_gives = { λ l r. power 2 l.value ⊗ power 2 r.value ≡ 1 };

    fn neg(self) -> Exponent {
        Exponent::new(if self.value == 0 { 0 } else { 255 - self.value })
    }
}

// The powers of 2, and the logarithms of the bytes other than 0.
#[derive(Drop)]
pub(super) struct Tables {
    pub(super) powers: [u8; 256],
    pub(super) logarithms: [u8; 256],
    ghost are_powers: { Powers powers },
    ghost are_logarithms: { Logarithms logarithms },
}

impl Tables {
    pub(super) fn new() -> Self {
        Tables {
            powers: field::power_table(),
            logarithms: field::logarithm_table(),
        }
    }

    // 2 to the l.
    pub(super) fn power(&self, l: Exponent) -> u8
        ensures { result ≡ power 2 l.value }
    {
        self.powers[l.value]
    }

    // The exponent of a, which is not 0.
    pub(super) fn logarithm(&self, a: u8) -> Exponent
        requires { 0 < a }
        ensures { power 2 result.value ≡ a }
    {
        Exponent::new(usize::from(self.logarithms[usize::from(a)]))
    }

    // a plus 2 to the l times b.
    pub(super) fn plus_times(&self, a: u8, l: Exponent, b: u8) -> u8
        ensures { result ≡ a ⊕ power 2 l.value ⊗ b }
    {
        if b == 0 {
            return a;
        }
        a ^ self.power(l + self.logarithm(b))
    }

    // 2 to the l times b.
    pub(super) fn times(&self, l: Exponent, b: u8) -> u8
        ensures { result ≡ power 2 l.value ⊗ b }
    {
        self.plus_times(0, l, b)
    }
}
