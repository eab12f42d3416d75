// The field GF(256) of ISDB-T, modulo x^8 + x^4 + x^3 + x^2 + 1: sums, doubling, and tables of powers and
// logarithms by which a caller takes products.
#![tactic(auto)]

ghost use Rattle.std.specs.Prelude.{◌≡◌, cond, ◌-◌, ◌<◌, eqb, ltb, get_or};
ghost use Rattle.field.specs.Field.{◌⊕◌, double};
ghost use Rattle.field.specs.Tables.{power_table, logarithm_table, Powers, Logarithms};

use logarithm_constants::LOGARITHMS;
use power_constants::POWERS;

mod logarithm_constants;
mod power_constants;

// The sum.
pub fn plus(a: u8, b: u8) -> u8
    ensures { result ≡ a ⊕ b }
{
    a ^ b
}

// x times a.
#[tactic(auto, using(crate::proofs::Steps::double_low, crate::proofs::Steps::double_high))]
pub fn twice(a: u8) -> u8
    ensures { result ≡ double a }
{
    if a < 128 { a * 2 } else { ((a - 128) * 2) ^ 29 }
}

// The powers of 2 below the exponent 255, and then 0: for a caller that lends the table on.
pub fn power_table() -> [u8; 256]
    ensures value { result ≡ power_table }
    ensures powers { Powers result }
{
    let mut table = [0u8; 256];
    table[..255].copy_from_slice(&POWERS);
    table
}

// The logarithm of each byte, with 255 for 0: for a caller that lends the table on. It is a table of bytes, so that 0's
// entry is a byte too.
pub fn logarithm_table() -> [u8; 256]
    ensures value { result ≡ logarithm_table }
    ensures logarithms { Logarithms result }
{
    let mut table = [255u8; 256];
    table[1..].copy_from_slice(&LOGARITHMS);
    table
}
