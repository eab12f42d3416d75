// Reed-Solomon (204, 188): the one codeword within eight bytes of a word.
#![tactic(auto)]

ghost use Rattle.std.specs.Prelude.{◌≡◌, length};
ghost use Rattle.remainder.specs.Remainder.{Remainder};
ghost use Rattle.nearest.specs.Correction.{Corrected, nearest_number, nearest_values};

use nearest::Uncorrected;
use tables::Tables;

mod errors;
mod locator;
mod roots;
mod syndromes;
mod tables;

// The word becomes the codeword that differs from it in at most eight bytes. Where there is none, or the word has
// other than 204 bytes, it stays as it was.
pub fn correct(word: &mut [u8]) -> Result<u8, Uncorrected>
    ensures { Corrected word.old word.new (nearest_number result) (nearest_values result) }
{
    if word.len() != 204 {
        return Err(Uncorrected::WrongLength);
    }
    let rest = remainder::remainder(word);
    if remainder::is_zero(rest) {
        return Ok(0);
    }
    repair(word, &rest)
}

// `correct` for a word of 204 bytes with its remainder.
fn repair(word: &mut [u8], rest: &[u8; 16]) -> Result<u8, Uncorrected>
    requires { (length word.old ≡ 204) × Remainder word.old rest.now }
    ensures { Corrected word.old word.new (nearest_number result) (nearest_values result) }
{
    let tables = Tables::new();
    let s = syndromes::syndromes(rest, &tables);
    let l = locator::locator(&s, &tables);
    let at = roots::roots(&l, &tables);
    let mut mended = [0u8; 204];
    mended.copy_from_slice(word);
    let (count, left) = errors::mend(&mut mended, &s, at.as_slice(), &tables);
    if remainder::is_zero(left) {
        word.copy_from_slice(&mended);
        return Ok(count);
    }
    Err(Uncorrected::TooFar)
}
