// Hexadecimal digits: read in either case, written as capitals. A byte is two digits.
#![tactic(auto)]

ghost use Rattle.std.specs.Prelude.{◌+◌, ◌*◌, ◌-◌, ◌/◌, ◌%◌, ◌<◌, ◌≡◌, true, length, get_or, MatchOption};
ghost use Rattle.hexadecimal.specs.Digits.{value_of, digit_of, digit_at, digits_of};
ghost use Rattle.hexadecimal.specs.Bytes.{all_digits, writes, byte_at, digits_of_bytes, read_into};

// The value of a digit, 0 to 15; none for a byte that is no digit.
#[tactic(auto, unfolding(crate::specs::Digits::value_of, lists::specs::Tests::between))]
pub fn value(byte: u8) -> Option<u8>
    ensures { MatchOption result (value_of byte ≡ 16) (λ v. (v ≡ value_of byte) × (v < 16)) }
{
    match byte {
        b'0'..=b'9' => Some(byte - b'0'),
        b'A'..=b'F' => Some(byte - b'A' + 10),
        b'a'..=b'f' => Some(byte - b'a' + 10),
        _ => None,
    }
}

// The digit of a number's lowest four bits.
#[tactic(auto, unfolding(crate::specs::Digits::digit_of))]
fn digit(number: u64) -> u8
    ensures { result ≡ digit_of (number % 16) }
{
    let value = (number % 16) as u8;
    if value < 10 {
        b'0' + value
    } else {
        b'A' + (value - 10)
    }
}

// Fills a slice with the digits of a number, the lowest last: as many as it has room for.
pub fn write(number: u64, out: &mut [u8])
    ensures { out.new ≡ digits_of (length out.old) number }
{
    let mut rest = number;
    for k in (0..out.len()).rev() {
        out[k] = digit(rest);
        rest /= 16;
    }
}

// Fills a slice with the digits of bytes: as many as it has room for, and 0 where there are no more bytes.
pub fn write_bytes(bytes: &[u8], out: &mut [u8])
    ensures { out.new ≡ digits_of_bytes (length out.old) bytes.now }
{
    for (i, place) in out.iter_mut().enumerate() {
        *place = digit_at(bytes, i);
    }
}

// Digit i of the bytes.
fn digit_at(bytes: &[u8], i: usize) -> u8
    ensures { result ≡ digit_at (get_or bytes.now (i / 2) 0) (1 - i % 2) }
{
    let byte = u64::from(bytes.get(i / 2).copied().unwrap_or(0));
    digit(if i % 2 == 0 { byte / 16 } else { byte })
}

// Fills a slice with the bytes that a line writes, where it writes just so many; any other line leaves the slice as
// it was. It tells which of the two was: a bool, since Option<()> says no more and is no plainer.
pub fn read(line: &[u8], out: &mut [u8]) -> bool
    ensures value { result ≡ writes (length out.old) line.now }
    ensures out_after { out.new ≡ read_into line.now out.old }
{
    if line.len() % 2 != 0 || line.len() / 2 != out.len() || !digits_alone(line) {
        return false;
    }
    for (k, byte) in out.iter_mut().enumerate() {
        *byte = byte_at(line, k);
    }
    true
}

// Whether each byte of the line is a digit.
fn digits_alone(line: &[u8]) -> bool
    ensures { result ≡ all_digits line.now }
{
    line.iter().all(|byte| value(*byte).is_some())
}

// Byte k that the line writes.
fn byte_at(line: &[u8], k: usize) -> u8
    requires { (all_digits line.now ≡ true) × (2 * k + 1 < length line.now) }
    ensures { result ≡ byte_at line.now k }
{
    digit_value(line[2 * k]) * 16 + digit_value(line[2 * k + 1])
}

// The value of a byte that is a digit. There is no branch, which would often be guessed wrong where digits and letters
// come in any order: with `value`, reading a line takes half as long again.
fn digit_value(byte: u8) -> u8
    requires { value_of byte < 16 }
    ensures { (result ≡ value_of byte) × (result < 16) }
{
    byte % 16 + byte / 64 * 9
}
