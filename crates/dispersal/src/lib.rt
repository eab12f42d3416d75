// Rule 2 of document 01, dispersal: the sequence of a word, from the generator's register before it or from the word's
// place in the frame, and the word with the sequence added. Dispersal is removed by adding the sequence again.
#![tactic(auto)]

ghost use Rattle.std.specs.Prelude.{◌≡◌, ◌<◌, ◌≤◌};
ghost use Rattle.rules.specs.Dispersal.{dispersed};
ghost use Rattle.dispersal.specs.Register.{generator_at, sequence_from, generator_after, added};
ghost use Rattle.dispersal.specs.Steps.{Begun, GoneOn, next_byte, next_register, mixed};

// The word at a place of the frame, dispersed; or, if it is dispersed, as it was.
pub fn disperse(place: usize, word: &[u8; 204]) -> [u8; 204]
    ensures { result ≡ dispersed place word.now }
{
    let bytes = sequence(register_at(place));
    add(word, &bytes)
}

// The word with its sequence added, but for byte 203.
fn add(word: &[u8; 204], sequence: &[u8; 204]) -> [u8; 204]
    ensures { result ≡ added word.now sequence.now }
{
    let mut result = *word;
    for j in 0..203 {
        result[j] ^= sequence[j];
    }
    result
}

// The 204 bytes of a word, from the register before it. Stage k is bit k - 1. Each byte from 15 on is the sum of those
// 14 and 15 before it, and so each from 60 on that of those 56 and 60 before it, which the compiler takes many at a
// time.
pub fn sequence(register: u16) -> [u8; 204]
    ensures { result ≡ sequence_from register }
{
    let mut result = first_fifteen(register);
    go_on::<15, 1>(&mut result, 60);
    go_on::<60, 4>(&mut result, 204);
    result
}

// Each byte from FAR on, and before `end`, becomes the sum of the one FAR before it and of the one NEAR behind that.
fn go_on<const FAR: usize, const NEAR: usize>(bytes: &mut [u8; 204], end: usize)
    requires near { NEAR < FAR }
    requires room { end ≤ 204 }
    ensures { GoneOn FAR NEAR end bytes.old bytes.new }
{
    for j in FAR..end {
        bytes[j] = bytes[j - FAR + NEAR] ^ bytes[j - FAR];
    }
}

// The first fifteen bytes, eight steps of the register each.
fn first_fifteen(register: u16) -> [u8; 204]
    ensures { Begun 15 register result }
{
    let mut result = [0u8; 204];
    let mut state = register % 32768;
    for j in 0..15 {
        let byte = next_byte(state);
        result[j] = byte;
        state = next_register(state, byte);
    }
    result
}

// The next eight output bits of a register, the first one highest.
#[tactic(auto, unfolding(crate::specs::Steps::next_byte))]
fn next_byte(register: u16) -> u8
    ensures { result ≡ next_byte register }
{
    ((register / 64 ^ register / 128) % 256) as u8
}

// The register after the eight steps in which the byte came out.
#[tactic(auto, unfolding(crate::specs::Steps::next_register))]
fn next_register(register: u16, byte: u8) -> u16
    ensures { result ≡ next_register register byte }
{
    register % 128 * 256 + u16::from(byte)
}

// The register behind the 204 bytes of a word, which is the register before the next word.
#[tactic(auto, unfolding(crate::specs::Register::generator_after))]
pub fn register_after(sequence: &[u8; 204]) -> u16
    ensures { result ≡ generator_after sequence.now }
{
    u16::from(sequence[202]) % 128 * 256 + u16::from(sequence[203])
}

// The load 100101010000000, stage 1 first.
const LOAD: u16 = 169;

// Bit i of number k says whether the register i steps on belongs to the sum that is the register 2^k words on: the
// polynomial x^(1632 2^k) modulo x^15 + x + 1.
const JUMPS: [u16; 15] = [
    10466, 19844, 8694, 19730, 24802, 11268, 6640, 21126, 9740, 6184, 960, 20510, 26452, 26990,
    28114,
];

// The register before the word at a place of the frame. After 32767 words the register is the same again.
pub fn register_at(place: usize) -> u16
    ensures { result ≡ generator_at place }
{
    let mut register = LOAD;
    let mut left = place % 32767;
    for jump in JUMPS {
        if left % 2 == 1 {
            register = jumped(register, jump);
        }
        left /= 2;
    }
    register
}

// The sum of those registers, up to fourteen steps on, that the bits of the jump name.
fn jumped(register: u16, jump: u16) -> u16
    requires { register < 32768 }
    ensures { result ≡ mixed jump 15 register }
{
    let now = u32::from(register);
    let ahead = now * 16384 + (now ^ now / 2) % 16384;
    let bits = u32::from(jump);
    let mut sum = 0;
    for i in 0..15u32 {
        sum ^= (bits >> i) % 2 * ((ahead >> (14 - i)) % 32768);
    }
    sum as u16
}
