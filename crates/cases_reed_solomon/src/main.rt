// Runs the Reed-Solomon code on words of 204 bytes from standard input. For each it prints its slot as a word that
// was sent (189 bytes), the parity of its first 188 bytes (16), the number of bytes corrected or 255, and the word
// after that (205). The expected bytes are `tests/second`'s.
#![tactic(auto)]

use nearest::Uncorrected;
use std::io;
use std::io::{Read, Write};

// The number that is printed for a correction. Every word here has 204 bytes.
fn told(found: Result<u8, Uncorrected>) -> u8 {
    match found {
        Ok(n) => n,
        Err(Uncorrected::TooFar) => 255,
        Err(Uncorrected::WrongLength) => 5,
    }
}

// The word corrected, behind its number.
fn print_corrected(rt: &HostRuntime, word: &mut [u8; 204]) -> io::Result<()> {
    let found = reed_solomon::correct(word);
    rt.stdout().write_all(&[told(found)])?;
    rt.stdout().write_all(word)
}

// The slot of a word that was sent.
fn print_slot(rt: &HostRuntime, word: &[u8; 204]) -> io::Result<()> {
    let mut slot = [0u8; 189];
    // The lengths fit, so that it isn't refused.
    let _ = slot::give(&word[..203], &mut slot);
    rt.stdout().write_all(&slot)
}

// The parity of the word's first 188 bytes.
fn print_parity(rt: &HostRuntime, word: &[u8; 204]) -> io::Result<()> {
    let mut parity = [0u8; 16];
    // The lengths fit, so that it isn't refused.
    let _ = codeword::parity(&word[..188], &mut parity);
    rt.stdout().write_all(&parity)
}

// One word.
fn answer(rt: &HostRuntime, word: &mut [u8; 204]) -> io::Result<()> {
    print_slot(rt, word)?;
    print_parity(rt, word)?;
    print_corrected(rt, word)
}

// A proved loop has to end, and nothing says that the input does: the calls are counted, as far as a number goes.
fn main(rt: HostRuntime) -> io::Result<()> {
    let mut word = [0u8; 204];
    for _ in 0..u64::MAX {
        if rt.stdin().read_exact(&mut word).is_err() {
            break;
        }
        answer(&rt, &mut word)?;
    }
    Ok(())
}
