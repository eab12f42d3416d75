// The one codeword within eight bytes of a word: what it is (specs/Correction.antt), and that there is at most one.
#![tactic(auto)]

// Why `reed_solomon::correct` left a word as it was. Else it tells in how many bytes the codeword differs.
#[derive(Clone, Copy, Debug, PartialEq, Eq)]
pub enum Uncorrected {
    // No codeword differs from the word in at most eight bytes.
    TooFar,
    // The word has other than 204 bytes.
    WrongLength,
}
