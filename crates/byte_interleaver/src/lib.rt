// Rule 3, byte interleaving, a word at a time: what comes out of the branches, and what goes into them. It is done once
// for both ways, there and back, and for any word that can be read byte by byte: `dispersing_interleaver` goes there,
// with a word to which it adds the sequence as it is read; back is here.
#![tactic(auto)]

ghost use Rattle.std.specs.Prelude.{◌≡◌, List, ℕ, ◌+◌, ◌*◌, ◌<◌, ◌≤◌, get_or, length, ltb};
ghost use Rattle.rules.specs.Bytes.{waits_back, branch_start, stream_byte, word_out, memory_after};
ghost use Rattle.byte_interleaver.specs.Steps.{Moved, Newest, waits_of};

// A word that is read byte by byte.
pub trait Word {
    ghost bytes: { Self → List ℕ };

    // Byte j of the word, and 0 behind its end.
    fn byte(&self, j: usize) -> u8
        ensures { result ≡ get_or (bytes self.now) j 0 };
}

impl Word for [u8; 204] {
    ghost bytes = { λ word. word };

    fn byte(&self, j: usize) -> u8 {
        if j < 204 {
            return self[j];
        }
        0
    }
}

// The word that comes out when `word` goes in, going back.
pub fn out_back(memory: &[u8; 1122], word: &[u8; 204]) -> [u8; 204]
    ensures { result ≡ word_out waits_back memory.now word.now }
{
    word_out::<true, [u8; 204]>(memory, word)
}

// The memory after the word, going back.
pub fn memory_back(memory: &[u8; 1122], word: &[u8; 204]) -> [u8; 1122]
    ensures { result ≡ memory_after waits_back memory.now (λ b. get_or word.now b 0) 1 }
{
    let mut next = *memory;
    take_in::<true, [u8; 204]>(&mut next, word);
    next
}

// The word that comes out when `word` goes in. The branches are the inner loop, so that it is unrolled.
pub fn word_out<const BACK: bool, W: Word>(memory: &[u8; 1122], word: &W) -> [u8; 204]
    ensures { result ≡ word_out (waits_of BACK) memory.now (W.bytes word.now) }
{
    let mut out = [0u8; 204];
    for t in 0..17 {
        for i in 0..12 {
            out[12 * t + i] = out_byte::<BACK, W>(memory, word, t, i);
        }
    }
    out
}

// The byte of branch i that comes out at turn t: the word's own where the branch does not wait, else the memory's.
fn out_byte<const BACK: bool, W: Word>(memory: &[u8; 1122], word: &W, t: usize, i: usize) -> u8
    requires { (t < 17) × (i < 12) }
    ensures { result ≡ stream_byte (waits_of BACK) memory.now (λ b. get_or (W.bytes word.now) b 0) (12 * t + i) }
{
    if waits::<BACK>(i) {
        return memory[first_of::<BACK>(i) + t];
    }
    word.byte(12 * t + i)
}

// The word goes into the memory: everything moves 17 places down, and the newest 17 bytes of each branch that waits go
// over it.
pub fn take_in<const BACK: bool, W: Word>(memory: &mut [u8; 1122], word: &W)
    ensures { memory.new ≡ memory_after (waits_of BACK) memory.old (λ b. get_or (W.bytes word.now) b 0) 1 }
{
    move_down(memory);
    for i in 0..12 {
        if waits::<BACK>(i) {
            put_newest::<W>(memory, word, first_of::<BACK>(i + 1) - 17, i);
        }
    }
}

// Everything in the memory moves 17 places down.
fn move_down(memory: &mut [u8; 1122])
    ensures { Moved memory.old memory.new }
{
    memory.copy_within(17.., 0);
}

// Puts the 17 bytes of branch i of the word at `at`.
fn put_newest<W: Word>(memory: &mut [u8; 1122], word: &W, at: usize, i: usize)
    requires { (at ≤ 1105) × (i < 12) }
    ensures { Newest at i 17 (W.bytes word.now) memory.old memory.new }
{
    for t in 0..17 {
        memory[at + t] = word.byte(12 * t + i);
    }
}

// Whether branch i waits: there each but the first does, and back each but the last.
fn waits<const BACK: bool>(i: usize) -> bool
    requires { i < 12 }
    ensures { result ≡ ltb 0 (waits_of BACK i) }
{
    if BACK {
        return i != 11;
    }
    i != 0
}

// Where branch i begins in the memory: there behind 17 × (0 + 1 + .. + (i − 1)) bytes, and back behind
// 17 × (11 + 10 + .. + (12 − i)).
fn first_of<const BACK: bool>(i: usize) -> usize
    requires { i ≤ 12 }
    ensures { result ≡ branch_start (waits_of BACK) i }
{
    if BACK {
        return 17 * (i * (23 - i) / 2);
    }
    17 * ((i * i - i) / 2)
}
