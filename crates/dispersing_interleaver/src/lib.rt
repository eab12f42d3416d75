// Rules 2 and 3 of document 01 for one word, in one walk: the sequence is added to each byte and the byte is handed to
// its branch, in the same step. What comes out of the branches goes into the stream that rule 4 takes its message bits
// from.
#![tactic(auto)]

ghost use Rattle.std.specs.Prelude.{◌≡◌, get_or};
ghost use Rattle.rules.specs.Bytes.{waits_there, word_out, memory_after};
ghost use Rattle.dispersal.specs.Register.{added};
ghost use Rattle.dispersing_interleaver.specs.Stream.{stream_after};

use byte_interleaver::Word;

// A word to which its sequence is added as it is read.
#[derive(Clone, Copy)]
struct Dispersed<'a> {
    word: &'a [u8; 204],
    sequence: &'a [u8; 204],
}

impl Word for Dispersed<'_> {
    ghost bytes = { λ dispersed. added dispersed.word.now dispersed.sequence.now };

    // The sequence isn't added at byte 203.
    #[tactic(auto, using(crate::proofs::Added::below, crate::proofs::Added::last, crate::proofs::Added::past))]
    fn byte(&self, j: usize) -> u8 {
        if j < 203 {
            return self.word[j] ^ self.sequence[j];
        }
        if j == 203 {
            return self.word[203];
        }
        0
    }
}

// The word goes in and another comes out, which goes into the stream behind the last four bytes of the word before.
pub fn walk(memory: &mut [u8; 1122], sequence: &[u8; 204], word: &[u8; 204], stream: &mut [u8; 212])
    ensures memory_after { memory.new ≡ memory_after waits_there memory.old
        (λ b. get_or (added word.now sequence.now) b 0) 1 }
    ensures stream_after { stream.new ≡ stream_after stream.old
        (word_out waits_there memory.old (added word.now sequence.now)) }
{
    let dispersed = Dispersed { word, sequence };
    stream.copy_within(204..208, 0);
    stream[4..208].copy_from_slice(&byte_interleaver::word_out::<false, Dispersed>(
        memory, &dispersed,
    ));
    byte_interleaver::take_in::<false, Dispersed>(memory, &dispersed);
}
