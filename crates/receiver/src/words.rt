// A word's way back: its message from the received pairs, the message's bytes, and the bytes through the branches.
ghost use Rattle.std.specs.Prelude.{◌≡◌, ◌<◌, ◌≤◌, length};
ghost use Rattle.receiving_answers.specs.Words.{message_of};
ghost use Rattle.receiver.specs.Steps.{PairsIn, word_of_pairs, finished_by};

// What goes from word to word: the byte branches, and the register.
#[derive(Clone, Copy)]
pub(super) struct Run {
    pub memory: [u8; 1122],
    pub register: u8,
}

// A finished word, and what goes on to the next.
#[derive(Clone, Copy)]
pub(super) struct Finished {
    pub run: Run,
    pub word: [u8; 204],
}

// A word goes in by its pairs, which begin at `lead`. `table` is lent for the work.
pub(super) fn finish(
    run: Run,
    pairs: &[u8; 1680],
    lead: usize,
    table: &mut [u8; 104512],
) -> Finished
    requires { (lead ≤ 48) × (run.register < 64) × PairsIn pairs.now }
    ensures { (result ≡ finished_by run (word_of_pairs pairs.now lead)) × (result.run.register < 64) }
{
    let message = message_of(pairs, lead, run.register, table);
    let bytes = received_bits::bytes_of(&message);
    let register = received_bits::register_of(&message);
    let before = run.memory;
    let memory = byte_interleaver::memory_back(&before, &bytes);
    let word = byte_interleaver::out_back(&before, &bytes);
    let after = Run { memory, register };
    Finished { run: after, word }
}

// The message of a word.
fn message_of(pairs: &[u8], lead: usize, register: u8, table: &mut [u8; 104512]) -> [u8; 1632]
    requires { (lead ≤ 48) × (register < 64) × PairsIn pairs.now × (length pairs.now ≡ 1680) }
    ensures { result ≡ message_of (word_of_pairs pairs.now lead) register }
{
    let mut message = [0u8; 1632];
    let end = lead + 1632;
    best_message::best_message(&pairs[lead..end], register, table, &mut message);
    message
}
