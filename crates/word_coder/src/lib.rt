// Rules 4 to 6 of document 01 for one word, as it came out of the byte interleaver: it is coded and punctured in blocks
// that keep 24 bits each, and its kept bits come out as symbols, v bits each. A block may begin in the word before, so
// what a word leaves over goes along.
#![tactic(auto)]

ghost use Rattle.std.specs.Prelude.{◌≡◌, ◌+◌, ◌-◌, ◌*◌, ◌/◌, ◌%◌, ◌<◌, ◌≤◌, get_or};
ghost use Rattle.lists.specs.Binary.{binary};
ghost use Rattle.lists.specs.Tab.{tab};
ghost use Rattle.settings.proofs.LegalSettings.{LegalBits};
ghost use Rattle.bit_interleaver.specs.Symbols.{symbol_of};
ghost use Rattle.rules.proofs.Counts.{per_block, blocks_in};
ghost use Rattle.dispersing_interleaver.specs.Stream.{stream_bit};
ghost use Rattle.word_coder.specs.Step.{kept_of_block, only_history, symbols_behind, KeptIn, step_of};

// What goes from word to word.
#[derive(Clone, Copy)]
pub struct Run {
    // How many of the last message bits no block has taken yet.
    pub left: usize,
    // The last 120 symbols.
    pub history: [u8; 120],
}

// A word's symbols behind the 120 before them, how many it has, and what goes on to the next word.
#[derive(Clone, Copy)]
pub struct Coded {
    pub run: Run,
    pub symbols: [u8; 1760],
    pub count: usize,
}

// The step of a word. `table` is the rate's of `puncturing`; the stream is `dispersing_interleaver`'s.
pub fn step(table: &[u32; 112], rate: u8, v: u8, run: Run, stream: &[u8; 212]) -> Coded
    ensures { result ≡ step_of table.now rate v run stream.now }
{
    let size = puncturing::block_length(rate);
    let history = run.history;
    if size == 0 {
        return Coded {
            run,
            symbols: with_history(&history),
            count: 0,
        };
    }
    let blocks = Blocks {
        size,
        left: run.left % size,
    };
    let symbols = blocks.symbols(table, stream, v, &history);
    let count = blocks.count() * per_block(v);
    Coded {
        run: Run {
            left: (blocks.left + 1632) % size,
            history: last_symbols(&symbols, count),
        },
        symbols,
        count,
    }
}

// How many symbols 24 kept bits are; none where v is not legal.
fn per_block(v: u8) -> usize
    ensures { result ≡ per_block v }
{
    if v == 6 {
        return 4;
    }
    if v == 4 {
        return 6;
    }
    if v == 2 {
        return 12;
    }
    0
}

// The blocks of a word: how many message bits keep 24 bits, and how many of the first block's the word before has left
// over.
#[derive(Clone, Copy)]
struct Blocks {
    size: usize,
    left: usize,
    ghost least: { 12 ≤ size },
    ghost most: { size ≤ 21 },
    ghost fewer: { left < size },
}

impl Blocks {
    // How many the word completes.
    fn count(self) -> usize
        ensures is { result ≡ blocks_in self.size self.left }
        ensures told { result ≡ (self.left + 1632) / self.size }
        ensures few { result ≤ 136 }
    {
        (self.left + 1632) / self.size
    }

    // The symbols of the word behind the 120 before them. Each v has its own call, so that the inner loop of each is
    // unrolled.
    fn symbols(
        self,
        table: &[u32; 112],
        stream: &[u8; 212],
        v: u8,
        history: &[u8; 120],
    ) -> [u8; 1760]
        ensures { result ≡ symbols_behind (kept_of_block table.now self.size self.left stream.now)
            (blocks_in self.size self.left)
            v history.now }
    {
        let kept = self.kept_bits(table, stream);
        if v == 6 {
            return symbols_by(&kept, self.count(), 6, 4, history);
        }
        if v == 4 {
            return symbols_by(&kept, self.count(), 4, 6, history);
        }
        if v == 2 {
            return symbols_by(&kept, self.count(), 2, 12, history);
        }
        with_history(history)
    }

    // The kept bits of each block, 24 in a number.
    fn kept_bits(self, table: &[u32; 112], stream: &[u8; 212]) -> [u32; 136]
        ensures { KeptIn (kept_of_block table.now self.size self.left stream.now) (blocks_in self.size self.left) result }
    {
        let mut kept = [0u32; 136];
        for s in 0..self.count() {
            kept[s] = puncturing::block(table, self.window(stream, 26 - self.left + self.size * s));
        }
        kept
    }

    // The bits of a block and the six before them, from bit `at` of the stream on, the first one highest.
    fn window(self, stream: &[u8; 212], at: usize) -> u32
        requires { at < 1664 }
        ensures { result ≡ binary (6 + self.size) (λ i. stream_bit stream.now (at + i)) }
    {
        let bits = five_bytes(stream, at / 8);
        ((bits >> (34 - self.size - at % 8)) % (1 << (self.size + 6))) as u32
    }
}

// The kept bits of so many blocks as symbols, `each` of them a block, behind the 120 before them.
fn symbols_by(
    kept: &[u32; 136],
    blocks: usize,
    v: usize,
    each: usize,
    history: &[u8; 120],
) -> [u8; 1760]
    requires { (blocks ≤ 136) × LegalBits v × (each ≡ per_block v) }
    ensures { result ≡ symbols_behind (λ s. get_or kept.now s 0) blocks v history.now }
{
    let mut symbols = with_history(history);
    for s in 0..blocks {
        for q in 0..each {
            symbols[120 + each * s + q] = symbol(v, kept[s], q);
        }
    }
    symbols
}

// The 120 symbols before a word, in front of nothing.
fn with_history(history: &[u8; 120]) -> [u8; 1760]
    ensures { result ≡ only_history history.now }
{
    let mut symbols = [0u8; 1760];
    symbols[..120].copy_from_slice(history);
    symbols
}

// Symbol q of 24 kept bits.
fn symbol(v: usize, bits: u32, q: usize) -> u8
    requires { LegalBits v × (q < per_block v) }
    ensures { result ≡ symbol_of v bits q }
{
    ((bits >> (24 - v - q * v)) % (1 << v)) as u8
}

// Five bytes of the stream as one number.
fn five_bytes(stream: &[u8; 212], k: usize) -> u64
    requires { k < 208 }
    ensures { result ≡ binary 40 (λ i. stream_bit stream.now (8 * k + i)) }
{
    u64::from(stream[k]) * 0x1_0000_0000
        + u64::from(stream[k + 1]) * 0x100_0000
        + u64::from(stream[k + 2]) * 0x1_0000
        + u64::from(stream[k + 3]) * 0x100
        + u64::from(stream[k + 4])
}

// The last 120 of a word's symbols and those before them.
fn last_symbols(symbols: &[u8; 1760], count: usize) -> [u8; 120]
    requires { count ≤ 1640 }
    ensures { result ≡ tab 120 (λ i. get_or symbols.now (count + i) 0) }
{
    let mut history = [0u8; 120];
    history.copy_from_slice(&symbols[count..count + 120]);
    history
}
