// The best message of received pairs: of all messages the one with the fewest disagreements, and of equals the one with
// 0 at the first bit where they differ. A table of bytes is filled from behind: its row t has, for each register, twice
// the fewest disagreements from pair t on, with the better bit in the lowest place, less a number that is the same over
// the row and keeps the entries small. Then the message is read by walking along the better bits.
#![tactic(auto)]

ghost use Rattle.std.specs.Prelude.{◌≡◌, cond, map, ◌+◌, ◌/◌, ◌%◌, ◌≤◌, ◌<◌, min, max, eqb, length};
ghost use Rattle.lists.specs.Tab.{tab};
ghost use Rattle.lists.specs.Tests.{all_below};
ghost use Rattle.fewest.specs.Best.{bit, miss, best};
ghost use Rattle.fewest.proofs.Flips.{there};
ghost use Rattle.best_message.specs.Entry.{is_pair, accepted, MessageFound};
ghost use Rattle.best_message.specs.Steps.{digit_cost, Ready, CostsStepped, Lowering, Lowered, Cleared, Room};
ghost use Rattle.best_message.specs.Steps.{Filled, Walk};

// The best message of the received pairs from a register, a byte 0 or 1 for each bit. A pair is 3 x + y, a digit the
// bit received or 2 where none was. `table` is lent for the work. True where there are at most 1,728 pairs, each
// below 9, the register is below 64, the message is as long as the pairs, and the table has 64 bytes for each pair
// and 64 more; otherwise nothing is altered. (A bool, which the clause gives as a value: an `Option<()>` says no more.)
pub fn best_message(pairs: &[u8], register: u8, table: &mut [u8], message: &mut [u8]) -> bool
    ensures { MessageFound pairs.now register table.old message.old
        table.new message.new result }
{
    if !is_accepted(pairs, register, table.len(), message.len()) {
        return false;
    }
    fill(pairs, table);
    walk(pairs, table, usize::from(register), message);
    true
}

// Whether the lengths fit, and the pairs and the register are in their ranges.
#[tactic(auto, unfolding(crate::specs::Entry::accepted))]
fn is_accepted(pairs: &[u8], register: u8, room: usize, bits: usize) -> bool
    ensures { result ≡ accepted pairs.now register room bits }
{
    let count = pairs.len();
    if count > 1728 {
        return false;
    }
    (bits == count) & (64 * count + 64 <= room) & (register < 64) & are_pairs(pairs)
}

// Whether each number is a pair: whether the highest is below 9.
fn are_pairs(pairs: &[u8]) -> bool
    ensures { result ≡ all_below (length pairs.now) (is_pair pairs.now) }
{
    let mut highest: u8 = 0;
    for pair in pairs {
        highest = highest.max(*pair);
    }
    highest < 9
}

// The whole table, from the last row to the first.
fn fill(pairs: &[u8], table: &mut [u8])
    requires { Room pairs.now table.old }
    ensures { Filled pairs.now table.old table.new }
{
    let x_costs = digit_costs(0o171);
    let y_costs = digit_costs(0o133);
    clear(table, 64 * pairs.len());
    let mut since = 0;
    for t in (0..pairs.len()).rev() {
        step(pairs, t, &x_costs, &y_costs, table);
        since = lower(table, 64 * t, since + 1);
    }
}

// Twice what each digit, 0, 1 or 2, costs against what the register 2 k sends for the bit 0 by some taps: at 32 digit
// + k.
fn digit_costs(taps: u8) -> [u8; 96]
    ensures { result ≡ tab 96 (digit_cost taps) }
{
    let mut costs = [0u8; 96];
    for place in 0..96u8 {
        let sent = convolutional_code::parity_of(2 * (place % 32), taps);
        costs[usize::from(place)] = 2 * missed(place / 32, sent);
    }
    costs
}

// 1 where the digit is a bit and not the one sent.
#[tactic(auto, unfolding(fewest::specs::Best::miss))]
fn missed(digit: u8, sent: u8) -> u8
    ensures { result ≡ miss digit sent }
{
    u8::from(digit < 2 && digit != sent)
}

// How many bits of a pair were received.
fn received(pair: usize) -> u8
    ensures { result ≡ there (pair / 3) + there (pair % 3) }
{
    is_there(pair / 3) + is_there(pair % 3)
}

// 1 where the digit is a bit.
#[tactic(auto, unfolding(fewest::proofs::Flips::there))]
fn is_there(digit: usize) -> u8
    ensures value { result ≡ there digit }
    ensures at_most_1 { result ≤ 1 }
{
    u8::from(digit < 2)
}

// One step back: row t of the table from row t + 1, less the same number. The registers 2 k and 2 k + 1 have the same
// two successors, k and 32 + k, and what one sends for a bit the other sends for the other bit. The two halves are
// local arrays, so that the compiler sees that no store of the first loop changes what it loads.
fn step(pairs: &[u8], t: usize, xcosts: &[u8; 96], ycosts: &[u8; 96], table: &mut [u8])
    requires { Ready pairs.now xcosts.now ycosts.now t table.old }
    ensures { CostsStepped pairs.now t table.old table.new }
{
    let pair = pairs[t] as usize;
    let x_at = 32 * (pair / 3);
    let y_at = 32 * (pair % 3);
    let both = 2 * received(pair);
    let at = 64 * t;
    let mut even = [0u8; 32];
    let mut odd = [0u8; 32];
    for k in 0..32 {
        let zero = table[at + 64 + k] / 2 * 2;
        let one = table[at + 96 + k] / 2 * 2 + 1;
        let zero_cost = xcosts[x_at + k] + ycosts[y_at + k];
        let one_cost = both - zero_cost;
        even[k] = (zero_cost + zero).min(one_cost + one);
        odd[k] = (one_cost + zero).min(zero_cost + one);
    }
    for j in 0..32 {
        table[at + 2 * j] = even[j];
        table[at + 2 * j + 1] = odd[j];
    }
}

// After 32 steps, the row less what its entries can spare. The result is how many steps have gone since.
fn lower(table: &mut [u8], at: usize, since: usize) -> usize
    requires { Lowering table.old at since }
    ensures { Lowered table.old at since result table.new }
{
    if since < 32 {
        return since;
    }
    let first = table[at] / 2 * 2;
    if first <= 24 {
        return 0;
    }
    let spare = first - 24;
    for j in 0..64 {
        table[at + j] -= spare;
    }
    0
}

// The row after the last step.
fn clear(table: &mut [u8], at: usize)
    requires { at + 64 ≤ length table.old }
    ensures { Cleared table.old at table.new }
{
    table[at..at + 64].fill(0);
}

// The walk from a register along the better bits. Of both registers that can follow the better bit is read before it is
// known which of them does follow, so that no reading has to wait for the one before it.
fn walk(pairs: &[u8], table: &[u8], start: usize, message: &mut [u8])
    requires { Walk pairs.now table.now start message.old }
    ensures { message.new ≡ map bit (best pairs.now start) }
{
    let mut register = start;
    let mut better = table[start] % 2;
    for t in 0..pairs.len() {
        message[t] = better;
        let half = register / 2;
        let zero = table[64 * t + 64 + half] % 2;
        let one = table[64 * t + 96 + half] % 2;
        register = half + 32 * usize::from(better);
        better = picked(better, zero, one);
    }
}

// The bit `zero` or the bit `one`, by another bit. There is no branch, which would often be guessed wrong.
fn picked(which: u8, zero: u8, one: u8) -> u8
    requires { (which < 2) × (zero < 2) × (one < 2) }
    ensures { result ≡ cond (eqb which 0) zero one }
{
    zero ^ ((zero ^ one) & which)
}
