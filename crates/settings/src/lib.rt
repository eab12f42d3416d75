// A layer's four numbers, the answers that every entry gives, and the sizes of a frame
// (document 01: "Settings and sizes", "Numbers of refusal", rule 5's patterns).
//
// Every function answers for all numbers: a size is 0 where the settings are not legal.
#![tactic(auto)]

ghost use Rattle.std.specs.Prelude.{◌≡◌, cond, ◌-◌, ◌^◌, ◌≤◌, eqb};
ghost use Rattle.lists.specs.Tests.{between};
ghost use Rattle.settings.specs.Answers.{number_of};
ghost use Rattle.settings.specs.Legal.{legal_bits, starting};
ghost use Rattle.settings.specs.Sizes.{packets_by_rate, packets_of, carriers_of};
ghost use Rattle.settings.specs.Patterns.{pattern_length, kept_below};

// The four numbers with which a layer is started. They are numbers and no enums, since each number that there is can be
// asked for, by C too, and one that is not legal is refused by a reason of its own.
#[derive(Clone, Copy)]
pub struct Settings {
    pub mode: u8,
    pub v: u8,
    pub rate: u8,
    pub segments: u8,
}

// Why a call is refused. Each reason has document 01's number.
#[derive(Clone, Copy, Debug, PartialEq, Eq, Hash)]
pub enum Refusal {
    ModeNotLegal = 1,
    BitsPerCarrierNotLegal = 2,
    RateNotLegal = 3,
    SegmentsNotLegal = 4,
    WrongLength = 5,
    WrongNumberOfCarriers = 6,
    StateNotGood = 7,
    SyncByteMissing = 8,
    NumberNotBelowP = 9,
    CarrierValueTooLarge = 10,
    TooManySegments = 12,
    LayerNotUsed = 13,
}

// What a call answers: done, or the first reason for a refusal that applies.
pub type Answer = Result<(), Refusal>;

// The number of an answer: 0 for done, another for a refusal.
pub fn number<Given: Copy>(answer: Result<Given, Refusal>) -> u8
    ensures { result ≡ number_of answer }
{
    match answer {
        Ok(_) => 0,
        Err(refusal) => refusal as u8,
    }
}

// What is told beside an answer: which packet it was on 8, and 0 on any other.
pub fn told(answer: Answer, packet: usize) -> usize
    ensures { result ≡ cond (eqb (number_of answer) 8) packet 0 }
{
    if answer == Err(Refusal::SyncByteMissing) {
        return packet;
    }
    0
}

// Whether a layer can be started with these numbers: done, or the first of 1, 2, 3 and 4 that applies.
#[tactic(auto, unfolding(crate::specs::Legal::starting))]
pub fn legal(settings: Settings) -> Answer
    ensures { number_of result ≡ starting settings }
{
    if !is_between(1, 3, settings.mode) {
        return Err(Refusal::ModeNotLegal);
    }
    if !is_legal_bits(settings.v) {
        return Err(Refusal::BitsPerCarrierNotLegal);
    }
    if !is_between(1, 5, settings.rate) {
        return Err(Refusal::RateNotLegal);
    }
    if !is_between(1, 13, settings.segments) {
        return Err(Refusal::SegmentsNotLegal);
    }
    Ok(())
}

// Whether a number is neither below the first nor above the last.
#[tactic(auto, unfolding(lists::specs::Tests::between))]
fn is_between(first: u8, last: u8, number: u8) -> bool
    ensures { result ≡ between first last number }
{
    (first <= number) & (number <= last)
}

// Whether v is 2, 4 or 6.
fn is_legal_bits(v: u8) -> bool
    ensures { result ≡ legal_bits v }
{
    (v == 2) | (v == 4) | (v == 6)
}

// P, the packets of a frame, or 0 where the settings are not legal: it can't fail, and the doors hand the number on.
pub fn packets(settings: Settings) -> usize
    ensures { result ≡ packets_of settings }
{
    if accepted(settings) {
        let halves = packets_by_rate(settings.rate) * usize::from(settings.v / 2);
        return halves * doublings(settings.mode) * usize::from(settings.segments);
    }
    0
}

// C, the carriers of a frame, or 0 where the settings are not legal, likewise.
pub fn carriers(settings: Settings) -> usize
    ensures { result ≡ carriers_of settings }
{
    if accepted(settings) {
        return 96 * doublings(settings.mode) * usize::from(settings.segments) * 204;
    }
    0
}

// Whether a start with these settings is done.
fn accepted(settings: Settings) -> bool
    ensures { result ≡ eqb (starting settings) 0 }
{
    legal(settings).is_ok()
}

// "12, 16, 18, 20 or 21 by rate"; no other number is a rate.
const PACKETS_BY_RATE: [usize; 6] = [0, 12, 16, 18, 20, 21];

// The packets of a frame of mode 1 with one segment and v = 2.
#[tactic(auto, unfolding(crate::specs::Sizes::packets_by_rate))]
fn packets_by_rate(rate: u8) -> usize
    ensures { (result ≡ packets_by_rate rate) × (result ≤ 21) }
{
    PACKETS_BY_RATE.get(usize::from(rate)).copied().unwrap_or(0)
}

// 2 to the power of one less than the mode, which is 1 to 3.
fn doublings(mode: u8) -> usize
    requires { mode ≤ 3 }
    ensures { (result ≡ 2 ^ (mode - 1)) × (result ≤ 4) }
{
    if mode == 3 {
        return 4;
    }
    if mode == 2 {
        return 2;
    }
    1
}

// The lengths of rule 5's patterns, by rate.
const PATTERN_LENGTHS: [usize; 6] = [0, 1, 2, 3, 5, 7];

// The length of a rate's pattern in message bits, or 0 for a number that is no rate: what it promises of every number.
#[tactic(auto, unfolding(crate::specs::Patterns::pattern_length))]
pub fn pattern_length(rate: u8) -> usize
    ensures { result ≡ pattern_length rate }
{
    PATTERN_LENGTHS.get(usize::from(rate)).copied().unwrap_or(0)
}

// How many bits are kept of the message bits of a frame below one.
pub fn kept_below(rate: u8, bit: u32) -> usize
    ensures { result ≡ kept_below rate bit }
{
    let length = pattern_length(rate);
    if length == 0 {
        return 0;
    }
    let n = bit as usize;
    n + (n + (length - 1)) / length
}
