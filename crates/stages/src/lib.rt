// Single stages of going back, parities, and frames of a layer alone, for C, for the benchmark and for checks from
// outside: `rt lib` in this folder makes out/libstages.a, and host/bench/stages.h declares them. A slice goes as a
// pointer and a length. Each answers for every input: 0, or the number of the refusal, and then nothing is altered.
#![tactic(auto)]

ghost use Rattle.std.specs.Prelude.{◌≡◌};
ghost use Rattle.lists.specs.Tab.{part_of};
ghost use Rattle.lists.proofs.Parts.{with_part};
ghost use Rattle.settings.specs.Answers.{reason_number};
ghost use Rattle.remainder.specs.Packets.{parities_of};
ghost use Rattle.codeword.specs.Parity.{ParityOf};
ghost use Rattle.codeword.specs.Run.{taking_parities};
ghost use Rattle.nearest.specs.Correction.{told_of, refusal_of};
ghost use Rattle.nearest.specs.SlotEntry.{Given};
ghost use Rattle.layers.specs.Calls.{Did, in_layer};
ghost use Rattle.layers.specs.Areas.{in_area};
ghost use Rattle.coding_answers.specs.Layers.{coding_kind, codes};
ghost use Rattle.coding_state.specs.Bytes.{coding_state_of, coding_bytes};
ghost use Rattle.coding_answers.specs.Coding.{coding, state_coded, coded_into};
ghost use Rattle.receiving_state.specs.Bytes.{receiving_state_of, receiving_bytes};
ghost use Rattle.receiving_answers.specs.Receiving.{receiving, state_received};
ghost use Rattle.receiving_answers.specs.Layers.{receiving_kind, handed, HandedOut, goes_back};
ghost use Rattle.stages.specs.Stages.{CorrectionTold};
ghost use Rattle.stages.specs.BestMessage.{fitting, refusing, BestMessage};

use coding_state::State as CodingState;
use layer_records::Record;
use layers::LayerState;
use nearest::Uncorrected;
use receiving_state::State as ReceivingState;
use settings::Refusal;

// The 16 parity bytes of the 188 bytes of a message.
#[unsafe(no_mangle)]
pub extern "C" fn stages_parity(message: &[u8], parity: &mut [u8]) -> u8
    ensures { ParityOf message.now parity.old parity.new result }
{
    settings::number(codeword::parity(message, parity))
}

// The word of 204 bytes becomes the one codeword that differs in at most eight bytes. `corrected` is how many
// differed, or 255 where there is none and the word stays as it was.
#[unsafe(no_mangle)]
pub extern "C" fn stages_correct(word: &mut [u8], corrected: &mut u8) -> u8
    ensures { CorrectionTold word.old word.new corrected.new result }
{
    let found = reed_solomon::correct(word);
    *corrected = told(found);
    refusal(found)
}

// The slot of 189 bytes of a received word, from its bytes 0 to 202 with the dispersal taken off.
#[unsafe(no_mangle)]
pub extern "C" fn stages_slot(received: &[u8], slot: &mut [u8]) -> u8
    ensures { Given received.now slot.old slot.new result }
{
    settings::number(slot::give(received, slot))
}

// The parities of a run of packets, 16 bytes for each 188.
#[unsafe(no_mangle)]
pub extern "C" fn stages_parities(packets: &[u8], parities: &mut [u8]) -> u8
    ensures { (result ≡ taking_parities packets.now parities.old)
        × (parities.new ≡ parities_of packets.now parities.old) }
{
    settings::number(codeword::parities(packets, parities))
}

// Codes a frame in a layer alone, with its state in 1,487 lent bytes: what a frame in a record is held against.
#[unsafe(no_mangle)]
pub extern "C" fn stages_code(state: &mut [u8], packets: &[u8], carriers: &mut [u8]) -> u8
    ensures { let before = coding_state_of (part_of state.old 0 1487) in
        (result ≡ coding before packets.now carriers.old)
        × (state.new ≡ with_part
        (coding_bytes (state_coded before packets.now carriers.old)) 0 state.old)
        × (carriers.new ≡ coded_into before packets.now carriers.old) }
{
    let mut layer = CodingState::read(state, 0);
    let answer = coder::code(&mut layer, packets, carriers);
    layer.put(0, state);
    settings::number(answer)
}

// Goes back in a layer alone, with its state in 4,560 lent bytes: what a frame in a record is held against.
#[unsafe(no_mangle)]
pub extern "C" fn stages_back(
    state: &mut [u8],
    carriers: &[u8],
    slots: &mut [u8],
    given: &mut u64,
) -> u8
    ensures { let before = receiving_state_of (part_of state.old 0 4560) in
        (result ≡ receiving before carriers.now slots.old)
        × (state.new ≡ with_part
        (receiving_bytes (state_received before carriers.now slots.old)) 0 state.old)
        × HandedOut before carriers.now slots.old
        (handed slots.new given.new) }
{
    let mut layer = ReceivingState::read(state, 0);
    let answer = receiver::back(&mut layer, carriers, slots);
    layer.put(0, state);
    *given = answer.unwrap_or(0) as u64;
    settings::number(answer)
}

// The door `warintaya_code` once more, compiled beside the layer alone, so that the two can be held against each other.
#[unsafe(no_mangle)]
pub extern "C" fn stages_code_in_record(
    area: &mut [u8],
    layer: u8,
    packets: &[u8],
    carriers: &mut [u8],
) -> u8
    ensures { Did (in_area coding_kind (in_layer coding_kind
        (codes packets.now carriers.old) carriers.old layer))
        area.old result area.new carriers.new }
{
    let mut record = Record::read(area);
    let answer = coding_layers::code(&mut record, layer, packets, carriers);
    record.put(area);
    settings::number(answer)
}

// The door `warintaya_back` likewise.
#[unsafe(no_mangle)]
pub extern "C" fn stages_back_in_record(
    area: &mut [u8],
    layer: u8,
    carriers: &[u8],
    slots: &mut [u8],
    given: &mut u64,
) -> u8
    ensures { Did (in_area receiving_kind (in_layer receiving_kind
        (goes_back carriers.now slots.old) (handed slots.old 0) layer))
        area.old result area.new (handed slots.new given.new) }
{
    let mut record = Record::read(area);
    let answer = receiving_layers::back(&mut record, layer, carriers, slots);
    record.put(area);
    *given = answer.unwrap_or(0) as u64;
    settings::number(answer)
}

// How many bytes were corrected, or 255.
fn told(found: Result<u8, Uncorrected>) -> u8
    ensures { result ≡ told_of found }
{
    match found {
        Ok(n) => n,
        Err(Uncorrected::TooFar) => 255,
        Err(Uncorrected::WrongLength) => 0,
    }
}

// The number of refusal of a correction.
fn refusal(found: Result<u8, Uncorrected>) -> u8
    ensures { result ≡ refusal_of found }
{
    match found {
        Ok(_) => 0,
        Err(Uncorrected::TooFar) => 0,
        Err(Uncorrected::WrongLength) => 5,
    }
}

// The best message of the received pairs from a register, a byte 0 or 1 for each bit. `table` is lent for the work. 7
// for a register of 64 or more, 5 where the lengths do not fit, 10 for a pair of 9 or more.
#[unsafe(no_mangle)]
pub extern "C" fn stages_best_message(
    pairs: &[u8],
    register: u8,
    table: &mut [u8],
    message: &mut [u8],
) -> u8
    ensures { BestMessage pairs.now register table.old message.old
        table.new message.new result }
{
    let room = table.len();
    let bits = message.len();
    if best_message::best_message(pairs, register, table, message) {
        return 0;
    }
    let refusal = best_message_refusal(pairs.len(), register, room, bits);
    settings::number::<()>(Err(refusal))
}

// Why a best message is refused, by the number of pairs, the register, and the lengths of the table and the message.
#[tactic(auto, unfolding(crate::specs::BestMessage::refusing))]
fn best_message_refusal(count: usize, register: u8, room: usize, bits: usize) -> Refusal
    ensures { reason_number result ≡ refusing count register room bits }
{
    if 64 <= register {
        return Refusal::StateNotGood;
    }
    if !fit(count, room, bits) {
        return Refusal::WrongLength;
    }
    Refusal::CarrierValueTooLarge
}

// Whether the lengths fit one another.
#[tactic(auto, unfolding(crate::specs::BestMessage::fitting))]
fn fit(count: usize, room: usize, bits: usize) -> bool
    ensures { result ≡ fitting count room bits }
{
    count <= 1728 && bits == count && 64 * count + 64 <= room
}
