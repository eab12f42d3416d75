// A packet's slot of 189 bytes, from the 203 bytes of a received word.
#![tactic(auto)]

ghost use Rattle.std.specs.Prelude.{◌≡◌};
ghost use Rattle.settings.specs.Answers.{number_of};
ghost use Rattle.nearest.specs.SlotEntry.{Given};
ghost use Rattle.slot.specs.Steps.{first_byte};

use nearest::Uncorrected;
use settings::{Answer, Refusal};

// The most bytes that are corrected.
const MOST: u8 = 8;

// The slot of the received word, whose dispersal is removed: its bytes 0 to 202. Where a length is another, nothing is
// altered.
pub fn give(received: &[u8], slot: &mut [u8]) -> Answer
    ensures { Given received.now slot.old slot.new (number_of result) }
{
    if received.len() != 203 {
        return Err(Refusal::WrongLength);
    }
    if slot.len() != 189 {
        return Err(Refusal::WrongLength);
    }
    let mut word = [0x47u8; 204];
    word[1..].copy_from_slice(received);
    let found = reed_solomon::correct(&mut word);
    let first = first_byte(found, word[0]);
    slot[0] = first;
    if first <= MOST {
        slot[1..].copy_from_slice(&word[..188]);
    } else {
        slot[1..].fill(0);
    }
    Ok(())
}

// The first byte of a slot, from what the correction found and the first byte of the word.
fn first_byte(found: Result<u8, Uncorrected>, start: u8) -> u8
    ensures { result ≡ first_byte found start }
{
    match found {
        Ok(n) if start == 0x47 => n,
        Ok(_) => 254,
        Err(_) => 255,
    }
}
