// Rule 1: the parity of a message and of a run of packets, which makes codewords of them, and the word sent.
#![tactic(auto)]

ghost use Rattle.std.specs.Prelude.{◌≡◌};
ghost use Rattle.settings.specs.Answers.{number_of};
ghost use Rattle.remainder.specs.Packets.{parities_of};
ghost use Rattle.codeword.specs.Parity.{ParityOf};
ghost use Rattle.codeword.specs.Run.{taking_parities};
ghost use Rattle.codeword.specs.Sent.{word_sent};

use settings::{Answer, Refusal};

// The parity of the 188 bytes of the message is put into the 16 bytes of `out`. Where a length is another, nothing is
// altered.
#[tactic(auto, using(crate::specs::Parity::refused, crate::proofs::Message::ends_parity))]
pub fn parity(message: &[u8], out: &mut [u8]) -> Answer
    ensures { ParityOf message.now out.old out.new (number_of result) }
{
    if message.len() != 188 {
        return Err(Refusal::WrongLength);
    }
    if out.len() != 16 {
        return Err(Refusal::WrongLength);
    }
    remainder::parities(message, out);
    Ok(())
}

// The parity of each of the packets of 188 bytes is put into 16 bytes of `out`, one behind the other. Where the lengths
// do not fit, nothing is altered.
pub fn parities(packets: &[u8], out: &mut [u8]) -> Answer
    ensures { (number_of result ≡ taking_parities packets.now out.old)
        × (out.new ≡ parities_of packets.now out.old) }
{
    if remainder::parities(packets, out) {
        return Ok(());
    }
    Err(Refusal::WrongLength)
}

// The word sent of a packet with this parity: its bytes 1 to 187, the parity, and 47, the sync byte of the packet after
// it. Zeros where a length is another than 188 or 16.
pub fn sent_word(packet: &[u8], parity: &[u8]) -> [u8; 204]
    ensures { result ≡ word_sent packet.now parity.now }
{
    let mut word = [0u8; 204];
    if packet.len() != 188 {
        return word;
    }
    if parity.len() != 16 {
        return word;
    }
    word[..187].copy_from_slice(&packet[1..]);
    word[187..203].copy_from_slice(parity);
    word[203] = 0x47;
    word
}
