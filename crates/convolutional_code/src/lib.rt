// Rule 4 of document 01, the convolutional code: a coded bit from its window of seven message bits.
#![tactic(auto)]

ghost use Rattle.std.specs.Prelude.{◌≡◌};
ghost use Rattle.lists.specs.Tab.{tab};
ghost use Rattle.rules.specs.Code.{parity};
ghost use Rattle.convolutional_code.specs.CodeTable.{turned, code_entry};

// The parity of the ones of a window under the taps.
#[tactic(auto, unfolding(rules::specs::Code::parity))]
pub fn parity_of(seven: u8, taps: u8) -> u8
    ensures { result ≡ parity taps seven }
{
    ((seven & taps).count_ones() % 2) as u8
}

// A register, newest bit highest, with its newest bit lowest; and back.
pub fn turned_register(register: u8) -> u8
    ensures { result ≡ turned 6 register }
{
    register.reverse_bits() >> 2
}

// Coded bits by window, newest bit lowest: Y at 0 to 127, X at 128 to 255.
pub fn code_table() -> [u8; 256]
    ensures { result ≡ tab 256 code_entry }
{
    let mut table = [0u8; 256];
    for seven in 0..128u8 {
        let bits = seven.reverse_bits() >> 1;
        table[usize::from(seven)] = parity_of(bits, 0o133);
        table[128 + usize::from(seven)] = parity_of(bits, 0o171);
    }
    table
}
