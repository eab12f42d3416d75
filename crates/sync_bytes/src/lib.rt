// The byte 47 with which each packet begins, and the first packet that lacks it.
#![tactic(auto)]

ghost use Rattle.std.specs.Prelude.{◌≡◌, ◌*◌, eqb, get_or};
ghost use Rattle.lists.specs.Tests.{first_failing};

// The number of the first packet that doesn't begin with 47, or isn't there; where all of them do, their count.
// The search ends there, and reads no packet behind it.
pub fn first_lacking(packets: &[u8], count: usize) -> usize
    ensures { result ≡ first_failing count (λ p. eqb (get_or packets.now (188 * p) 0) 0x47) }
{
    for p in 0..count {
        let lacks = !begins(packets, 188 * p);
        if lacks {
            return p;
        }
    }
    count
}

// Whether 47 stands at the place.
pub fn begins(packets: &[u8], place: usize) -> bool
    ensures { result ≡ eqb (get_or packets.now place 0) 0x47 }
{
    packets.get(place).is_some_and(|byte| *byte == 0x47)
}
