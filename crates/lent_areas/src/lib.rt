// Parts of a lent area: bytes copied out of it, and bytes put into it, for every place and length; whether entries
// are bits.
#![tactic(auto)]

ghost use Rattle.std.specs.Prelude.{◌≡◌, ◌⊎◌, ◌-◌, ◌≤◌, length};
ghost use Rattle.lists.specs.Tab.{part_of};
ghost use Rattle.lists.specs.Tests.{bits_then_zeros};
ghost use Rattle.lists.proofs.Parts.{with_part};

// Copies the bytes of an area from a place on; where the area has ended, zeros.
pub fn copy_out(area: &[u8], place: usize, out: &mut [u8])
    ensures { out.new ≡ part_of area.now place (length out.old) }
{
    let there = &area[place.min(area.len())..];
    let count = there.len().min(out.len());
    let (copied, behind) = out.split_at_mut(count);
    copied.copy_from_slice(&there[..count]);
    behind.fill(0);
}

// Puts the bytes into an area from a place on, as far as it has room.
pub fn put_in(bytes: &[u8], place: usize, area: &mut [u8])
    ensures { area.new ≡ with_part bytes.now place area.old }
{
    let from = place.min(area.len());
    let count = bytes.len().min(area.len() - from);
    area[from..from + count].copy_from_slice(&bytes[..count]);
}

// Whether the first `used` entries are 0 or 1, and the others zero.
pub fn bits_then_zeros(entries: &[u8], used: usize) -> bool
    ensures { result ≡ bits_then_zeros used entries.now }
{
    let bits = used.min(entries.len());
    let mut all = true;
    for entry in &entries[..bits] {
        all &= *entry < 2;
    }
    for entry in &entries[bits..] {
        all &= *entry < 1;
    }
    all
}
