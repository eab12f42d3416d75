// The doors as C calls them: `rt lib` in this folder makes out/libwarintaya_c.a, which exports each function under its
// own name. The work is `warintaya`'s, a function of the same name for each, and so are the clauses.
#![tactic(auto)]

ghost use Rattle.std.specs.Prelude.{◌≡◌};
ghost use Rattle.settings.specs.Sizes.{packets_of, carriers_of};
ghost use Rattle.settings.specs.Areas.{settings_from};
ghost use Rattle.layers.specs.Start.{started_record};
ghost use Rattle.layers.specs.Calls.{Did, in_layer};
ghost use Rattle.layers.specs.Areas.{layers_in, starting_into, area_with, in_area};
ghost use Rattle.coding_answers.specs.Layers.{coding_kind, codes, replaces, disperses_interleaves};
ghost use Rattle.receiving_answers.specs.Layers.{receiving_kind, handed, goes_back};

// Starts the layers: the record before the first frames into the lent area, or zeros where the start is refused.
#[unsafe(no_mangle)]
pub extern "C" fn warintaya_start(mode: u8, layers: &[u8; 9], area: &mut [u8]) -> u8
    ensures { (result ≡ starting_into coding_kind (layers_in mode layers.now) area.old)
        × (area.new ≡ area_with coding_kind (started_record coding_kind (layers_in mode layers.now))
        area.old) }
{
    warintaya::warintaya_start(mode, layers, area)
}

// Codes a frame of the layer's packets into the lent carriers, and moves the layer's state on.
#[unsafe(no_mangle)]
pub extern "C" fn warintaya_code(
    area: &mut [u8],
    layer: u8,
    packets: &[u8],
    carriers: &mut [u8],
) -> u8
    ensures { Did (in_area coding_kind (in_layer coding_kind
        (codes packets.now carriers.old) carriers.old layer))
        area.old result area.new carriers.new }
{
    warintaya::warintaya_code(area, layer, packets, carriers)
}

// Replaces a packet of a frame of the layer that is coded already, in its carriers and in the state left behind it.
#[unsafe(no_mangle)]
pub extern "C" fn warintaya_replace(
    area: &mut [u8],
    layer: u8,
    carriers: &mut [u8],
    number: usize,
    old: &[u8],
    new: &[u8],
) -> u8
    ensures { Did (in_area coding_kind (in_layer coding_kind
        (replaces carriers.old number old.now new.now) carriers.old layer))
        area.old result area.new carriers.new }
{
    warintaya::warintaya_replace(area, layer, carriers, number, old, new)
}

// Disperses the word for its place in the layer's frame and byte-interleaves it by the layer's memory, from one lent
// word into another, and moves the layer's state on.
#[unsafe(no_mangle)]
pub extern "C" fn warintaya_disperse_interleave(
    area: &mut [u8],
    layer: u8,
    place: usize,
    word: &[u8],
    out: &mut [u8],
) -> u8
    ensures { Did (in_area coding_kind (in_layer coding_kind
        (disperses_interleaves place word.now out.old) out.old layer))
        area.old result area.new out.new }
{
    warintaya::warintaya_disperse_interleave(area, layer, place, word, out)
}

// Starts a receiver of the layers: the record before the first frames into the lent area, or zeros where the start is
// refused.
#[unsafe(no_mangle)]
pub extern "C" fn warintaya_receive_start(mode: u8, layers: &[u8; 9], area: &mut [u8]) -> u8
    ensures { (result ≡ starting_into receiving_kind (layers_in mode layers.now) area.old)
        × (area.new ≡ area_with receiving_kind (started_record receiving_kind (layers_in mode layers.now))
        area.old) }
{
    warintaya::warintaya_receive_start(mode, layers, area)
}

// Takes a frame of the layer's carriers, gives its packets into the lent slots, and moves the layer's state on. `given`
// is how many it gave.
#[unsafe(no_mangle)]
pub extern "C" fn warintaya_back(
    area: &mut [u8],
    layer: u8,
    carriers: &[u8],
    slots: &mut [u8],
    given: &mut u64,
) -> u8
    ensures { Did (in_area receiving_kind (in_layer receiving_kind
        (goes_back carriers.now slots.old) (handed slots.old 0) layer))
        area.old result area.new (handed slots.new given.new) }
{
    warintaya::warintaya_back(area, layer, carriers, slots, given)
}

// P, the packets of a frame, or 0 where the settings are not legal.
#[unsafe(no_mangle)]
pub extern "C" fn warintaya_packets(mode: u8, v: u8, rate: u8, segments: u8) -> usize
    ensures { result ≡ packets_of (settings_from mode v rate segments) }
{
    warintaya::warintaya_packets(mode, v, rate, segments)
}

// C, the carriers of a frame, or 0 where the settings are not legal.
#[unsafe(no_mangle)]
pub extern "C" fn warintaya_carriers(mode: u8, v: u8, rate: u8, segments: u8) -> usize
    ensures { result ≡ carriers_of (settings_from mode v rate segments) }
{
    warintaya::warintaya_carriers(mode, v, rate, segments)
}
