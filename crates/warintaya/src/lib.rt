// The doors for C, which `warintaya_c` exports. A slice goes as a pointer and a length, a coding record as 4,462 lent
// bytes and a receiving record as 13,681: the mode, then layers A, B and C, each a state in document 01's order. Each
// call names its layer, 0, 1 or 2, and answers for every input: 0, or the number of the refusal.
#![tactic(auto)]

ghost use Rattle.std.specs.Prelude.{◌≡◌, ◌≤◌};
ghost use Rattle.settings.specs.Sizes.{packets_of, carriers_of};
ghost use Rattle.settings.specs.Areas.{settings_from};
ghost use Rattle.layers.specs.Start.{started_record};
ghost use Rattle.layers.specs.Calls.{Did, in_layer};
ghost use Rattle.layers.specs.Areas.{layer_at, layers_in, starting_into, area_with, in_area};
ghost use Rattle.layer_start.specs.Start.{layers_of};
ghost use Rattle.coding_answers.specs.Layers.{coding_kind, codes, replaces, disperses_interleaves};
ghost use Rattle.receiving_answers.specs.Layers.{receiving_kind, handed, goes_back};

use coding_state::State as CodingState;
use layer_records::Record;
use layer_start::Start;
use layers::Layer;
use receiving_state::State as ReceivingState;
use settings::Settings;

// Starts the layers: the record before the first frames into the lent area, or zeros where the start is refused.
pub fn warintaya_start(mode: u8, layers: &[u8; 9], area: &mut [u8]) -> u8
    ensures { (result ≡ starting_into coding_kind (layers_in mode layers.now) area.old)
        × (area.new ≡ area_with coding_kind (started_record coding_kind (layers_in mode layers.now))
        area.old) }
{
    settings::number(Record::<CodingState>::start_into(start_of(mode, layers), area))
}

// Codes a frame of the layer's packets into the lent carriers, and moves the layer's state on.
pub fn warintaya_code(area: &mut [u8], layer: u8, packets: &[u8], carriers: &mut [u8]) -> u8
    ensures { Did (in_area coding_kind (in_layer coding_kind
        (codes packets.now carriers.old) carriers.old layer))
        area.old result area.new carriers.new }
{
    let mut record = Record::read(area);
    let answer = coding_layers::code(&mut record, layer, packets, carriers);
    record.put(area);
    settings::number(answer)
}

// Replaces a packet of a frame of the layer that is coded already, in its carriers and in the state left behind it.
pub fn warintaya_replace(
    area: &mut [u8],
    layer: u8,
    carriers: &mut [u8],
    number: usize,
    old: &[u8],
    new: &[u8],
) -> u8
    ensures { Did (in_area coding_kind (in_layer coding_kind
        (replaces carriers.old number old.now new.now) carriers.old layer))
        area.old result area.new carriers.new }
{
    let mut record = Record::read(area);
    let answer = coding_layers::replace(&mut record, layer, carriers, number, old, new);
    record.put(area);
    settings::number(answer)
}

// Disperses the word for its place in the layer's frame and byte-interleaves it by the layer's memory, from one lent
// word into another, and moves the layer's state on.
pub fn warintaya_disperse_interleave(
    area: &mut [u8],
    layer: u8,
    place: usize,
    word: &[u8],
    out: &mut [u8],
) -> u8
    ensures { Did (in_area coding_kind (in_layer coding_kind
        (disperses_interleaves place word.now out.old) out.old layer))
        area.old result area.new out.new }
{
    let mut record = Record::read(area);
    let answer = coding_layers::disperse_interleave(&mut record, layer, place, word, out);
    record.put(area);
    settings::number(answer)
}

// Starts a receiver of the layers: the record before the first frames into the lent area, or zeros where the start is
// refused.
pub fn warintaya_receive_start(mode: u8, layers: &[u8; 9], area: &mut [u8]) -> u8
    ensures { (result ≡ starting_into receiving_kind (layers_in mode layers.now) area.old)
        × (area.new ≡ area_with receiving_kind (started_record receiving_kind (layers_in mode layers.now))
        area.old) }
{
    settings::number(Record::<ReceivingState>::start_into(start_of(mode, layers), area))
}

// Takes a frame of the layer's carriers, gives its packets into the lent slots, and moves the layer's state on. `given`
// is how many it gave.
pub fn warintaya_back(
    area: &mut [u8],
    layer: u8,
    carriers: &[u8],
    slots: &mut [u8],
    given: &mut u64,
) -> u8
    ensures { Did (in_area receiving_kind (in_layer receiving_kind
        (goes_back carriers.now slots.old) (handed slots.old 0) layer))
        area.old result area.new (handed slots.new given.new) }
{
    let mut record = Record::read(area);
    let answer = receiving_layers::back(&mut record, layer, carriers, slots);
    record.put(area);
    *given = answer.unwrap_or(0) as u64;
    settings::number(answer)
}

// P, the packets of a frame, or 0 where the settings are not legal.
pub fn warintaya_packets(mode: u8, v: u8, rate: u8, segments: u8) -> usize
    ensures { result ≡ packets_of (settings_from mode v rate segments) }
{
    settings::packets(Settings {
        mode,
        v,
        rate,
        segments,
    })
}

// C, the carriers of a frame, or 0 where the settings are not legal.
pub fn warintaya_carriers(mode: u8, v: u8, rate: u8, segments: u8) -> usize
    ensures { result ≡ carriers_of (settings_from mode v rate segments) }
{
    settings::carriers(Settings {
        mode,
        v,
        rate,
        segments,
    })
}

// What a start is given: the mode, and the nine bytes as three layers.
fn start_of(mode: u8, layers: &[u8; 9]) -> Start
    ensures { layers_of result ≡ layers_in mode layers.now }
{
    Start {
        mode,
        a: layer_at(layers, 0),
        b: layer_at(layers, 3),
        c: layer_at(layers, 6),
    }
}

// The three numbers of a layer, from a place on.
fn layer_at(bytes: &[u8; 9], place: usize) -> Layer
    requires { place ≤ 6 }
    ensures { result ≡ layer_at bytes.now place }
{
    Layer {
        v: bytes[place],
        rate: bytes[place + 1],
        segments: bytes[place + 2],
    }
}
