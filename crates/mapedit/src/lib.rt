// Names of junctions, and the making of chains.
#![tactic(auto)]

ghost use Rattle.std.specs.Prelude.{◌≡◌, ℕ, ◌≤◌};
ghost use Rattle.replies.specs.Told.{told_name};
ghost use Rattle.roadmap.specs.Format.{HasSizes};
ghost use Rattle.mapedit.specs.Name.{name_reply, name_at, name_part};
ghost use Rattle.mapedit.specs.Chaining.{chained, ChainMaking};
ghost use Rattle.mapedit.specs.Passes.{cleared, linked_before, FromKnown};

use replies::Refusal;
use roadmap::{RoadMap, Sizes};
use words::put_word;

// How long the junction's name is, or why there is none.
pub fn name_reply(map: &[u8], junction: u32) -> Result<usize, Refusal>
    ensures { told_name result ≡ name_reply map.now junction }
{
    mapcheck::check_map(map)?;
    let sizes = roadmap::sizes_of(map);
    if !(1..=sizes.junctions).contains(&junction) {
        return Err(Refusal::UnknownName(junction as usize));
    }
    let map = RoadMap { bytes: map, sizes };
    Ok(map.name_length(junction) as usize)
}

// Where in the map the junction's name starts, once its reply does not refuse.
pub fn name_place(map: &[u8], junction: u32) -> usize
    requires { (name_reply map.now junction).number ≡ 0 }
    ensures { result ≡ name_at map.now junction }
{
    let sizes = roadmap::sizes_of(map);
    let map = RoadMap { bytes: map, sizes };
    sizes.names_at() + map.name_start(junction) as usize
}

// The part of the map that spells the junction's name; empty where the reply refuses.
pub fn name(map: &[u8], junction: u32) -> &[u8]
    ensures { result.now ≡ name_part map.now junction }
{
    match name_reply(map, junction) {
        Ok(length) => {
            let from = name_place(map, junction);
            let end = from + length;
            &map[from..end]
        }
        Err(_) => &map[..0],
    }
}

// Leaves every junction without a first road.
fn clear_firsts(map: &mut [u8], sizes: Sizes)
    requires { HasSizes map.old sizes }
    ensures { map.new ≡ cleared map.old }
{
    for j in 1..=sizes.junctions {
        put_word(map, Sizes::junction_at(j), 0);
    }
}

// Puts road r before the other roads of its junction.
fn link_road(map: &mut [u8], sizes: Sizes, r: u32)
    requires has_sizes { HasSizes map.old sizes }
    requires le_r { (1 ≤ r) × (r ≤ sizes.roads) }
    requires from_known { FromKnown map.old r }
    ensures { map.new ≡ linked_before map.old r }
{
    let before = RoadMap { bytes: map, sizes };
    let from = before.road_from(r);
    let first = before.first_road(from);
    put_word(map, sizes.road_at(r) + 16, first);
    put_word(map, Sizes::junction_at(from), r);
}

// Links all roads, from the last to the first.
fn link_roads(map: &mut [u8], sizes: Sizes)
    requires has_sizes { HasSizes map.old sizes }
    requires by_index { (r : ℕ) → 1 ≤ r → r ≤ sizes.roads → FromKnown map.old r }
    requires map_value { cleared map.old ≡ map.old }
    ensures { map.new ≡ chained map.old }
{
    for r in (1..=sizes.roads).rev() {
        link_road(map, sizes, r);
    }
}

// Sets each junction's first road and each road's next, so that each chain rises through all its
// junction's roads. A refusal changes no byte.
pub fn make_chains(map: &mut [u8]) -> Result<(), Refusal>
    ensures { ChainMaking map.old map.new result }
{
    mapcheck::check_unchained(map)?;
    let sizes = roadmap::sizes_of(map);
    clear_firsts(map, sizes);
    link_roads(map, sizes);
    Ok(())
}
