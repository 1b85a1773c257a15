// Striking a road, as before a closure.
#![tactic(auto)]

ghost use Rattle.std.specs.Prelude.{◌≡◌};
ghost use Rattle.mapcheck.specs.MapCheck.{outside};
ghost use Rattle.striking.specs.Striking.{Striking};

use replies::Refusal;
use roadmap::{RoadMap, Sizes};
use words::put_word;

// Whether the map has no road of this number.
pub fn is_unknown(sizes: Sizes, road: u32) -> bool
    ensures { result ≡ outside 1 sizes.roads road }
{
    !(1..=sizes.roads).contains(&road)
}

// Sets the road's to-junction to its from-junction. A refusal changes no byte.
pub fn strike(map: &mut [u8], road: u32) -> Result<(), Refusal>
    ensures { Striking map.old road map.new result }
{
    mapcheck::check_map(map)?;
    let sizes = roadmap::sizes_of(map);
    if is_unknown(sizes, road) {
        return Err(Refusal::UnknownRoad(road as usize));
    }
    let before = RoadMap { bytes: map, sizes };
    let from = before.road_from(road);
    put_word(map, sizes.road_at(road) + 4, from);
    Ok(())
}
