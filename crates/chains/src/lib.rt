// The chain reader: the map together with the road that it has reached. The functions over it are thin; the work is in
// `first_on_chain` and `next_on_chain`, which read the map's sizes from its header. A caller that keeps the road's number
// alone goes through a reader by `first_of_junction` and `road_after`.
#![tactic(auto)]

ghost use Rattle.std.specs.Prelude.{◌≡◌};
ghost use Rattle.roadmap.specs.Format.{HasSizes, first_road, next_road};
ghost use Rattle.chains.specs.Reached.{counts_of, JunctionOn, RoadOn};

use roadmap::RoadMap;

#[derive(Clone, Copy)]
pub struct ChainReader<'a> {
    pub map: &'a [u8],
    pub road: u32,
}

// The map with the counts of its header.
fn counted<'a>(map: &'a [u8]) -> RoadMap<'a>
    requires { HasSizes map.now (counts_of map.now) }
    ensures { (result.bytes ≡ map.entry) × (result.sizes ≡ counts_of map.now) }
{
    RoadMap {
        bytes: map,
        sizes: roadmap::sizes_of(map),
    }
}

fn first_on_chain(map: &[u8], j: u32) -> u32
    requires { JunctionOn map.now j }
    ensures { result ≡ first_road map.now j }
{
    counted(map).first_road(j)
}

fn next_on_chain(map: &[u8], road: u32) -> u32
    requires { RoadOn map.now road }
    ensures { result ≡ next_road map.now road }
{
    counted(map).next_road(road)
}

// The reader at junction j's first road, 0 where its chain is empty.
pub fn at_junction<'a>(map: &'a [u8], j: u32) -> ChainReader<'a>
    requires { JunctionOn map.now j }
    ensures { (result.map ≡ map.entry) × (result.road ≡ first_road map.now j) }
{
    let road = first_on_chain(map, j);
    ChainReader { map, road }
}

// The reader moved on to the next road of the chain, 0 at the chain's end.
pub fn moved_on<'a>(reader: ChainReader<'a>) -> ChainReader<'a>
    requires { RoadOn reader.map.now reader.road }
    ensures { (result.map ≡ reader.entry.map) × (result.road ≡ next_road reader.entry.map.now reader.entry.road) }
{
    let map = reader.map;
    let road = next_on_chain(map, reader.road);
    ChainReader { map, road }
}

// The road of a reader at junction j: its first, 0 where its chain is empty.
pub fn first_of_junction(map: &[u8], j: u32) -> u32
    requires { JunctionOn map.now j }
    ensures { result ≡ first_road map.now j }
{
    let reader = at_junction(map, j);
    reader.road
}

// The road of a reader moved on from this road: the next of the chain, 0 at the chain's end.
pub fn road_after(map: &[u8], road: u32) -> u32
    requires { RoadOn map.now road }
    ensures { result ≡ next_road map.now road }
{
    let reader = moved_on(ChainReader { map, road });
    reader.road
}
