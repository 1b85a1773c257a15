ghost use Rattle.std.specs.Prelude.{◌≡◌};
ghost use Rattle.roadmap.specs.Format.{road_count};
ghost use Rattle.bans.specs.BanList.{Rising};
ghost use Rattle.moves.specs.Runs.{Accepted};

use crate::Run;
use roadmap::RoadMap;

// What a run is lent, with what it is about: the map's bytes, and which roads are banned, as a list of their numbers and as
// one byte a road, not 0 where the road is banned. The bytes are the search's, which marks them from the list.
#[derive(Clone, Copy)]
pub struct OpenRun<'a> {
    pub map: &'a [u8],
    pub closed: &'a [u8],
    pub bans: &'a [u32],
    pub about: Run,
    pub ghost accepted: { Accepted map.now about },
    pub ghost listed: { Rising (road_count map.now) bans.now },
}

impl<'a> OpenRun<'a> {
    // The map's bytes with its counts.
    pub fn road_map(&self) -> RoadMap<'a>
        ensures bytes { result.bytes ≡ self.now.map }
        ensures sizes { result.sizes ≡ self.now.about.sizes }
    {
        RoadMap {
            bytes: self.map,
            sizes: self.about.sizes,
        }
    }
}
