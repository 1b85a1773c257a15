// The road map: its format, its bytes with the counts that they fit, and the time that a road takes.
#![tactic(auto)]

ghost use Rattle.std.specs.Prelude.{◌≡◌, ◌+◌, ◌*◌, ◌-◌, ◌≤◌, length};
ghost use Rattle.roadmap.specs.Format.{HasSizes, map_header_bytes, junction_bytes, road_bytes, format, junction_count, road_count, name_bytes, junction_at, junction_word, road_word, junction_of, road_of, first_road, car_park, name_start, name_length, road_from, road_to, road_metres, road_speed, next_road};
ghost use Rattle.roadmap.specs.RoadTime.{nearest, road_seconds, most_metres, most_speed};

use words::word;

// How many junctions and roads a map has, and how many bytes of names.
#[derive(Clone, Copy)]
pub struct Sizes {
    pub junctions: u32,
    pub roads: u32,
    pub names: u32,
}

impl Sizes {
    pub const HEADER_BYTES: usize = 16;

    pub const MOST_JUNCTIONS: u32 = 12288;

    pub const MOST_ROADS: u32 = 40960;

    pub const MOST_NAMES: u32 = 1048576;

    // The length of an array with an entry for each junction of any map; entry 0 is no junction's.
    pub const JUNCTION_ENTRIES: usize = Sizes::MOST_JUNCTIONS as usize + 1;

    // The same with an entry for each road.
    pub const ROAD_ENTRIES: usize = Sizes::MOST_ROADS as usize + 1;

    // Where junction j stands: its first road. It is the same on every map.
    pub fn junction_at(j: u32) -> usize
        requires { 1 ≤ j }
        ensures { result ≡ junction_at j }
    {
        Sizes::HEADER_BYTES + Junction::BYTES * (j as usize - 1)
    }

    // Where road r stands.
    pub fn road_at(self, r: u32) -> usize
        requires { 1 ≤ r }
        ensures { result ≡ map_header_bytes + junction_bytes * self.junctions + road_bytes * (r - 1) }
    {
        Sizes::HEADER_BYTES
            + Junction::BYTES * (self.junctions as usize)
            + Road::BYTES * (r as usize - 1)
    }

    // Where the names stand.
    pub fn names_at(self) -> usize
        ensures { result ≡ map_header_bytes + junction_bytes * self.junctions + road_bytes * self.roads }
    {
        Sizes::HEADER_BYTES
            + Junction::BYTES * (self.junctions as usize)
            + Road::BYTES * (self.roads as usize)
    }
}

// A junction's four words: its first road, whether it is a car park, where its name starts and how
// long that is.
#[derive(Clone, Copy)]
pub struct Junction {
    pub first: u32,
    pub parking: u32,
    pub start: u32,
    pub length: u32,
}

impl Junction {
    pub const BYTES: usize = 16;
}

// A road's five words.
#[derive(Clone, Copy)]
pub struct Road {
    pub from: u32,
    pub to: u32,
    pub metres: u32,
    pub speed: u32,
    pub next: u32,
}

impl Road {
    pub const BYTES: usize = 20;

    pub const MOST_METRES: u32 = 2000000;

    pub const LEAST_SPEED: u32 = 5;

    pub const MOST_SPEED: u32 = 130;
}

#[tactic(auto, unfolding(crate::specs::Format::format))]
pub fn map_format(map: &[u8]) -> u32
    requires { map_header_bytes ≤ length map.now }
    ensures { result ≡ format map.now }
{
    word(map, 0)
}

// The header's counts, whatever they are.
#[tactic(auto, unfolding(crate::specs::Format::junction_count, crate::specs::Format::road_count, crate::specs::Format::name_bytes))]
pub fn sizes_of(map: &[u8]) -> Sizes
    requires { map_header_bytes ≤ length map.now }
    ensures { (result.junctions ≡ junction_count map.now) × (result.roads ≡ road_count map.now) × (result.names ≡ name_bytes map.now) }
{
    Sizes {
        junctions: word(map, 4),
        roads: word(map, 8),
        names: word(map, 12),
    }
}

// A map's bytes, and the counts that they fit.
#[derive(Clone, Copy)]
pub struct RoadMap<'a> {
    pub bytes: &'a [u8],
    pub sizes: Sizes,
    pub ghost has_sizes: { HasSizes bytes.now sizes },
}

impl<'a> RoadMap<'a> {
    // The word at an offset of junction j.
    #[tactic(auto, unfolding(crate::specs::Format::junction_word))]
    fn junction_word(&self, j: u32, offset: usize) -> u32
        requires { (1 ≤ j) × (j ≤ self.now.sizes.junctions) × (offset ≤ 12) }
        ensures { result ≡ junction_word self.now.bytes.now j offset }
    {
        word(self.bytes, Sizes::junction_at(j) + offset)
    }

    pub fn first_road(&self, j: u32) -> u32
        requires { (1 ≤ j) × (j ≤ self.now.sizes.junctions) }
        ensures { result ≡ first_road self.now.bytes.now j }
    {
        self.junction_word(j, 0)
    }

    pub fn car_park(&self, j: u32) -> u32
        requires { (1 ≤ j) × (j ≤ self.now.sizes.junctions) }
        ensures { result ≡ car_park self.now.bytes.now j }
    {
        self.junction_word(j, 4)
    }

    pub fn name_start(&self, j: u32) -> u32
        requires { (1 ≤ j) × (j ≤ self.now.sizes.junctions) }
        ensures { result ≡ name_start self.now.bytes.now j }
    {
        self.junction_word(j, 8)
    }

    pub fn name_length(&self, j: u32) -> u32
        requires { (1 ≤ j) × (j ≤ self.now.sizes.junctions) }
        ensures { result ≡ name_length self.now.bytes.now j }
    {
        self.junction_word(j, 12)
    }

    pub fn junction(&self, j: u32) -> Junction
        requires { (1 ≤ j) × (j ≤ self.now.sizes.junctions) }
        ensures { result ≡ junction_of self.now.bytes.now j }
    {
        Junction {
            first: self.first_road(j),
            parking: self.car_park(j),
            start: self.name_start(j),
            length: self.name_length(j),
        }
    }

    // The word at an offset of road r.
    #[tactic(auto, unfolding(crate::specs::Format::road_word))]
    fn road_word(&self, r: u32, offset: usize) -> u32
        requires { (1 ≤ r) × (r ≤ self.now.sizes.roads) × (offset ≤ 16) }
        ensures { result ≡ road_word self.now.bytes.now r offset }
    {
        word(self.bytes, self.sizes.road_at(r) + offset)
    }

    pub fn road_from(&self, r: u32) -> u32
        requires { (1 ≤ r) × (r ≤ self.now.sizes.roads) }
        ensures { result ≡ road_from self.now.bytes.now r }
    {
        self.road_word(r, 0)
    }

    pub fn road_to(&self, r: u32) -> u32
        requires { (1 ≤ r) × (r ≤ self.now.sizes.roads) }
        ensures { result ≡ road_to self.now.bytes.now r }
    {
        self.road_word(r, 4)
    }

    pub fn road_metres(&self, r: u32) -> u32
        requires { (1 ≤ r) × (r ≤ self.now.sizes.roads) }
        ensures { result ≡ road_metres self.now.bytes.now r }
    {
        self.road_word(r, 8)
    }

    pub fn road_speed(&self, r: u32) -> u32
        requires { (1 ≤ r) × (r ≤ self.now.sizes.roads) }
        ensures { result ≡ road_speed self.now.bytes.now r }
    {
        self.road_word(r, 12)
    }

    pub fn next_road(&self, r: u32) -> u32
        requires { (1 ≤ r) × (r ≤ self.now.sizes.roads) }
        ensures { result ≡ next_road self.now.bytes.now r }
    {
        self.road_word(r, 16)
    }

    pub fn road(&self, r: u32) -> Road
        requires { (1 ≤ r) × (r ≤ self.now.sizes.roads) }
        ensures { result ≡ road_of self.now.bytes.now r }
    {
        Road {
            from: self.road_from(r),
            to: self.road_to(r),
            metres: self.road_metres(r),
            speed: self.road_speed(r),
            next: self.next_road(r),
        }
    }
}

// The quotient to the nearest whole number, an exact half to the even one.
fn nearest(dividend: u32, divisor: u32) -> u32
    requires { (dividend ≤ 18 * most_metres) × (1 ≤ divisor) × (divisor ≤ 5 * most_speed) }
    ensures { result ≡ nearest dividend divisor }
{
    let lower = dividend / divisor;
    let twice = 2 * (dividend % divisor);
    // at an exact half an odd number gives way to the even one above it
    if twice + lower % 2 <= divisor {
        lower
    } else {
        lower + 1
    }
}

// The seconds that so many metres take at so many kilometres an hour. Half a second and less takes
// the least second; this is asked first because it needs no division.
pub fn road_seconds(metres: u32, speed: u32) -> u32
    requires { (metres ≤ most_metres) × (1 ≤ speed) × (speed ≤ most_speed) }
    ensures { result ≡ road_seconds metres speed }
{
    if 36 * metres <= 5 * speed {
        return 1;
    }
    nearest(18 * metres, 5 * speed)
}
