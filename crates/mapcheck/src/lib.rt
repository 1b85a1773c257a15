// The map check: refusals 1 to 8.
#![tactic(auto)]

ghost use Rattle.std.specs.Prelude.{true, false, ◌||◌, ◌≡◌, ◌+◌, ◌-◌, ◌≤◌, ◌<◌, length};
ghost use Rattle.replies.specs.First.{first_of, lowest};
ghost use Rattle.replies.specs.Told.{succeeded, told_check};
ghost use Rattle.roadmap.specs.Format.{junction_count, road_from};
ghost use Rattle.mapcheck.specs.Links.{MapLinks};
ghost use Rattle.mapcheck.specs.Due.{note, MapDue};
ghost use Rattle.mapcheck.specs.Lettered.{bad_word, Lettered};
ghost use Rattle.mapcheck.specs.Found.{found, HeaderSays, late_tests, content_tests, part_tests};
ghost use Rattle.mapcheck.specs.MapCheck.{outside, oversize_counts, map_tests, chaining_tests, bad_place, bad_junction_fields, bad_junction, bad_stretch, bad_next, bad_road_fields, bad_road, broken_chain, bad_letter_at};

use replies::Refusal;
use roadmap::{Junction, Road, RoadMap, Sizes};
use words::word;

// A map whose links are sound.
#[derive(Clone, Copy)]
struct LinkedMap<'a> {
    map: RoadMap<'a>,
    ghost links: { MapLinks map.bytes.now },
}

fn outside(low: u32, high: u32, value: u32) -> bool
    ensures { result ≡ outside low high value }
{
    !(low..=high).contains(&value)
}

// Whether a junction's flag or the place of its name is wrong.
fn place_is_bad(junction: Junction, names: u32) -> bool
    ensures { result ≡ bad_place names junction }
{
    1 < junction.parking
        || outside(1, 32, junction.length)
        || (names as usize) < (junction.start as usize) + (junction.length as usize)
}

fn junction_is_bad(junction: Junction, sizes: Sizes, links: bool) -> bool
    ensures { result ≡ bad_junction_fields links sizes.roads sizes.names junction }
{
    (links && sizes.roads < junction.first) || place_is_bad(junction, sizes.names)
}

// Whether a road's ends, length or speed are wrong.
fn stretch_is_bad(road: Road, junctions: u32) -> bool
    ensures { result ≡ bad_stretch junctions road }
{
    outside(1, junctions, road.from)
        || outside(1, junctions, road.to)
        || outside(1, Road::MOST_METRES, road.metres)
        || outside(Road::LEAST_SPEED, Road::MOST_SPEED, road.speed)
}

fn next_is_bad(roads: u32, r: u32, next: u32) -> bool
    ensures { result ≡ bad_next roads r next }
{
    next != 0 && (next <= r || roads < next)
}

fn road_is_bad(road: Road, sizes: Sizes, r: u32, links: bool) -> bool
    ensures { result ≡ bad_road_fields links sizes.junctions sizes.roads r road }
{
    (links && next_is_bad(sizes.roads, r, road.next)) || stretch_is_bad(road, sizes.junctions)
}

// The lowest junction with a wrong field.
fn bad_junction(map: &RoadMap<'_>, links: bool) -> Option<usize>
    ensures { found result ≡ bad_junction links map.now.bytes.now }
{
    for j in 1..=map.sizes.junctions {
        if junction_is_bad(map.junction(j), map.sizes, links) {
            return Some(j as usize);
        }
    }
    None
}

// The lowest road with a wrong field.
fn bad_road(map: &RoadMap<'_>, links: bool) -> Option<usize>
    ensures { found result ≡ bad_road links map.now.bytes.now }
{
    for r in 1..=map.sizes.roads {
        if road_is_bad(map.road(r), map.sizes, r, links) {
            return Some(r as usize);
        }
    }
    None
}

fn letter_is_bad(letter: u8) -> bool
    ensures { result ≡ outside 0x20 0x7E letter }
{
    outside(0x20, 0x7E, u32::from(letter))
}

// The lowest offset, from `from` on, of a byte that is no letter.
fn bad_letter(map: &[u8], from: usize) -> Option<usize>
    requires { from ≤ length map.now }
    ensures { found result ≡ lowest (bad_letter_at map.now) from (length map.now - from) }
{
    for i in from..map.len() {
        if letter_is_bad(map[i]) {
            return Some(i);
        }
    }
    None
}

// Whether one of the eight bytes of two words is no letter. The high bit of each byte tells: it is set already, or the
// low bits are 0x7F and one more sets it, or they are below 0x20 and 0x9F less them has it set. No sum or difference
// leaves its byte.
fn pair_is_bad(first: u32, second: u32) -> bool
    ensures { result ≡ bad_word first || bad_word second }
{
    let bytes = u64::from(first) + u64::from(second) * 0x1_0000_0000;
    let low = bytes & 0x7F7F_7F7F_7F7F_7F7F;
    let above = low + 0x0101_0101_0101_0101;
    let below = 0x9F9F_9F9F_9F9F_9F9F - low;
    (bytes | above | below) & 0x8080_8080_8080_8080 != 0
}

fn word_is_bad(word: u32) -> bool
    ensures { result ≡ bad_word word }
{
    pair_is_bad(word, word)
}

// Past the words of letters from `from` on, two at a time: one load and one test for eight bytes.
fn past_pairs(map: &[u8], from: usize) -> usize
    requires { from ≤ length map.now }
    ensures { Lettered map.now from result }
{
    let mut past = from;
    for pair in map[from..].chunks_exact(8) {
        if pair_is_bad(word(pair, 0), word(pair, 4)) {
            return past;
        }
        past += 8;
    }
    past
}

// Past the word at `from`, where it has letters only.
fn past_word(map: &[u8], from: usize) -> usize
    requires { from ≤ length map.now }
    ensures { Lettered map.now from result }
{
    if map.len() - from < 4 || word_is_bad(word(map, from)) {
        from
    } else {
        from + 4
    }
}

// The same as `bad_letter`, which is left to look from the first word with a bad byte on, or through the tail of up to
// three bytes.
fn bad_lettering(map: &[u8], from: usize) -> Option<usize>
    requires { from ≤ length map.now }
    ensures { found result ≡ lowest (bad_letter_at map.now) from (length map.now - from) }
{
    let pair = past_pairs(map, from);
    let word = past_word(map, pair);
    bad_letter(map, word)
}

// The header's first count that is out of range, by its offset.
fn oversize(sizes: Sizes) -> Option<usize>
    ensures { found result ≡ oversize_counts sizes.junctions sizes.roads sizes.names }
{
    if outside(1, Sizes::MOST_JUNCTIONS, sizes.junctions) {
        Some(4)
    } else if outside(0, Sizes::MOST_ROADS, sizes.roads) {
        Some(8)
    } else if outside(0, Sizes::MOST_NAMES, sizes.names) {
        Some(12)
    } else {
        None
    }
}

// Refusals 1 to 4, or the map with its counts, which it is as long as they need.
fn read_header(map: &[u8]) -> Result<RoadMap<'_>, Refusal>
    ensures { HeaderSays map.now result }
{
    if map.len() < Sizes::HEADER_BYTES {
        return Err(Refusal::ShortMap(map.len()));
    }
    if roadmap::map_format(map) != 1 {
        return Err(Refusal::StrangeMap);
    }
    let sizes = roadmap::sizes_of(map);
    if let Some(offset) = oversize(sizes) {
        return Err(Refusal::Oversize(offset));
    }
    let needed = sizes.names_at() + sizes.names as usize;
    if map.len() != needed {
        return Err(Refusal::Misfit(needed));
    }
    Ok(RoadMap { bytes: map, sizes })
}

// The lower of `least` and road v, where v falls due on the chain of junction j and is not j's.
fn noted(map: &RoadMap<'_>, j: u32, v: u32, least: u32) -> u32
    requires { v ≤ map.now.sizes.roads }
    ensures { result ≡ note (road_from map.now.bytes.now) j v least }
{
    if v == 0 || map.road_from(v) == j {
        least
    } else {
        v.min(least)
    }
}

// Makes each junction's first road due, and returns the least of them that is not the junction's.
fn begin_chains(linked: &LinkedMap<'_>, due: &mut [u32]) -> u32
    requires { linked.now.map.sizes.junctions < length due.old }
    ensures { MapDue linked.now.map.bytes.now due.new (junction_count linked.now.map.bytes.now + 1) 1 result }
{
    let map = &linked.map;
    let mut foreign = map.sizes.roads + 1;
    for j in 1..=map.sizes.junctions {
        let first = map.first_road(j);
        due[j as usize] = first;
        foreign = noted(map, j, first, foreign);
    }
    foreign
}

// The lowest road that is off its own chain or on another's: each road in turn is due on its own
// chain and noticed on no other.
fn follow_chains(linked: &LinkedMap<'_>, due: &mut [u32], least: u32) -> Option<usize>
    requires junctions_in_bounds { linked.now.map.sizes.junctions < length due.old }
    requires map_due { MapDue linked.now.map.bytes.now due.old (junction_count linked.now.map.bytes.now + 1) 1 least }
    ensures { found result ≡ broken_chain linked.now.map.bytes.now }
{
    let map = &linked.map;
    let mut foreign = least;
    for r in 1..=map.sizes.roads {
        let from = map.road_from(r);
        if r == foreign || due[from as usize] != r {
            return Some(r as usize);
        }
        let next = map.next_road(r);
        due[from as usize] = next;
        foreign = noted(map, from, next, foreign);
    }
    None
}

fn broken_chain(linked: &LinkedMap<'_>) -> Option<usize>
    ensures { found result ≡ broken_chain linked.now.map.bytes.now }
{
    let mut due = [0u32; Sizes::JUNCTION_ENTRIES];
    let least = begin_chains(linked, &mut due);
    follow_chains(linked, &mut due, least)
}

// Refusal 8.
fn check_letters(map: &RoadMap<'_>) -> Result<(), Refusal>
    ensures { told_check result ≡ first_of (late_tests false map.now.bytes.now) (succeeded 0 0) }
{
    match bad_lettering(map.bytes, map.sizes.names_at()) {
        Some(place) => Err(Refusal::BadLettering(place)),
        None => Ok(()),
    }
}

// Refusals 7 and 8.
fn check_chains(linked: &LinkedMap<'_>) -> Result<(), Refusal>
    ensures { told_check result ≡ first_of (late_tests true linked.now.map.bytes.now) (succeeded 0 0) }
{
    if let Some(road) = broken_chain(linked) {
        return Err(Refusal::BrokenChain(road));
    }
    check_letters(&linked.map)
}

// Refusals 5 to 8; without the links 5, 6 and 8.
fn check_content(map: &RoadMap<'_>, links: bool) -> Result<(), Refusal>
    ensures { told_check result ≡ first_of (content_tests links map.now.bytes.now) (succeeded 0 0) }
{
    if let Some(junction) = bad_junction(map, links) {
        return Err(Refusal::BadJunction(junction));
    }
    if let Some(road) = bad_road(map, links) {
        return Err(Refusal::BadRoad(road));
    }
    if links {
        check_chains(&LinkedMap { map: *map })
    } else {
        check_letters(map)
    }
}

// All refusals of a map, with the links or without.
fn check_parts(map: &[u8], links: bool) -> Result<(), Refusal>
    ensures { told_check result ≡ first_of (part_tests links map.now) (succeeded 0 0) }
{
    let map = read_header(map)?;
    check_content(&map, links)
}

// The map check.
pub fn check_map(map: &[u8]) -> Result<(), Refusal>
    ensures { told_check result ≡ first_of (map_tests map.now) (succeeded 0 0) }
{
    check_parts(map, true)
}

// The check of a map whose links are not made yet.
pub fn check_unchained(map: &[u8]) -> Result<(), Refusal>
    ensures { told_check result ≡ first_of (chaining_tests map.now) (succeeded 0 0) }
{
    check_parts(map, false)
}
