// Plans the trip of the files `map` and `order` in the folder where it runs, and prints the plan.
#![tactic(auto)]

ghost use Rattle.std.specs.Prelude.{◌≤◌, length, IfOk};
ghost use Rattle.sheets.specs.Sheet.{header_bytes};

use driving::Pause;
use moves::{Move, OpenRun};
use replies::{Refusal, Reply};
use sheets::{Heading, Row};
use states::State;
use std::io::{Read, Write};
use std::rt::Files;
use std::{fs, io};

// Map and order together may fill so many bytes.
const MOST_BYTES: usize = 65536;

// One byte more shows that a file is longer.
const FILE_BYTES: usize = 65537;

// The labels that a search may settle.
const LABELS: usize = 1600;

const SPACE_WORDS: usize = LABELS * State::LABEL_WORDS;

// The header and a record for each label but the first: no plan has more moves.
const SHEET_BYTES: usize = Heading::BYTES + (LABELS - 1) * Row::BYTES;

const PAGE_BYTES: usize = 4096;

// What is printed waits in a page on the stack, which is written out where it is full. A failed
// write is passed over.
#[derive(Drop)]
struct Page<'a, P: Print> {
    rt: &'a P,
    bytes: [u8; PAGE_BYTES],
    used: usize,
    ghost within: { used ≤ 4096 },
}

impl<'a, P: Print> Page<'a, P> {
    fn new(rt: &'a P) -> Page<'a, P> {
        Page {
            rt,
            bytes: [0; PAGE_BYTES],
            used: 0,
        }
    }
}

impl<P: Print> Write for Page<'_, P> {
    fn write(&mut self, text: &[u8]) -> io::Result<usize> {
        if self.used == PAGE_BYTES {
            self.flush()?;
        }
        let room = &mut self.bytes[self.used..];
        let more = text.len().min(room.len());
        room[..more].copy_from_slice(&text[..more]);
        self.used += more;
        Ok(more)
    }

    fn flush(&mut self) -> io::Result<()> {
        let _ = self.rt.write_all(&self.bytes[..self.used]);
        self.used = 0;
        Ok(())
    }
}

// The word of a kind of move.
fn word_of(kind: u32) -> &'static str {
    if kind == Move::DRIVE {
        return "drive";
    }
    match Pause::try_from(kind) {
        Ok(Pause::Break) => "break",
        Ok(Pause::Rest) => "rest",
        Ok(Pause::FirstPart) => "first",
        Ok(Pause::SecondPart) => "second",
        Ok(Pause::WeeklyRest) | Err(_) => "weekly",
    }
}

// The junction that a move leads to: where the road ends, or where the pause is.
fn reached(run: &OpenRun<'_>, row: Row) -> u32 {
    let map = run.road_map();
    if row.kind != Move::DRIVE {
        row.number
    } else if 1 <= row.number && row.number <= map.sizes.roads {
        map.road_to(row.number)
    } else {
        0
    }
}

// The line of a move: its word, its number, the name of the junction reached, the clock.
fn list_move(page: &mut impl Write, run: &OpenRun<'_>, row: Row) -> io::Result<()> {
    write!(page, "{} {} ", word_of(row.kind), row.number)?;
    page.write_all(mapedit::name(run.map, reached(run, row)))?;
    writeln!(page, " {}", row.clock.0)
}

// The lines of the moves, and a last one: arrival, spell, shift and the label count N. The plan's
// sheet holds a record for every move: that it is long enough is tested, not proved.
fn list(page: &mut impl Write, run: &OpenRun<'_>, sheet: &[u8]) -> io::Result<()>
    requires { header_bytes ≤ length sheet.now }
{
    let Heading {
        moves,
        arrival,
        spell,
        shift,
        labels,
        ..
    } = sheets::read_heading(sheet);
    for k in 1..=moves {
        if sheet.len() < sheets::sheet_needed(k) {
            break;
        }
        list_move(page, run, sheets::read_row(sheet, k as usize))?;
    }
    writeln!(
        page,
        "arrive {} {} {} labels {labels}",
        arrival.0, spell.0, shift.0
    )
}

// The run is read once more for the map's sizes.
fn print_plan(rt: &impl Print, map: &[u8], order: &[u8], sheet: &[u8])
    requires { header_bytes ≤ length sheet.now }
{
    if let Ok(run) = moves::read_run(map, order) {
        let mut page = Page::new(rt);
        let _ = list(&mut page, &run, sheet);
        let _ = page.flush();
    }
}

fn print_refusal(rt: &impl Print, why: Refusal) {
    let Reply { number, place, .. } = Reply::from(why);
    let _ = println!(rt; "refused {number} {place}");
}

fn plan_and_print(rt: &impl Print, map: &[u8], order: &[u8]) {
    let mut words = [0u32; SPACE_WORDS];
    let mut sheet = [0u8; SHEET_BYTES];
    match planner::plan(map, order, &[], &mut words, &mut sheet) {
        Ok(_) => print_plan(rt, map, order, &sheet),
        Err(why) => print_refusal(rt, why),
    }
}

// Reads until the file ends or the space is full, and returns how many bytes there are.
fn read_whole(rt: &impl Files, name: &str, space: &mut [u8]) -> io::Result<usize>
    ensures { IfOk result (λ n. n ≤ length space.new) }
{
    let mut file = fs::open(rt, name)?;
    let mut done = 0;
    while done < space.len() {
        match file.read(&mut space[done..])? {
            0 => break,
            more => done += more,
        }
    }
    Ok(done)
}

// The file's bytes, as many as the space has room for. A file that cannot be opened, or of which
// one read fails, counts as empty: the bytes before it, or after it, are not the file.
fn read_file<'a>(rt: &impl Files, name: &str, space: &'a mut [u8]) -> &'a [u8] {
    let length = read_whole(rt, name, space).unwrap_or(0);
    &space[..length]
}

fn main(rt: HostRuntime) {
    let mut map = [0u8; FILE_BYTES];
    let mut order = [0u8; FILE_BYTES];
    let map = read_file(&rt, "map", &mut map);
    let order = read_file(&rt, "order", &mut order);
    if MOST_BYTES < map.len() + order.len() {
        let _ = println!(rt; "too big");
    } else {
        plan_and_print(&rt, map, order);
    }
}
