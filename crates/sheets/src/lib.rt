// The plan sheet: six words of header, then records of three words. A move's record is written
// into the part of the sheet behind its header.
#![tactic(auto)]

ghost use Rattle.std.specs.Prelude.{◌≡◌, ◌*◌, ◌≤◌, length};
ghost use Rattle.sheets.specs.Sheet.{header_bytes, record_bytes, sheet_needed, heading_for, heading_of, row_at, torn, with_heading, with_row_behind, with_row};

use seconds::{Clock, Wheel};
use states::State;
use words::{put_word, word};

// The header's six words.
#[derive(Clone, Copy, PartialEq, Eq)]
pub struct Heading {
    pub moves: u32,
    pub arrival: Clock,
    pub spell: Wheel,
    pub shift: Wheel,
    pub week: Wheel,
    pub labels: u32,
}

impl Heading {
    pub const BYTES: usize = 24;

    pub const MOST_MOVES: u32 = 999999;
}

// A move's three words, any numbers: its kind, the road number or pausing junction, the clock after it.
#[derive(Clone, Copy)]
pub struct Row {
    pub kind: u32,
    pub number: u32,
    pub clock: Clock,
}

impl Row {
    pub const BYTES: usize = 12;
}

// The bytes of a sheet of so many moves.
pub fn sheet_needed(moves: u32) -> usize
    ensures { result ≡ sheet_needed moves }
{
    Heading::BYTES + Row::BYTES * (moves as usize)
}

// The header of so many moves to a state, with the label count.
pub fn heading_for(moves: u32, state: State, labels: u32) -> Heading
    ensures { result ≡ heading_for moves state labels }
{
    let figures = state.figures;
    Heading {
        moves,
        arrival: state.clock,
        spell: figures.spell,
        shift: figures.shift,
        week: figures.week,
        labels,
    }
}

pub fn read_heading(sheet: &[u8]) -> Heading
    requires { header_bytes ≤ length sheet.now }
    ensures { result ≡ heading_of sheet.now }
{
    Heading {
        moves: word(sheet, 0),
        arrival: Clock(word(sheet, 4)),
        spell: Wheel(word(sheet, 8)),
        shift: Wheel(word(sheet, 12)),
        week: Wheel(word(sheet, 16)),
        labels: word(sheet, 20),
    }
}

// Record k, counted from 1.
pub fn read_row(sheet: &[u8], k: usize) -> Row
    requires { (1 ≤ k) × (sheet_needed k ≤ length sheet.now) }
    ensures { result ≡ row_at sheet.now k }
{
    let at = Heading::BYTES + Row::BYTES * (k - 1);
    Row {
        kind: word(sheet, at),
        number: word(sheet, at + 4),
        clock: Clock(word(sheet, at + 8)),
    }
}

// Refusal 15.
#[tactic(auto, unfolding(crate::specs::Sheet::torn))]
pub fn is_torn(sheet: &[u8]) -> bool
    ensures { result ≡ torn sheet.now }
{
    if sheet.len() < Heading::BYTES {
        return true;
    }
    let moves = word(sheet, 0);
    Heading::MOST_MOVES < moves || sheet.len() != sheet_needed(moves)
}

#[tactic(auto, using(crate::proofs::Bytes::put_heading_lem))]
pub fn put_heading(sheet: &mut [u8], heading: Heading)
    requires { header_bytes ≤ length sheet.old }
    ensures { sheet.new ≡ with_heading sheet.old heading }
{
    put_word(sheet, 0, heading.moves);
    put_word(sheet, 4, heading.arrival.0);
    put_word(sheet, 8, heading.spell.0);
    put_word(sheet, 12, heading.shift.0);
    put_word(sheet, 16, heading.week.0);
    put_word(sheet, 20, heading.labels);
}

// Writes record k, counted from 1, into the part of a sheet behind its header.
#[tactic(auto, using(crate::proofs::Bytes::put_row_lem))]
pub fn put_row(part: &mut [u8], k: usize, row: Row)
    requires { (1 ≤ k) × (record_bytes * k ≤ length part.old) }
    ensures { part.new ≡ with_row_behind part.old k row }
{
    let at = Row::BYTES * (k - 1);
    put_word(part, at, row.kind);
    put_word(part, at + 4, row.number);
    put_word(part, at + 8, row.clock.0);
}

// Writes record k, counted from 1, into a sheet.
pub fn write_row(sheet: &mut [u8], k: usize, row: Row)
    requires { (1 ≤ k) × (sheet_needed k ≤ length sheet.old) }
    ensures { sheet.new ≡ with_row sheet.old k row }
{
    put_row(&mut sheet[Heading::BYTES..], k, row);
}
