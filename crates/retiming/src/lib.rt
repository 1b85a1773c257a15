// Retiming and audit of a plan sheet.
#![tactic(auto)]

ghost use Rattle.std.specs.Prelude.{◌≡◌, true, false, [], ◌∷◌, ◌+◌, ◌≤◌, ◌<◌, length};
ghost use Rattle.replies.specs.Told.{told_timing};
ghost use Rattle.moves.specs.Given.{given_of};
ghost use Rattle.moves.specs.OpenRuns.{listed_trip};
ghost use Rattle.moves.specs.Runs.{RangeIn};
ghost use Rattle.sheets.specs.Sheet.{sheet_needed};
ghost use Rattle.sheets.specs.Written.{Whole, rows_put};
ghost use Rattle.retiming.specs.Walk.{walk};
ghost use Rattle.retiming.specs.Retiming.{moves_on, timing, false_figures, audit_reply, Retimed};
ghost use Rattle.retiming.specs.Parts.{clock_walk, WalkSays, SheetSays, Ends, rows_reached, audited_run, RetimedRun};

use moves::{Fault, Move, OpenRun};
use replies::{Refusal, Timed};
use seconds::Clock;
use sheets::{Heading, Row};
use states::State;

// A state that an offered, legal move led to: where clocks are compared, the record's must be its own.
fn judge_clock(state: State, clock: Clock, k: usize, clocks: bool) -> Result<State, Refusal>
    ensures { WalkSays (clock_walk clocks k clock state) result }
{
    if clocks && clock != state.clock {
        Err(Refusal::FalseFigure(k))
    } else {
        Ok(state)
    }
}

// The walk over one record, the k-th. Whether clocks are compared is a `Bool` in the definition of the walk too.
#[tactic(auto, using(crate::proofs::Walking::walk_foreign, crate::proofs::Walking::walk_overrun, crate::proofs::Walking::says_clock))]
fn walk_row(
    run: &OpenRun<'_>,
    state: State,
    row: Row,
    k: usize,
    clocks: bool,
) -> Result<State, Refusal>
    requires { RangeIn (listed_trip run.now) state }
    ensures { WalkSays (walk clocks (listed_trip run.now) k state (row ∷ [])) result }
{
    let taken = Move {
        kind: row.kind,
        number: row.number,
    };
    match moves::take_move(run, state, taken) {
        Ok(next) => judge_clock(next, row.clock, k, clocks),
        Err(Fault::Foreign) => Err(Refusal::ForeignMove(k)),
        Err(Fault::Overrun) => Err(Refusal::Overrun(k)),
    }
}

// The walk over all records of a whole sheet.
fn walk_sheet(run: &OpenRun<'_>, sheet: &[u8], clocks: bool) -> Result<State, Refusal>
    requires { Whole sheet.now }
    ensures { WalkSays (timing clocks (listed_trip run.now) sheet.now) result }
{
    let moves = words::word(sheet, 0) as usize;
    let mut state = states::start_of(run.about.order);
    for k in 1..=moves {
        let row = sheets::read_row(sheet, k);
        state = walk_row(run, state, row, k, clocks)?;
    }
    Ok(state)
}

// Refusals 15 to 19: the walk over a sheet that may be torn, to its end at target.
#[tactic(auto, using(crate::proofs::Judging::torn_refuses, crate::proofs::Judging::move_refuses, sheets::proofs::Reading::whole_sheet))]
fn judge_sheet(run: &OpenRun<'_>, sheet: &[u8], clocks: bool) -> Result<State, Refusal>
    ensures { SheetSays clocks (listed_trip run.now) sheet.now result }
{
    if sheets::is_torn(sheet) {
        return Err(Refusal::TornSheet(sheet.len()));
    }
    let state = walk_sheet(run, sheet, clocks)?;
    if state.junction != run.about.order.target {
        return Err(Refusal::Stray(state.junction as usize));
    }
    Ok(state)
}

// Whether a figure of the header is not the state's: the counts of moves and labels are no figures.
#[tactic(auto, using(crate::proofs::Judging::figures_compared))]
fn header_is_false(heading: Heading, state: State) -> bool
    ensures { result ≡ false_figures heading state }
{
    heading != sheets::heading_for(heading.moves, state, heading.labels)
}

#[tactic(auto, using(crate::proofs::Judging::audited_false, crate::proofs::Judging::audited_true))]
fn audit_run(run: &OpenRun<'_>, sheet: &[u8]) -> Result<Timed, Refusal>
    ensures { told_timing result ≡ audited_run (listed_trip run.now) sheet.now }
{
    let state = judge_sheet(run, sheet, true)?;
    let heading = sheets::read_heading(sheet);
    if header_is_false(heading, state) {
        return Err(Refusal::FalseFigure(heading.moves as usize + 1));
    }
    Ok(Timed {
        moves: heading.moves,
        arrival: state.clock,
    })
}

// Audit: whether a sheet's moves are legal and its figures true.
pub fn audit(map: &[u8], order: &[u8], bans: &[u32], sheet: &[u8]) -> Result<Timed, Refusal>
    ensures { told_timing result ≡ audit_reply (given_of map.now order.now bans.now) sheet.now }
{
    let run = moves::open_run(map, order, bans)?;
    audit_run(&run, sheet)
}

// Writes each record with its true clock, from the first on: the walk is known to reach its end.
fn write_rows(run: &OpenRun<'_>, sheet: &[u8], out: &mut [u8])
    requires whole { Whole sheet.now }
    requires ends { Ends (timing false (listed_trip run.now) sheet.now) }
    requires sheet_in_bounds { sheet_needed (moves_on sheet.now) ≤ length out.old }
    ensures { out.new ≡ rows_put 0 (rows_reached (timing false (listed_trip run.now) sheet.now)) out.old }
{
    let moves = words::word(sheet, 0) as usize;
    let mut state = states::start_of(run.about.order);
    for k in 1..=moves {
        let row = sheets::read_row(sheet, k);
        let Ok(next) = walk_row(run, state, row, k, false) else {
            unreachable!()
        };
        let timed = Row {
            clock: next.clock,
            ..row
        };
        sheets::write_row(out, k, timed);
        state = next;
    }
}

#[tactic(auto, using(crate::proofs::Retimes::retimed_refused, crate::proofs::Retimes::retimed_short, crate::proofs::Rewriting::says_ends))]
fn retime_run(run: &OpenRun<'_>, sheet: &[u8], out: &mut [u8]) -> Result<Timed, Refusal>
    ensures { RetimedRun (listed_trip run.now) sheet.now out.old out.new result }
{
    let state = judge_sheet(run, sheet, false)?;
    let given = sheets::read_heading(sheet);
    let needed = sheets::sheet_needed(given.moves);
    if out.len() < needed {
        return Err(Refusal::ShortSheet(needed));
    }
    write_rows(run, sheet, out);
    let heading = sheets::heading_for(given.moves, state, given.labels);
    sheets::put_heading(out, heading);
    Ok(Timed {
        moves: given.moves,
        arrival: state.clock,
    })
}

// Retiming: the moves of a sheet with their true figures, written to another sheet.
pub fn retime(
    map: &[u8],
    order: &[u8],
    bans: &[u32],
    sheet: &[u8],
    out: &mut [u8],
) -> Result<Timed, Refusal>
    ensures { Retimed (given_of map.now order.now bans.now) sheet.now out.old out.new result }
{
    let run = moves::open_run(map, order, bans)?;
    retime_run(&run, sheet, out)
}
