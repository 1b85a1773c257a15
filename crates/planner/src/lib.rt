// Planning: from a map, an order and lent label space to the first-arriving legal plan.
#![tactic(auto)]

ghost use Rattle.std.specs.Prelude.{◌≡◌, ◌≤◌, length};
ghost use Rattle.moves.specs.Given.{given_of};
ghost use Rattle.moves.specs.OpenRuns.{listed_trip};
ghost use Rattle.sheets.specs.Sheet.{sheet_needed};
ghost use Rattle.journeys.specs.Plan.{move_count};
ghost use Rattle.search.specs.Turns.{OutcomeSays};
ghost use Rattle.states.specs.LabelSpace.{labels_that_fit};
ghost use Rattle.planner.specs.Parts.{HandedBack, Concluded};
ghost use Rattle.planner.specs.Planned.{Planned};
ghost use Rattle.planner.specs.Preview.{Previewed};

use moves::{OpenRun, Run};
use readback::FoundLabels;
use replies::Refusal;
use search::Unfound;

// Writes the plan to a sheet that is long enough. `replies::Plan` goes by its path, beside the function `plan`. The answer is the last label.
#[tactic(auto, using(crate::proofs::Handing::moves_few))]
fn write_plan(found: &FoundLabels<'_>, moves: usize, sheet: &mut [u8]) -> replies::Plan
    requires { (moves ≡ move_count (listed_trip found.now.run.now)) × (sheet_needed moves ≤ length sheet.old) }
    ensures { HandedBack (listed_trip found.now.run.now) sheet.old sheet.new (Ok result) }
{
    found.write_moves(moves, sheet);
    let answer = labels::read_label(found.words, found.count);
    let labels = found.count as u32;
    sheets::put_heading(sheet, sheets::heading_for(moves as u32, answer, labels));
    replies::Plan {
        labels,
        arrival: answer.clock,
    }
}

// The plan of a search that found an answer: refused where the sheet is short (14), else written to it.
fn hand_back(found: &FoundLabels<'_>, sheet: &mut [u8]) -> Result<replies::Plan, Refusal>
    ensures { HandedBack (listed_trip found.now.run.now) sheet.old sheet.new result }
{
    let moves = found.count_moves();
    let needed = sheets::sheet_needed(moves as u32);
    if sheet.len() < needed {
        return Err(Refusal::ShortSheet(needed));
    }
    Ok(write_plan(found, moves, sheet))
}

// What a search's outcome comes to: full (12), no road (13), or the plan.
#[tactic(auto, using(crate::proofs::Outcomes::concluded_found, crate::proofs::Outcomes::concluded_exhausted, crate::proofs::Outcomes::concluded_full))]
fn conclude(
    run: &OpenRun<'_>,
    words: &[u32],
    outcome: Result<usize, Unfound>,
    sheet: &mut [u8],
) -> Result<replies::Plan, Refusal>
    requires { OutcomeSays (listed_trip run.now) (labels_that_fit (length words.now)) words.now outcome }
    ensures { Concluded (listed_trip run.now) (labels_that_fit (length words.now)) sheet.old sheet.new result }
{
    let fit = states::labels_that_fit(words.len());
    match outcome {
        Ok(count) => hand_back(&FoundLabels { run, words, count }, sheet),
        Err(Unfound::Exhausted(n)) => Err(Refusal::NoRoad(n)),
        Err(Unfound::Full) => Err(Refusal::Full(fit)),
    }
}

// Planning of an open run.
fn plan_run(
    run: &OpenRun<'_>,
    words: &mut [u32],
    sheet: &mut [u8],
) -> Result<replies::Plan, Refusal>
    ensures { Concluded (listed_trip run.now) (labels_that_fit (length words.old)) sheet.old sheet.new result }
{
    let outcome = search::search(run, words);
    conclude(run, words, outcome, sheet)
}

// Planning: the first-arriving legal plan, written to the sheet. `bans` lists the banned roads, `words` is label space.
pub fn plan(
    map: &[u8],
    order: &[u8],
    bans: &[u32],
    words: &mut [u32],
    sheet: &mut [u8],
) -> Result<replies::Plan, Refusal>
    ensures { Planned (given_of map.now order.now bans.now) words.old words.new sheet.old sheet.new result }
{
    let run = moves::open_run(map, order, bans)?;
    plan_run(&run, words, sheet)
}

// The preview of a closure: what planning would answer and write with this road struck. The map is only read.
pub fn preview(
    map: &[u8],
    order: &[u8],
    bans: &[u32],
    road: u32,
    words: &mut [u32],
    sheet: &mut [u8],
) -> Result<replies::Plan, Refusal>
    ensures { Previewed (given_of map.now order.now bans.now) road words.old words.new sheet.old sheet.new result }
{
    let read = moves::read_run(map, order)?;
    if striking::is_unknown(read.about.sizes, road) {
        return Err(Refusal::UnknownRoad(road as usize));
    }
    let run = read.with_bans(bans)?;
    let struck = OpenRun {
        map: run.map,
        closed: run.closed,
        bans: run.bans,
        about: Run {
            struck: Some(road),
            ..run.about
        },
    };
    plan_run(&struck, words, sheet)
}
