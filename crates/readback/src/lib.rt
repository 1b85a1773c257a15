// Reading a plan back from settled labels: the moves that lead to them, how many, and their records.
#![tactic(auto)]

ghost use Rattle.std.specs.Prelude.{◌≡◌, ◌&&◌, ◌≤◌, length};
ghost use Rattle.std.proofs.Math.Option.{some};
ghost use Rattle.roadmap.specs.Format.{road_count};
ghost use Rattle.states.specs.States.{legal, same_state};
ghost use Rattle.states.specs.LabelSpace.{most_labels};
ghost use Rattle.moves.specs.Runs.{RangeIn};
ghost use Rattle.moves.specs.OpenRuns.{listed_trip};
ghost use Rattle.labels.specs.LabelWords.{label_at};
ghost use Rattle.sheets.specs.Sheet.{sheet_needed};
ghost use Rattle.sheets.specs.Written.{backward};
ghost use Rattle.journeys.specs.Labels.{answer_in};
ghost use Rattle.journeys.specs.Plan.{move_to, move_count, plan_rows};
ghost use Rattle.readback.specs.Moving.{SomeMove, RoadTo, passes_by, SomePause, PauseTo, pauses_to};
ghost use Rattle.readback.specs.Held.{Holds, CountsMoves};
ghost use Rattle.readback.specs.Rows.{RowFor};

use driving::{Order, Pause};
use moves::{Move, OpenRun};
use sheets::Row;
use states::State;

// Whether a state is legal and is t.
fn leads_to(order: Order, state: State, t: State) -> bool
    ensures { result ≡ (legal order state && same_state state t) }
{
    states::is_legal(order, state) && states::same_state(state, t)
}

// A leg of a plan: from the state of a label's parent, whose figures are in range, to the label's.
#[derive(Clone, Copy)]
pub struct Leg<'a> {
    pub run: &'a OpenRun<'a>,
    pub from: State,
    pub to: State,
    pub ghost in_range: { RangeIn (listed_trip run.now) from },
}

impl<'a> Leg<'a> {
    // Whether a chain is followed past a road: it is not the chain's end, and its drive does not lead legally to the leg's end.
    fn passes_by(&self, road: u32) -> bool
        requires { road ≤ road_count self.now.run.now.map.now }
        ensures { result ≡ passes_by (listed_trip self.now.run.now) self.now.from self.now.to road }
    {
        0 < road
            && !leads_to(
                self.run.about.order,
                moves::after_listed_drive(self.run, self.from, road),
                self.to,
            )
    }

    // The lowest road whose drive leads legally there, 0 where none does. A chain lists a junction's roads rising.
    fn road_to(&self) -> u32
        ensures { RoadTo (listed_trip self.now.run.now) self.now.from self.now.to result }
    {
        let mut road = chains::first_of_junction(self.run.map, self.from.junction);
        while self.passes_by(road) {
            road = chains::road_after(self.run.map, road);
        }
        road
    }

    // Whether the pause of this kind is offered and leads legally there.
    fn pauses_to(&self, kind: u32) -> bool
        ensures { result ≡ pauses_to (listed_trip self.now.run.now) self.now.from self.now.to kind }
    {
        moves::may_pause(self.run, self.from, kind)
            && leads_to(
                self.run.about.order,
                moves::after_pause(self.run.about, self.from, Pause::numbered(kind)),
                self.to,
            )
    }

    // The lowest kind of pause that leads legally there: some kind does, the last where none before it does.
    #[tactic(auto, using(crate::proofs::Leading::seek_next, crate::proofs::Leading::seek_found, crate::proofs::Leading::seek_last))]
    fn pause_to(&self) -> u32
        requires { SomePause (listed_trip self.now.run.now) self.now.from self.now.to }
        ensures { PauseTo (listed_trip self.now.run.now) self.now.from self.now.to result }
    {
        for kind in Pause::FIRST..Pause::LAST {
            if self.pauses_to(kind) {
                return kind;
            }
        }
        Pause::LAST
    }

    // The parent's move: the lowest kind, then the lowest road. Where no road leads there some pause does.
    #[tactic(auto, using(crate::proofs::Leading::drive_is, crate::proofs::Leading::some_pause, crate::proofs::Leading::pause_is))]
    pub fn move_to(&self) -> Move
        requires { SomeMove (listed_trip self.now.run.now) self.now.from self.now.to }
        ensures { move_to (listed_trip self.now.run.now) self.now.from self.now.to ≡ some result }
    {
        let road = self.road_to();
        if 0 < road {
            return Move {
                kind: Move::DRIVE,
                number: road,
            };
        }
        Move {
            kind: self.pause_to(),
            number: self.from.junction,
        }
    }

    // The record of the parent's move.
    fn row_for(&self) -> Row
        requires { SomeMove (listed_trip self.now.run.now) self.now.from self.now.to }
        ensures { RowFor (listed_trip self.now.run.now) self.now.from self.now.to result }
    {
        let by = self.move_to();
        Row {
            kind: by.kind,
            number: by.number,
            clock: self.to.clock,
        }
    }
}

// The labels of a search that found an answer: they are so many, and the last is the answer.
#[derive(Clone, Copy)]
pub struct FoundLabels<'a> {
    pub run: &'a OpenRun<'a>,
    pub words: &'a [u32],
    pub count: usize,
    pub ghost held: { Holds (listed_trip run.now) words.now count },
    pub ghost last: { answer_in (listed_trip run.now) ≡ some (label_at words.now count) },
    pub ghost few: { count ≤ most_labels },
}

impl<'a> FoundLabels<'a> {
    // How many moves lead to the last label, along the parents.
    pub fn count_moves(&self) -> usize
        ensures { CountsMoves self.now.words.now self.now.count result }
    {
        let mut k = self.count;
        let mut m = 0;
        while 1 < k {
            k = labels::parent(self.words, k) as usize;
            m += 1;
        }
        m
    }

    // Writes the m records of the plan, from the last label's back along the parents.
    #[tactic(auto, using(crate::proofs::Backward::leg_range, crate::proofs::Backward::leg_move, crate::proofs::Backward::write_next))]
    pub fn write_moves(&self, m: usize, sheet: &mut [u8])
        requires { (m ≡ move_count (listed_trip self.now.run.now)) × (sheet_needed m ≤ length sheet.old) }
        ensures { sheet.new ≡ backward (plan_rows (listed_trip self.now.run.now)) 0 sheet.old }
    {
        let mut k = self.count;
        let mut left = m;
        while 1 < k {
            let parent = labels::parent(self.words, k) as usize;
            let from = labels::read_label(self.words, parent);
            let to = labels::read_label(self.words, k);
            let leg = Leg {
                run: self.run,
                from,
                to,
            };
            sheets::write_row(sheet, left, leg.row_for());
            left -= 1;
            k = parent;
        }
    }
}
