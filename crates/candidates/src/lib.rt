// The candidates of settled labels: what a cursor names, and which candidate is next.
#![tactic(auto)]

ghost use Rattle.std.specs.Prelude.{◌≡◌, true, false, ◌+◌, ◌-◌, ◌≤◌, ◌<◌, length, Some, SomeIff};
ghost use Rattle.driving.specs.Hours.{last_pause};
ghost use Rattle.driving.specs.Pauses.{pause_number};
ghost use Rattle.moves.specs.Trip.{roads_in, junctions_in};
ghost use Rattle.bans.specs.Bans.{closed_in};
ghost use Rattle.moves.specs.Moves.{entered_when};
ghost use Rattle.moves.specs.OpenRuns.{searched_trip};
ghost use Rattle.moves.specs.Runs.{RangeIn};
ghost use Rattle.states.specs.States.{legal};
ghost use Rattle.labels.specs.LabelWords.{label_at, settled};
ghost use Rattle.candidates.specs.Candidates.{result_at, Names, Fitting};
ghost use Rattle.candidates.specs.Next.{NextIs, Spent};
ghost use Rattle.candidates.specs.Trying.{hint_entries, Worth, Follows, allowed, Stands, Contends, Ranged, Preceded, Joined, BestBelow};

use driving::Pause;
use labels::{Candidate, SettledLabels};
use moves::OpenRun;
use seconds::Clock;
use states::State;

// Hints spare turns and decide nothing, whatever they hold: each names a road that led to a junction
// with this remainder, and has the low bits of the clock there; 0 is none.
pub const HINT_ENTRIES: usize = 1024;

const HINT_BASE: u32 = 65536;

// From the cursor of a rest past those of the parts, which no rules without a split allow.
const PAST_PARTS: u32 = Pause::WeeklyRest as u32 - Pause::Rest as u32;

// A label whose candidates are looked for: its state, how many labels stand before it, and the last of
// those at its junction, or 0.
#[derive(Clone, Copy)]
pub struct Asking {
    pub state: State,
    pub before: usize,
    pub last: usize,
}

// What is asked for: such a label's candidate above a bound. Where the last label before has its clock,
// hints tell something.
#[derive(Clone, Copy)]
struct Search {
    of: Asking,
    bound: State,
    tied: bool,
}

// A label and a move of it.
#[derive(Clone, Copy)]
struct Rival {
    label: usize,
    cursor: u32,
}

impl Rival {
    // None where there is no such label.
    fn of(label: usize, cursor: u32) -> Option<Rival>
        ensures { SomeIff result (1 ≤ label) (record { label = label; cursor = cursor }) }
    {
        (label != 0).then_some(Rival { label, cursor })
    }
}

// The kind of pause under a cursor above those of the roads.
fn pause_under(roads: u32, cursor: u32) -> Pause
    requires { (roads < cursor) × (cursor < roads + last_pause) }
    ensures { pause_number result ≡ cursor - roads + 1 }
{
    Pause::numbered(cursor - roads + 1)
}

// When the road of this number is entered by a lorry that comes at this moment.
#[cold]
fn behind_queue(run: &OpenRun<'_>, clock: Clock, road: u32) -> Clock
    requires { clock.0 ≤ 2000000000 }
    ensures { (result.0 ≡ entered_when (closed_in run.now.closed.now road) clock.0) × (result.0 ≤ 2000079200) }
{
    moves::entry_time(bans::is_closed(run.closed, road), clock)
}

// The same. Where no road is banned nothing is asked.
#[tactic(auto, using(bans::proofs::Marking::none_closed))]
fn entry_at(run: &OpenRun<'_>, clock: Clock, road: u32) -> Clock
    requires { clock.0 ≤ 2000000000 }
    ensures { (result.0 ≡ entered_when (closed_in run.now.closed.now road) clock.0) × (result.0 ≤ 2000079200) }
{
    if run.closed.is_empty() {
        return clock;
    }
    behind_queue(run, clock, road)
}

// The state that a cursor's move leads to, legal or not. A road is entered at this moment; a pause takes no notice of it.
fn result_at(run: &OpenRun<'_>, state: State, entry: Clock, cursor: u32) -> State
    requires range_in { RangeIn (searched_trip run.now) state }
    requires enters { (entry.0 ≡ entered_when (closed_in run.now.closed.now cursor) state.clock.0) × (entry.0 ≤ 2000079200) }
    requires le_cursor { (1 ≤ cursor) × (cursor < roads_in (searched_trip run.now) + last_pause) }
    ensures { result ≡ result_at (searched_trip run.now) state cursor }
{
    let roads = run.about.sizes.roads;
    if cursor <= roads {
        return moves::after_drive(run, state, entry, cursor);
    }
    moves::after_pause(run.about, state, pause_under(roads, cursor))
}

// The same of a candidate, which knows its junction and its clock: that and the moment of entry say how long a drive
// takes, so that the map is not read.
pub fn result_by(run: &OpenRun<'_>, state: State, c: Candidate) -> State
    requires range_in { RangeIn (searched_trip run.now) state }
    requires fitting { Fitting (searched_trip run.now) state c × (1 ≤ c.cursor) }
    ensures { result ≡ result_at (searched_trip run.now) state c.cursor }
{
    let roads = run.about.sizes.roads;
    let figures = if c.cursor <= roads {
        let entry = entry_at(run, state.clock, c.cursor);
        driving::driven(state.figures, c.clock.0 - entry.0)
    } else {
        driving::cleared(state.figures, pause_under(roads, c.cursor))
    };
    State {
        junction: c.junction,
        clock: c.clock,
        figures,
    }
}

// Of two candidates with one clock the lower-ranked; the first, where both lead to one state.
fn lower(run: &OpenRun<'_>, state: State, best: Candidate, reached: State, cursor: u32) -> Candidate
    requires range_in { RangeIn (searched_trip run.now) state }
    requires fitting { Fitting (searched_trip run.now) state best × (1 ≤ best.cursor) }
    requires reached_value { (reached ≡ result_at (searched_trip run.now) state cursor) × (reached.clock.0 ≡ best.clock.0) }
    ensures { Joined (searched_trip run.now) state best cursor result }
{
    let before = result_by(run, state, best);
    if states::same_state(before, reached) {
        return best;
    }
    if states::ranks_no_higher(before, reached) {
        return Candidate { more: true, ..best };
    }
    Candidate {
        cursor,
        junction: reached.junction,
        clock: best.clock,
        more: true,
    }
}

// The best so far with one more that no label covers: by clocks, and by whole states only where these are equal.
fn joined(
    run: &OpenRun<'_>,
    state: State,
    best: Candidate,
    reached: State,
    cursor: u32,
) -> Candidate
    requires range_in { RangeIn (searched_trip run.now) state }
    requires fitting { Fitting (searched_trip run.now) state best × Names (searched_trip run.now) state cursor }
    requires reached_value { reached ≡ result_at (searched_trip run.now) state cursor }
    ensures { Joined (searched_trip run.now) state best cursor result }
{
    if reached.clock == best.clock {
        return lower(run, state, best, reached, cursor);
    }
    if reached.clock < best.clock {
        return Candidate {
            cursor,
            junction: reached.junction,
            clock: reached.clock,
            more: best.cursor != 0,
        };
    }
    Candidate { more: true, ..best }
}

// Whether the rules have the pause under a cursor for the driver's figures; a road needs nothing of them.
fn allowed(run: &OpenRun<'_>, state: State, cursor: u32) -> bool
    requires { cursor < run.now.about.sizes.roads + last_pause }
    ensures { result ≡ allowed run.now.about state cursor }
{
    let roads = run.about.sizes.roads;
    cursor <= roads
        || driving::allows_pause(
            run.about.order.rules,
            state.figures,
            pause_under(roads, cursor),
        )
}

// Whether the last label before has the clock of this state. Hints are looked at and kept only then:
// where clocks are seldom equal they cost more than they spare.
fn shares_clock(labels: &SettledLabels<'_>, of: Asking) -> bool
    requires { of.before ≤ labels.now.count }
{
    of.before != 0 && labels::read_label(labels.words, of.before).clock == of.state.clock
}

// The road of a hint, taken by the last label where it begins; none where the hint is of another clock.
fn hinted(run: &OpenRun<'_>, labels: &SettledLabels<'_>, hint: u32, clock: Clock) -> Option<Rival>
    requires run_in_bounds { junctions_in (searched_trip run.now) < length labels.now.places.now }
    ensures { Contends (searched_trip run.now) labels.now.words.now result }
{
    let road = hint / HINT_BASE;
    if hint % HINT_BASE != clock.0 % HINT_BASE || road == 0 || run.about.sizes.roads < road {
        return None;
    }
    let from = run.road_map().road_from(road);
    Rival::of(labels.places[from as usize].last as usize, road)
}

// What may forestall the move under this cursor: the same pause of the last label before at the
// junction or, where clocks are tied, a drive to the same junction, by the hint.
fn rival_of(
    run: &OpenRun<'_>,
    labels: &SettledLabels<'_>,
    hint: u32,
    search: &Search,
    cursor: u32,
    clock: Clock,
) -> Option<Rival>
    requires run_in_bounds { junctions_in (searched_trip run.now) < length labels.now.places.now }
    requires worth { roads_in (searched_trip run.now) < cursor → 1 ≤ search.now.of.last → Worth (searched_trip run.now) (label_at labels.now.words.now search.now.of.last) cursor }
    ensures { Contends (searched_trip run.now) labels.now.words.now result }
{
    if run.about.sizes.roads < cursor {
        return Rival::of(search.of.last, cursor);
    }
    if search.tied {
        hinted(run, labels, hint, clock)
    } else {
        None
    }
}

// Whether a rival, of a label before, leads to a state that covers this one.
fn leads(
    run: &OpenRun<'_>,
    labels: &SettledLabels<'_>,
    before: usize,
    by: Rival,
    reached: State,
) -> bool
    requires ranged { Ranged (searched_trip run.now) labels.now.words.now before × (before ≤ labels.now.count) }
    requires contends { Contends (searched_trip run.now) labels.now.words.now (Some by) × (legal run.now.about.order reached ≡ true) }
    ensures { result ≡ true → Preceded (searched_trip run.now) labels.now.words.now before reached }
{
    if before < by.label {
        return false;
    }
    // A banned road of a label before is passed over: the gate would cost more here than the turn that it spares.
    if bans::is_closed(run.closed, by.cursor) {
        return false;
    }
    let label = labels::read_label(labels.words, by.label);
    allowed(run, label, by.cursor)
        && states::covers(result_at(run, label, label.clock, by.cursor), reached)
}

// Whether a label before has a successor that covers this one, where the last at the junction or a hint
// shows one. Its turn comes first.
fn forestalled(
    run: &OpenRun<'_>,
    labels: &SettledLabels<'_>,
    hints: &[u32],
    search: &Search,
    cursor: u32,
    reached: State,
) -> bool
    requires lawful { legal run.now.about.order reached ≡ true }
    requires run_in_bounds { junctions_in (searched_trip run.now) < length labels.now.places.now }
    requires ranged { Ranged (searched_trip run.now) labels.now.words.now search.now.of.before × (search.now.of.before ≤ labels.now.count) × (hint_entries ≤ length hints.now) }
    requires worth { roads_in (searched_trip run.now) < cursor → 1 ≤ search.now.of.last → Worth (searched_trip run.now) (label_at labels.now.words.now search.now.of.last) cursor }
    ensures { result ≡ true → Preceded (searched_trip run.now) labels.now.words.now search.now.of.before reached }
{
    let hint = hints[reached.junction as usize % HINT_ENTRIES];
    let Some(by) = rival_of(run, labels, hint, search, cursor, reached.clock) else {
        return false;
    };
    leads(run, labels, search.of.before, by, reached)
}

// Keeps a hint of the road under a cursor, where clocks are tied; of a pause none.
fn keep_hint(hints: &mut [u32], run: &OpenRun<'_>, tied: bool, reached: State, cursor: u32)
    requires { hint_entries ≤ length hints.old }
{
    if tied && cursor <= run.about.sizes.roads {
        hints[reached.junction as usize % HINT_ENTRIES] = HINT_BASE * cursor
            + reached.clock.0 % HINT_BASE;
    }
}

// The best so far with the successor under this cursor. Labels are looked at only where it would tell something.
fn weigh(
    run: &OpenRun<'_>,
    labels: &SettledLabels<'_>,
    hints: &mut [u32],
    search: &Search,
    best: Candidate,
    cursor: u32,
) -> Candidate
    requires range_in { RangeIn (searched_trip run.now) search.now.of.state }
    requires run_in_bounds { junctions_in (searched_trip run.now) < length labels.now.places.now }
    requires before_le_n { (search.now.of.before ≤ labels.now.count) × Ranged (searched_trip run.now) labels.now.words.now search.now.of.before × Stands labels.now.words.now search.now.of.state.junction search.now.of.last × (hint_entries ≤ length hints.old) }
    requires worth { Worth (searched_trip run.now) search.now.of.state cursor × BestBelow (searched_trip run.now) (settled labels.now.words.now labels.now.count) search.now.of.before search.now.of.state search.now.bound cursor best }
    ensures { BestBelow (searched_trip run.now) (settled labels.now.words.now labels.now.count) search.now.of.before search.now.of.state search.now.bound (cursor + 1) result }
{
    let state = search.of.state;
    if !allowed(run, state, cursor) {
        return best;
    }
    let entry = entry_at(run, state.clock, cursor);
    let reached = result_at(run, state, entry, cursor);
    if best.more && best.clock < reached.clock
        || !states::is_legal(run.about.order, reached)
        || states::ranks_no_higher(reached, search.bound)
        || labels.covered(0, reached)
        || forestalled(run, labels, hints, search, cursor, reached)
    {
        return best;
    }
    keep_hint(hints, run, search.tied, reached, cursor);
    joined(run, state, best, reached, cursor)
}

// The cursor after those of the roads: that of the first kind of pause, 0 where no car park is.
fn first_pause(run: &OpenRun<'_>, state: State) -> u32
    requires range_in { RangeIn (searched_trip run.now) state }
    ensures { Follows (searched_trip run.now) state (roads_in (searched_trip run.now)) result }
{
    let map = run.road_map();
    if map.car_park(state.junction) == 1 {
        map.sizes.roads + 1
    } else {
        0
    }
}

// Cursors in rising order: the roads of the junction, along its chain, then at a car park the kinds of pause. 0 is the end.
fn first_cursor(run: &OpenRun<'_>, state: State) -> u32
    requires range_in { RangeIn (searched_trip run.now) state }
    ensures { Follows (searched_trip run.now) state 0 result }
{
    match run.road_map().first_road(state.junction) {
        0 => first_pause(run, state),
        road => road,
    }
}

fn following(run: &OpenRun<'_>, state: State, cursor: u32) -> u32
    requires range_in { RangeIn (searched_trip run.now) state }
    requires worth { Worth (searched_trip run.now) state cursor }
    ensures { Follows (searched_trip run.now) state cursor result }
{
    let map = run.road_map();
    if cursor <= map.sizes.roads {
        return match map.next_road(cursor) {
            0 => first_pause(run, state),
            road => road,
        };
    }
    match pause_under(map.sizes.roads, cursor) {
        Pause::WeeklyRest => 0,
        Pause::Rest if !driving::has_split(run.about.order.rules) => cursor + PAST_PARTS,
        _ => cursor + 1,
    }
}

// The lowest-ranked successor above the bound that is not seen to need no turn, if there is one.
pub fn next_candidate(
    run: &OpenRun<'_>,
    labels: &SettledLabels<'_>,
    hints: &mut [u32],
    of: Asking,
    bound: State,
) -> Candidate
    requires range_in { RangeIn (searched_trip run.now) of.state }
    requires run_in_bounds { junctions_in (searched_trip run.now) < length labels.now.places.now }
    requires before_le_n { (of.before ≤ labels.now.count) × Ranged (searched_trip run.now) labels.now.words.now of.before × Stands labels.now.words.now of.state.junction of.last × (hint_entries ≤ length hints.old) }
    ensures { NextIs (searched_trip run.now) (settled labels.now.words.now labels.now.count) of.before of.state bound result }
{
    let tied = shares_clock(labels, of);
    let search = Search { of, bound, tied };
    let mut best = Candidate::NONE;
    let mut cursor = first_cursor(run, of.state);
    while 0 < cursor {
        let weighed = weigh(run, labels, hints, &search, best, cursor);
        // Field by field, so that no turn of the loop carries the bytes that fill `more` up to a word.
        let clock = weighed.clock;
        best = Candidate {
            cursor: weighed.cursor,
            junction: weighed.junction,
            clock,
            more: weighed.more,
        };
        cursor = following(run, of.state, cursor);
    }
    best
}

// The next candidate of a label after the one at the bound, where a flag says whether there may be more.
pub fn candidate_after(
    run: &OpenRun<'_>,
    labels: &SettledLabels<'_>,
    hints: &mut [u32],
    of: Asking,
    bound: State,
    more: bool,
) -> Candidate
    requires range_in { RangeIn (searched_trip run.now) of.state }
    requires run_in_bounds { junctions_in (searched_trip run.now) < length labels.now.places.now }
    requires before_le_n { (of.before ≤ labels.now.count) × Ranged (searched_trip run.now) labels.now.words.now of.before × Stands labels.now.words.now of.state.junction of.last × (hint_entries ≤ length hints.old) }
    requires spent { more ≡ false → Spent (searched_trip run.now) (settled labels.now.words.now labels.now.count) of.before of.state bound }
    ensures { NextIs (searched_trip run.now) (settled labels.now.words.now labels.now.count) of.before of.state bound result }
{
    if more {
        next_candidate(run, labels, hints, of, bound)
    } else {
        Candidate::NONE
    }
}
