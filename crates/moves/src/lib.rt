// Moves: the drive and the pauses, over a map's bytes.
#![tactic(auto)]

mod given;

ghost use Rattle.std.specs.Prelude.{◌≡◌, Bool, true, ℕ, ◌≤◌, T, eqb};
ghost use Rattle.replies.specs.First.{first_of};
ghost use Rattle.replies.specs.Told.{succeeded, told_check};
ghost use Rattle.theory.specs.Figures.{none_above};
ghost use Rattle.roadmap.specs.Format.{junction_count, road_count};
ghost use Rattle.driving.specs.Accepted.{SoundRules};
ghost use Rattle.driving.specs.Hours.{wheel_figures, highest_limits};
ghost use Rattle.driving.specs.Pauses.{pause_number};
ghost use Rattle.states.specs.States.{legal};
ghost use Rattle.bans.specs.Bans.{listed_in};
ghost use Rattle.moves.specs.Trip.{road_time, road_in, none_banned};
ghost use Rattle.moves.specs.Moves.{move, entered_when, driven_from, driven, paused, judged, stepped, leaves, may_pause};
ghost use Rattle.moves.specs.Runs.{struck_of, trip_in, end_when, stretch_in, InRange, RangeIn};
ghost use Rattle.moves.specs.OpenRuns.{listed_trip};
ghost use Rattle.moves.specs.Given.{given_of};
ghost use Rattle.moves.specs.RunTests.{order_check_tests};
ghost use Rattle.moves.specs.Opened.{ReadSays, ListedSays, OpenedSays};

use driving::{Order, Pause};
pub use given::OpenRun;
use replies::Refusal;
use roadmap::Sizes;
use seconds::Clock;
use states::State;

// What a run is about, beside the map's bytes: decoded once, handed down every call.
#[derive(Clone, Copy)]
pub struct Run {
    pub sizes: Sizes,
    pub order: Order,
    // the road that is struck for this run
    pub struck: Option<u32>,
}

// Kind 1 is a drive of a road, the others are pauses at a junction. Both are any numbers, as a sheet may hold them.
#[derive(Clone, Copy)]
pub struct Move {
    pub kind: u32,
    pub number: u32,
}

impl Move {
    pub const DRIVE: u32 = 1;
}

// Why a move leads to no state: it is not offered, or its result is not legal.
#[derive(Clone, Copy, PartialEq, Eq)]
pub enum Fault {
    Foreign,
    Overrun,
}

// The seconds that road r takes.
pub fn seconds_of(run: &OpenRun<'_>, r: u32) -> u32
    requires { (1 ≤ r) × (r ≤ road_count run.now.map.now) }
    ensures { (result ≡ road_time run.now.map.now r) × (result ≤ 1440000) }
{
    let map = run.road_map();
    roadmap::road_seconds(map.road_metres(r), map.road_speed(r))
}

// Where road r leads: a struck one back to where it begins.
fn end_of(run: &OpenRun<'_>, r: u32) -> u32
    requires { (1 ≤ r) × (r ≤ road_count run.now.map.now) }
    ensures { result ≡ end_when (eqb r (struck_of run.now.about)) run.now.map.now r }
{
    let map = run.road_map();
    if run.about.struck == Some(r) {
        map.road_from(r)
    } else {
        map.road_to(r)
    }
}

// When a road is entered by a lorry that comes at this moment: a banned one when its gate opens.
pub fn entry_time(banned: bool, clock: Clock) -> Clock
    requires { clock.0 ≤ 2000000000 }
    ensures { (result.0 ≡ entered_when banned clock.0) × (result.0 ≤ 2000079200) }
{
    if banned { calendar::gate(clock) } else { clock }
}

// The state after driving road r, which is entered at this moment, by the road's end and its time alone.
pub fn after_drive(run: &OpenRun<'_>, state: State, entry: Clock, r: u32) -> State
    requires entry_bound { (entry.0 ≤ 2000079200) × T (none_above (wheel_figures state.figures) highest_limits) }
    requires le_r { (1 ≤ r) × (r ≤ road_count run.now.map.now) }
    ensures { result ≡ driven_from entry.0 (stretch_in run.now.map.now none_banned run.now.about r) state }
{
    let time = seconds_of(run, r);
    State {
        junction: end_of(run, r),
        clock: Clock(entry.0 + time),
        figures: driving::driven(state.figures, time),
    }
}

// The drive of road r, which the run's list says is banned or not.
#[tactic(auto, using(crate::proofs::Rising::drives_on))]
pub fn after_listed_drive(run: &OpenRun<'_>, state: State, r: u32) -> State
    requires range_in { RangeIn (listed_trip run.now) state }
    requires le_r { (1 ≤ r) × (r ≤ road_count run.now.map.now) }
    ensures { result ≡ driven (road_in (listed_trip run.now) r) state }
{
    let entry = entry_time(bans::is_listed(run.bans, r), state.clock);
    after_drive(run, state, entry, r)
}

// The state after a pause of this kind.
pub fn after_pause(about: Run, state: State, pause: Pause) -> State
    requires { SoundRules about.order.rules × (state.clock.0 ≤ 2000000000) }
    ensures { result ≡ paused (pause_number pause) about.order.rules state }
{
    let time = driving::pause_time(about.order.rules, pause);
    State {
        clock: Clock(state.clock.0 + time.0),
        figures: driving::cleared(state.figures, pause),
        ..state
    }
}

// Whether road r, any number, leaves junction j, whichever roads are banned.
#[tactic(auto, using(crate::proofs::Trips::leaves_by_map))]
pub fn leaves_road(run: &OpenRun<'_>, j: u32, r: u32) -> bool
    ensures { (banned : ℕ → Bool) → result ≡ leaves (trip_in run.now.map.now banned run.now.about) j r }
{
    let map = run.road_map();
    1 <= r && r <= map.sizes.roads && map.road_from(r) == j
}

// Whether the rules offer a pause of this kind, any number, in a state, whichever roads are banned.
#[tactic(auto, using(crate::proofs::Trips::may_pause_by_map))]
pub fn may_pause(run: &OpenRun<'_>, state: State, kind: u32) -> bool
    requires { InRange (junction_count run.now.map.now) run.now.about.order state }
    ensures { (banned : ℕ → Bool) → result ≡ may_pause (trip_in run.now.map.now banned run.now.about) state kind }
{
    let Ok(pause) = Pause::try_from(kind) else {
        return false;
    };
    run.road_map().car_park(state.junction) == 1
        && driving::allows_pause(run.about.order.rules, state.figures, pause)
}

// What an offered move comes to, by the state after it.
fn judge(order: Order, state: State) -> Result<State, Fault>
    ensures { result ≡ judged true (legal order state) state }
{
    if states::is_legal(order, state) {
        Ok(state)
    } else {
        Err(Fault::Overrun)
    }
}

// The drive of road r, any number.
#[tactic(auto, using(crate::proofs::Trips::run_tied, crate::proofs::Stepped::leaves_range))]
pub fn drive(run: &OpenRun<'_>, state: State, r: u32) -> Result<State, Fault>
    requires { RangeIn (listed_trip run.now) state }
    ensures { result ≡ stepped (listed_trip run.now) state (move 1 r) }
{
    if !leaves_road(run, state.junction, r) {
        return Err(Fault::Foreign);
    }
    judge(run.about.order, after_listed_drive(run, state, r))
}

// A pause, of any kind but a drive's and at a junction of any number, whichever roads are banned.
pub fn pause(run: &OpenRun<'_>, state: State, m: Move) -> Result<State, Fault>
    requires in_range { InRange (junction_count run.now.map.now) run.now.about.order state }
    requires not_a_drive { m.kind ≡ 1 → ⊥ }
    ensures { (banned : ℕ → Bool) → result ≡ stepped (trip_in run.now.map.now banned run.now.about) state m }
{
    if m.number != state.junction || !may_pause(run, state, m.kind) {
        return Err(Fault::Foreign);
    }
    let pause = Pause::numbered(m.kind);
    judge(run.about.order, after_pause(run.about, state, pause))
}

// Any move, as a sheet may hold it.
#[tactic(auto, using(crate::proofs::Trips::run_tied, crate::proofs::Rising::range_in))]
pub fn take_move(run: &OpenRun<'_>, state: State, m: Move) -> Result<State, Fault>
    requires { RangeIn (listed_trip run.now) state }
    ensures { result ≡ stepped (listed_trip run.now) state m }
{
    match m.kind {
        Move::DRIVE => drive(run, state, m.number),
        _ => pause(run, state, m),
    }
}

// The run of a map and an order that are accepted, with no road banned; otherwise refusals 1 to 11.
pub fn read_run<'a>(map: &'a [u8], order: &[u8]) -> Result<OpenRun<'a>, Refusal>
    ensures { ReadSays map.now order.now result }
{
    mapcheck::check_map(map)?;
    let sizes = roadmap::sizes_of(map);
    driving::check_order(order, sizes.junctions)?;
    let about = Run {
        sizes,
        order: driving::read_order(order),
        struck: None,
    };
    Ok(OpenRun {
        map,
        closed: &[],
        bans: &[],
        about,
    })
}

impl<'a> OpenRun<'a> {
    // The same run with this list of banned roads; otherwise refusal 25.
    pub fn with_bans(self, bans: &'a [u32]) -> Result<OpenRun<'a>, Refusal>
        ensures { ListedSays self.entry bans.now result }
    {
        bans::check_bans(bans, self.about.sizes.roads)?;
        Ok(OpenRun {
            map: self.map,
            closed: self.closed,
            bans,
            about: self.about,
        })
    }
}

// The same with a list of banned roads; otherwise refusals 1 to 11, then 25.
pub fn open_run<'a>(map: &'a [u8], order: &[u8], bans: &'a [u32]) -> Result<OpenRun<'a>, Refusal>
    ensures { OpenedSays (given_of map.now order.now bans.now) result }
{
    read_run(map, order)?.with_bans(bans)
}

// The order check: an order and its list alone, for a map of so many junctions and roads.
pub fn check_order(order: &[u8], bans: &[u32], junctions: u32, roads: u32) -> Result<(), Refusal>
    ensures { told_check result ≡ first_of (order_check_tests junctions roads order.now bans.now) (succeeded 0 0) }
{
    driving::check_order(order, junctions)?;
    bans::check_bans(bans, roads)
}
