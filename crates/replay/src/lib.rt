// Hours from the tachograph: a trace of what the driver did is replayed over the driver's figures. Refusals 10, 11 and 21 to 23.
#![tactic(auto)]

ghost use Rattle.std.specs.Prelude.{◌≡◌, false, ◌*◌, ◌≤◌, length, Ok, Err, MatchResult};
ghost use Rattle.replies.specs.First.{first_of};
ghost use Rattle.replies.specs.Told.{succeeded, told_check};
ghost use Rattle.driving.specs.Accepted.{SoundRules, SoundFigures};
ghost use Rattle.replay.specs.Trace.{trace_record_bytes, trace_record_at, record_count};
ghost use Rattle.replay.specs.Replay.{after_short_pause, after_pause, is_odd, Replayed};
ghost use Rattle.replay.specs.Steps.{activity_number, begun, start_tests, lengthened, Sound, step_on, stepped, WalkSays, TraceSays};

use driving::{Figures, Pause, Rules};
use replies::Refusal;
use seconds::Clock;

// A pair of words of the trace, each any number: the activity says whether the seconds are wheel or clock time.
#[derive(Clone, Copy)]
pub struct TraceRecord {
    pub activity: u32,
    pub seconds: u32,
}

// The activities, with their numbers in a record.
#[derive(Clone, Copy, PartialEq, Eq)]
enum Activity {
    OtherWork = 0,
    Driving = 1,
    Pause = 2,
}

impl TraceRecord {
    pub const BYTES: usize = 8;

    pub const MOST_SECONDS: u32 = 1000000;

    // The activity of a record that is not odd.
    #[tactic(auto, unfolding(crate::specs::Replay::is_odd))]
    fn activity(self) -> Activity
        requires { is_odd self ≡ false }
        ensures { activity_number result ≡ self.activity }
    {
        match self.activity {
            0 => Activity::OtherWork,
            1 => Activity::Driving,
            _ => Activity::Pause,
        }
    }
}

// The figures before the pause that is under way, and how long that pause is so far: 0 where none is.
#[derive(Clone, Copy)]
struct Underway {
    figures: Figures,
    pause: Clock,
}

impl Underway {
    // No pause is under way.
    fn begun(figures: Figures) -> Underway
        ensures { result ≡ begun figures }
    {
        Underway {
            figures,
            pause: Clock(0),
        }
    }
}

// What a replay ends with.
#[derive(Clone, Copy)]
pub struct Outcome {
    pub answer: Result<usize, Refusal>,
    pub figures: Figures,
}

// Record k, counted from 1.
fn read_record(trace: &[u8], k: usize) -> TraceRecord
    requires { (1 ≤ k) × (trace_record_bytes * k ≤ length trace.now) }
    ensures { result ≡ trace_record_at trace.now k }
{
    let at = TraceRecord::BYTES * (k - 1);
    TraceRecord {
        activity: words::word(trace, at),
        seconds: words::word(trace, at + 4),
    }
}

// Refusal 22.
#[tactic(auto, unfolding(crate::specs::Replay::is_odd))]
fn is_odd(taken: TraceRecord) -> bool
    ensures { result ≡ is_odd taken }
{
    taken.activity > Activity::Pause as u32
        || taken.seconds < 1
        || TraceRecord::MOST_SECONDS < taken.seconds
}

// The figures after a whole pause that is shorter than the break: it may be a part of one.
fn after_short_pause(figures: Figures, rules: Rules, pause: Clock) -> Figures
    ensures { result ≡ after_short_pause rules pause.0 figures }
{
    if !driving::has_split(rules) {
        figures
    } else if figures.marked && rules.second_part <= pause {
        driving::cleared(figures, Pause::SecondPart)
    } else if rules.first_part <= pause {
        driving::cleared(figures, Pause::FirstPart)
    } else {
        figures
    }
}

// The figures after a whole pause.
fn after_pause(figures: Figures, rules: Rules, pause: Clock) -> Figures
    ensures { result ≡ after_pause rules pause.0 figures }
{
    if rules.weekly_rest <= pause {
        driving::cleared(figures, Pause::WeeklyRest)
    } else if rules.rest_time <= pause {
        driving::cleared(figures, Pause::Rest)
    } else if rules.break_time <= pause {
        driving::cleared(figures, Pause::Break)
    } else {
        after_short_pause(figures, rules, pause)
    }
}

// A pause that goes on. Nothing asks for a longer one than the longest weekly rest, so the sum stops there and never wraps.
fn lengthened(pause: Clock, more: Clock) -> Clock
    requires { (pause.0 ≤ 1000000) × (more.0 ≤ 1000000) }
    ensures { result.0 ≡ lengthened pause.0 more.0 }
{
    Clock((pause.0 + more.0).min(TraceRecord::MOST_SECONDS))
}

// One record more, which is not odd.
#[tactic(auto, using(crate::proofs::Sounds::seconds_high, crate::proofs::Sounds::drivable, crate::proofs::Sounds::paused_sound))]
fn step_on(before: Underway, rules: Rules, taken: TraceRecord) -> Underway
    requires { Sound rules before × (is_odd taken ≡ false) }
    ensures { result ≡ step_on rules before taken }
{
    let Underway { figures, pause } = before;
    match taken.activity() {
        Activity::Pause => Underway {
            figures,
            pause: lengthened(pause, Clock(taken.seconds)),
        },
        Activity::Driving => {
            let settled = after_pause(figures, rules, pause);
            Underway::begun(driving::driven(settled, taken.seconds))
        }
        Activity::OtherWork => Underway::begun(after_pause(figures, rules, pause)),
    }
}

// Record k: 22 before 23.
fn take_record(
    before: Underway,
    rules: Rules,
    taken: TraceRecord,
    k: usize,
) -> Result<Underway, Refusal>
    requires { Sound rules before }
    ensures { result ≡ stepped rules before k taken }
{
    if is_odd(taken) {
        return Err(Refusal::OddRecord(k));
    }
    let next = step_on(before, rules, taken);
    if taken.activity() == Activity::Driving && !driving::within_limits(next.figures, rules) {
        return Err(Refusal::PastLimit(k));
    }
    Ok(next)
}

// All records in turn, from the first.
fn walk_records(trace: &[u8], rules: Rules, figures: Figures) -> Result<Underway, Refusal>
    requires { SoundRules rules × SoundFigures figures rules }
    ensures { WalkSays trace.now rules figures result }
{
    let mut underway = Underway::begun(figures);
    for done in 0..trace.len() / TraceRecord::BYTES {
        let taken = read_record(trace, done + 1);
        underway = take_record(underway, rules, taken, done + 1)?;
    }
    Ok(underway)
}

// Refusals 21 to 23.
#[tactic(auto, using(crate::proofs::Replays::torn_refuses, crate::proofs::Replays::whole_says))]
fn judge_trace(trace: &[u8], rules: Rules, figures: Figures) -> Result<Underway, Refusal>
    requires { SoundRules rules × SoundFigures figures rules }
    ensures { TraceSays trace.now rules figures result }
{
    if trace.len() % TraceRecord::BYTES != 0 {
        return Err(Refusal::TornTrace(trace.len()));
    }
    walk_records(trace, rules, figures)
}

// Refusals 10 and 11: the rules and the starting figures, as an order's.
#[tactic(auto, using(replies::proofs::First::refusal_number), unfolding(replies::specs::First::first_of))]
fn check_start(rules: Rules, figures: Figures) -> Result<(), Refusal>
    ensures { told_check result ≡ first_of (start_tests rules figures) (succeeded 0 0) }
{
    driving::check_rules(rules)?;
    driving::check_figures(figures, rules)
}

// The figures brought up to date by each activity of the trace, or why the trace is refused.
fn brought_up_to_date(trace: &[u8], rules: Rules, figures: Figures) -> Result<Figures, Refusal>
    ensures { MatchResult result
        (λ after. Replayed trace.now rules figures after (Ok (record_count trace.now)))
        (λ why. Replayed trace.now rules figures figures (Err why)) }
{
    check_start(rules, figures)?;
    let last = judge_trace(trace, rules, figures)?;
    Ok(after_pause(last.figures, rules, last.pause))
}

// Replaying: the lent figures are brought up to date by each activity of the trace; a refused trace leaves them.
pub fn replay(trace: &[u8], rules: Rules, figures: &mut Figures) -> Result<usize, Refusal>
    ensures { Replayed trace.now rules figures.old figures.new result }
{
    *figures = brought_up_to_date(trace, rules, *figures)?;
    Ok(trace.len() / TraceRecord::BYTES)
}

// The same for figures that are not lent as a struct: whoever calls this needs no reference to one.
pub fn replay_from(trace: &[u8], rules: Rules, figures: Figures) -> Outcome
    ensures { Replayed trace.now rules figures result.figures result.answer }
{
    let mut lent = figures;
    let answer = replay(trace, rules, &mut lent);
    Outcome {
        answer,
        figures: lent,
    }
}
