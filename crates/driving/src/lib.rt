// The driver's rules and figures, the order, and the order check: refusals 9 to 11.
#![tactic(auto)]

ghost use Rattle.std.specs.Prelude.{OnOk, IfErr, true, false, ◌≡◌, [], ◌∷◌, ◌≤◌, T, length};
ghost use Rattle.theory.specs.Figures.{none_above};
ghost use Rattle.replies.specs.Told.{succeeded, told_check};
ghost use Rattle.replies.specs.First.{◌at◌, first_of};
ghost use Rattle.driving.specs.Pauses.{pause_number, PauseNumbered};
ghost use Rattle.driving.specs.Order.{european_rules, order_bytes, order_of, part_taken, bad_rules, bad_ends, bad_figures, bad_trip, order_tests};
ghost use Rattle.driving.specs.Hours.{wheel_figures, wheel_limits, highest_limits, unmarked, driven_on, first_pause, last_pause, has_split, pause_seconds, allows_pause, cleared};

use replies::Refusal;
use seconds::{Clock, Wheel};

// How long the driver may be at the wheel, and how long the pauses are that allow more.
#[derive(Clone, Copy)]
pub struct Rules {
    pub spell_limit: Wheel,
    pub break_time: Clock,
    pub shift_limit: Wheel,
    pub rest_time: Clock,
    // The parts that together stand for a break, both 0 where the rules have no split.
    pub first_part: Clock,
    pub second_part: Clock,
    pub week_limit: Wheel,
    pub weekly_rest: Clock,
}

impl Rules {
    // The European figures.
    pub const EUROPEAN_SPELL_LIMIT: Wheel = Wheel(16200);

    pub const EUROPEAN_BREAK_TIME: Clock = Clock(2700);

    pub const EUROPEAN_SHIFT_LIMIT: Wheel = Wheel(32400);

    pub const EUROPEAN_REST_TIME: Clock = Clock(39600);

    pub const EUROPEAN_FIRST_PART: Clock = Clock(900);

    pub const EUROPEAN_SECOND_PART: Clock = Clock(1800);

    pub const EUROPEAN_WEEK_LIMIT: Wheel = Wheel(201600);

    pub const EUROPEAN_WEEKLY_REST: Clock = Clock(162000);

    pub fn european() -> Rules
        ensures { result ≡ european_rules }
    {
        Rules {
            spell_limit: Rules::EUROPEAN_SPELL_LIMIT,
            break_time: Rules::EUROPEAN_BREAK_TIME,
            shift_limit: Rules::EUROPEAN_SHIFT_LIMIT,
            rest_time: Rules::EUROPEAN_REST_TIME,
            first_part: Rules::EUROPEAN_FIRST_PART,
            second_part: Rules::EUROPEAN_SECOND_PART,
            week_limit: Rules::EUROPEAN_WEEK_LIMIT,
            weekly_rest: Rules::EUROPEAN_WEEKLY_REST,
        }
    }
}

// Wheel time since the last pause that cleared it, since the last rest and since the last weekly rest; whether a first part
// waits for its second.
#[derive(Clone, Copy, PartialEq, Eq)]
pub struct Figures {
    pub spell: Wheel,
    pub shift: Wheel,
    pub week: Wheel,
    pub marked: bool,
}

// The kinds of pause, with their numbers as kinds of a move.
#[derive(Clone, Copy, PartialEq, Eq)]
pub enum Pause {
    Break = 2,
    Rest = 3,
    FirstPart = 4,
    SecondPart = 5,
    WeeklyRest = 6,
}

// A number that is no kind of pause.
#[derive(Clone, Copy, PartialEq, Eq)]
pub struct NoPause(pub u32);

impl Pause {
    // The lowest number and the highest.
    pub const FIRST: u32 = Pause::Break as u32;

    pub const LAST: u32 = Pause::WeeklyRest as u32;

    pub fn number(self) -> u32
        ensures { result ≡ pause_number self }
    {
        self as u32
    }

    // The kind of pause of this number.
    pub fn numbered(number: u32) -> Pause
        requires { (first_pause ≤ number) × (number ≤ last_pause) }
        ensures { pause_number result ≡ number }
    {
        match number {
            2 => Pause::Break,
            3 => Pause::Rest,
            4 => Pause::FirstPart,
            5 => Pause::SecondPart,
            _ => Pause::WeeklyRest,
        }
    }
}

impl TryFrom<u32> for Pause {
    type Error = NoPause;

    ghost try_from_gives = { PauseNumbered };

    fn try_from(number: u32) -> Result<Pause, NoPause> {
        if number < Pause::FIRST || Pause::LAST < number {
            return Err(NoPause(number));
        }
        Ok(Pause::numbered(number))
    }
}

// The mark as a figure, of which the lower one is better.
pub fn unmarked(figures: Figures) -> u32
    ensures { result ≡ unmarked figures }
{
    u32::from(!figures.marked)
}

// The figures after driving on: one road time is added to spell, shift and week, and the mark stays.
pub fn driven(figures: Figures, seconds: u32) -> Figures
    requires { T (none_above (wheel_figures figures) highest_limits) × (seconds ≤ 1440000) }
    ensures { result ≡ driven_on seconds figures }
{
    Figures {
        spell: Wheel(figures.spell.0 + seconds),
        shift: Wheel(figures.shift.0 + seconds),
        week: Wheel(figures.week.0 + seconds),
        ..figures
    }
}

// Whether no figure is above its limit.
#[tactic(auto, using(crate::proofs::Clocks::at_most), unfolding(theory::specs::Figures::none_above))]
pub fn within_limits(figures: Figures, rules: Rules) -> bool
    ensures { result ≡ none_above (wheel_figures figures) (wheel_limits rules) }
{
    figures.spell <= rules.spell_limit
        && figures.shift <= rules.shift_limit
        && figures.week <= rules.week_limit
}

// Both parts zero means no split.
pub fn has_split(rules: Rules) -> bool
    ensures { result ≡ has_split rules }
{
    rules.first_part.0 != 0 || rules.second_part.0 != 0
}

// How long a pause of this kind takes.
pub fn pause_time(rules: Rules, pause: Pause) -> Clock
    ensures { result.0 ≡ pause_seconds rules (pause_number pause) }
{
    match pause {
        Pause::Break => rules.break_time,
        Pause::Rest => rules.rest_time,
        Pause::FirstPart => rules.first_part,
        Pause::SecondPart => rules.second_part,
        Pause::WeeklyRest => rules.weekly_rest,
    }
}

// Whether the rules have a pause of this kind for these figures: a second part needs the mark.
pub fn allows_pause(rules: Rules, figures: Figures, pause: Pause) -> bool
    ensures { result ≡ allows_pause rules figures (pause_number pause) }
{
    match pause {
        Pause::Break | Pause::Rest | Pause::WeeklyRest => true,
        Pause::FirstPart => has_split(rules),
        Pause::SecondPart => has_split(rules) && figures.marked,
    }
}

// The figures after a pause of this kind: each but a first part clears spell and the mark, a rest clears shift too, and a
// weekly rest everything.
pub fn cleared(figures: Figures, pause: Pause) -> Figures
    ensures { result ≡ cleared (pause_number pause) figures }
{
    let spell = Wheel(0);
    let marked = false;
    match pause {
        Pause::Break | Pause::SecondPart => Figures {
            spell,
            marked,
            ..figures
        },
        Pause::Rest => Figures {
            spell,
            shift: Wheel(0),
            marked,
            ..figures
        },
        Pause::FirstPart => Figures {
            marked: true,
            ..figures
        },
        Pause::WeeklyRest => Figures {
            spell,
            shift: Wheel(0),
            week: Wheel(0),
            marked,
        },
    }
}

// What one trip asks, and the rules that it is driven by.
#[derive(Clone, Copy)]
pub struct Order {
    pub source: u32,
    pub target: u32,
    pub departure: Clock,
    pub latest: Clock,
    pub figures: Figures,
    pub rules: Rules,
}

impl Order {
    pub const BYTES: usize = 60;
}

fn read_figures(bytes: &[u8]) -> Figures
    requires { length bytes.now ≡ order_bytes }
    ensures { result ≡ (order_of bytes.now).figures }
{
    Figures {
        spell: Wheel(words::word(bytes, 16)),
        shift: Wheel(words::word(bytes, 20)),
        week: Wheel(words::word(bytes, 56)),
        marked: false,
    }
}

fn read_rules(bytes: &[u8]) -> Rules
    requires { length bytes.now ≡ order_bytes }
    ensures { result ≡ (order_of bytes.now).rules }
{
    Rules {
        spell_limit: Wheel(words::word(bytes, 24)),
        break_time: Clock(words::word(bytes, 28)),
        shift_limit: Wheel(words::word(bytes, 32)),
        rest_time: Clock(words::word(bytes, 36)),
        first_part: Clock(words::word(bytes, 40)),
        second_part: Clock(words::word(bytes, 44)),
        week_limit: Wheel(words::word(bytes, 48)),
        weekly_rest: Clock(words::word(bytes, 52)),
    }
}

// The order that its bytes spell.
pub fn read_order(bytes: &[u8]) -> Order
    requires { length bytes.now ≡ order_bytes }
    ensures { result ≡ order_of bytes.now }
{
    Order {
        source: words::word(bytes, 0),
        target: words::word(bytes, 4),
        departure: Clock(words::word(bytes, 8)),
        latest: Clock(words::word(bytes, 12)),
        figures: read_figures(bytes),
        rules: read_rules(bytes),
    }
}

// A rule that is kept, or its refusal: each rule is one ≤ sign, with the word that it is charged to.
fn ruled(kept: bool, why: Refusal) -> Result<(), Refusal>
    ensures kept { OnOk result (kept ≡ true) }
    ensures broken { IfErr result (λ told. (kept ≡ false) × (told ≡ why)) }
{
    if kept { Ok(()) } else { Err(why) }
}

// With a split a part takes time.
fn part_taken(rules: Rules, part: Clock) -> bool
    ensures { result ≡ part_taken rules part.0 }
{
    !has_split(rules) || Clock(1) <= part
}

// The rules alone: words 6 to 13 of an order, or rules that stand in none.
#[tactic(auto, using(crate::proofs::Clocks::at_most), unfolding(crate::specs::Order::bad_rules, crate::specs::Order::first_broken, replies::specs::First::first_of))]
pub fn check_rules(rules: Rules) -> Result<(), Refusal>
    ensures { told_check result ≡ first_of ((10 at bad_rules rules) ∷ []) (succeeded 0 0) }
{
    let Rules {
        spell_limit,
        break_time,
        shift_limit,
        rest_time,
        first_part,
        second_part,
        week_limit,
        weekly_rest,
    } = rules;
    ruled(Wheel(1) <= spell_limit, Refusal::BadRules(6))?;
    ruled(Clock(1) <= break_time, Refusal::BadRules(7))?;
    ruled(spell_limit <= shift_limit, Refusal::BadRules(8))?;
    ruled(shift_limit <= Wheel(1000000), Refusal::BadRules(8))?;
    ruled(break_time <= rest_time, Refusal::BadRules(9))?;
    ruled(rest_time <= Clock(1000000), Refusal::BadRules(9))?;
    ruled(part_taken(rules, first_part), Refusal::BadRules(10))?;
    ruled(first_part <= break_time, Refusal::BadRules(10))?;
    ruled(part_taken(rules, second_part), Refusal::BadRules(11))?;
    ruled(second_part <= break_time, Refusal::BadRules(11))?;
    ruled(shift_limit <= week_limit, Refusal::BadRules(12))?;
    ruled(week_limit <= Wheel(1000000), Refusal::BadRules(12))?;
    ruled(rest_time <= weekly_rest, Refusal::BadRules(13))?;
    ruled(weekly_rest <= Clock(1000000), Refusal::BadRules(13))
}

// The trip's ends, words 0 to 3 of an order, on a map of so many junctions.
#[tactic(auto, unfolding(crate::specs::Order::bad_ends, crate::specs::Order::first_broken, replies::specs::First::first_of))]
fn check_ends(order: Order, junctions: u32) -> Result<(), Refusal>
    ensures { told_check result ≡ first_of ((11 at bad_ends junctions order) ∷ []) (succeeded 0 0) }
{
    ruled(1 <= order.source, Refusal::BadTrip(0))?;
    ruled(order.source <= junctions, Refusal::BadTrip(0))?;
    ruled(1 <= order.target, Refusal::BadTrip(1))?;
    ruled(order.target <= junctions, Refusal::BadTrip(1))?;
    ruled(order.departure <= order.latest, Refusal::BadTrip(3))?;
    ruled(order.latest <= Clock(2000000000), Refusal::BadTrip(3))
}

// Starting figures against rules: words 4, 5 and 14 of an order, or figures that stand in none.
#[tactic(auto, unfolding(crate::specs::Order::bad_figures, crate::specs::Order::first_broken, replies::specs::First::first_of))]
pub fn check_figures(figures: Figures, rules: Rules) -> Result<(), Refusal>
    ensures { told_check result ≡ first_of ((11 at bad_figures figures rules) ∷ []) (succeeded 0 0) }
{
    ruled(figures.spell <= rules.spell_limit, Refusal::BadTrip(4))?;
    ruled(figures.spell <= figures.shift, Refusal::BadTrip(5))?;
    ruled(figures.shift <= rules.shift_limit, Refusal::BadTrip(5))?;
    ruled(figures.shift <= figures.week, Refusal::BadTrip(14))?;
    ruled(figures.week <= rules.week_limit, Refusal::BadTrip(14))
}

// The trip: words 0 to 5, then 14.
#[tactic(auto, using(crate::proofs::Broken::trip_parts, replies::proofs::First::refusal_number), unfolding(replies::specs::First::first_of))]
pub fn check_trip(order: Order, junctions: u32) -> Result<(), Refusal>
    ensures { told_check result ≡ first_of ((11 at bad_trip junctions order) ∷ []) (succeeded 0 0) }
{
    check_ends(order, junctions)?;
    check_figures(order.figures, order.rules)
}

// The order check, on a map of so many junctions.
#[tactic(auto, using(replies::proofs::First::refusal_number), unfolding(replies::specs::First::first_of))]
pub fn check_order(bytes: &[u8], junctions: u32) -> Result<(), Refusal>
    ensures { told_check result ≡ first_of (order_tests junctions bytes.now) (succeeded 0 0) }
{
    if bytes.len() != Order::BYTES {
        return Err(Refusal::BadOrder(bytes.len()));
    }
    let order = read_order(bytes);
    check_rules(order.rules)?;
    check_trip(order, junctions)
}
