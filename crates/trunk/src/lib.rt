// Every operation as a function that C and Rust can call. include/trunk.h describes them to callers.
// A slice is a pointer and a length there. The reply is written as three numbers to a lent run; who
// has no room for it gets nothing changed: each function asks that first, since each has a signature of its own.
#![tactic(auto)]

ghost use Rattle.std.specs.Prelude.{◌≡◌, ◌≤◌, length};
ghost use Rattle.replies.specs.Told.{told_name};
ghost use Rattle.mapedit.specs.Name.{name_reply};
ghost use Rattle.trunk.specs.Written.{reply_put, rules_in, figures_in, figures_put};
ghost use Rattle.moves.specs.Given.{given_of};
ghost use Rattle.trunk.specs.Calls.{MapCheckCall, OrderCheckCall, PlanCall, PreviewCall, RetimeCall, AuditCall, NameCall, ChainsCall, StrikeCall, ReplayCall, library_version, name_put};

use driving::{Figures, Rules};
use replies::{Refusal, Reply};
use seconds::{Clock, Wheel};

// What a reply, and the place of a name, take of a lent run.
const REPLY_NUMBERS: usize = 3;

const PART_NUMBERS: usize = 2;

// What rules and figures take of lent runs: words 6 to 13 of an order; spell, shift, week and the mark.
const RULE_WORDS: usize = 8;

const FIGURE_WORDS: usize = 4;

// The version of the library: it rises when a call, a format or a number changes.
const VERSION: u32 = 2;

#[unsafe(no_mangle)]
pub extern "C" fn trunk_version() -> u32
    ensures { result ≡ library_version }
{
    VERSION
}

fn put_reply(lent: &mut [u64], reply: Reply)
    requires { 3 ≤ length lent.old }
    ensures { lent.new ≡ reply_put lent.old reply }
{
    lent[0] = u64::from(reply.number);
    lent[1] = reply.place as u64;
    lent[2] = u64::from(reply.arrival);
}

// Map check.
#[unsafe(no_mangle)]
pub extern "C" fn trunk_check_map(map: &[u8], reply: &mut [u64])
    ensures { MapCheckCall map.now reply.old reply.new }
{
    if reply.len() < REPLY_NUMBERS {
        return;
    }
    put_reply(reply, Reply::from(mapcheck::check_map(map)));
}

// Order check.
#[unsafe(no_mangle)]
pub extern "C" fn trunk_check_order(
    order: &[u8],
    bans: &[u32],
    junctions: u32,
    roads: u32,
    reply: &mut [u64],
)
    ensures { OrderCheckCall order.now bans.now junctions roads reply.old reply.new }
{
    if reply.len() < REPLY_NUMBERS {
        return;
    }
    put_reply(
        reply,
        Reply::from(moves::check_order(order, bans, junctions, roads)),
    );
}

// Planning.
#[unsafe(no_mangle)]
pub extern "C" fn trunk_plan(
    map: &[u8],
    order: &[u8],
    bans: &[u32],
    words: &mut [u32],
    sheet: &mut [u8],
    reply: &mut [u64],
)
    ensures { PlanCall (given_of map.now order.now bans.now) words.old words.new sheet.old sheet.new reply.old reply.new }
{
    if reply.len() < REPLY_NUMBERS {
        return;
    }
    put_reply(
        reply,
        Reply::from(planner::plan(map, order, bans, words, sheet)),
    );
}

// The preview of a closure.
#[unsafe(no_mangle)]
pub extern "C" fn trunk_preview(
    map: &[u8],
    order: &[u8],
    bans: &[u32],
    road: u32,
    words: &mut [u32],
    sheet: &mut [u8],
    reply: &mut [u64],
)
    ensures { PreviewCall (given_of map.now order.now bans.now) road words.old words.new sheet.old sheet.new reply.old reply.new }
{
    if reply.len() < REPLY_NUMBERS {
        return;
    }
    put_reply(
        reply,
        Reply::from(planner::preview(map, order, bans, road, words, sheet)),
    );
}

// Retiming.
#[unsafe(no_mangle)]
pub extern "C" fn trunk_retime(
    map: &[u8],
    order: &[u8],
    bans: &[u32],
    sheet: &[u8],
    out: &mut [u8],
    reply: &mut [u64],
)
    ensures { RetimeCall (given_of map.now order.now bans.now) sheet.now out.old out.new reply.old reply.new }
{
    if reply.len() < REPLY_NUMBERS {
        return;
    }
    put_reply(
        reply,
        Reply::from(retiming::retime(map, order, bans, sheet, out)),
    );
}

// Audit.
#[unsafe(no_mangle)]
pub extern "C" fn trunk_audit(
    map: &[u8],
    order: &[u8],
    bans: &[u32],
    sheet: &[u8],
    reply: &mut [u64],
)
    ensures { AuditCall (given_of map.now order.now bans.now) sheet.now reply.old reply.new }
{
    if reply.len() < REPLY_NUMBERS {
        return;
    }
    put_reply(reply, Reply::from(retiming::audit(map, order, bans, sheet)));
}

// Where in the map the name stands that the reply tells, and how long it is.
fn put_name(map: &[u8], junction: u32, told: Result<usize, Refusal>, part: &mut [u64])
    requires told_value { told_name told ≡ name_reply map.now junction }
    requires in_bounds { 2 ≤ length part.old }
    ensures { part.new ≡ name_put map.now junction part.old }
{
    let (from, letters) = match told {
        Ok(length) => (mapedit::name_place(map, junction), length),
        Err(_) => (0, 0),
    };
    part[0] = from as u64;
    part[1] = letters as u64;
}

// Name. An exported function cannot return a part of the map, so it tells where that part is.
#[unsafe(no_mangle)]
pub extern "C" fn trunk_name(map: &[u8], junction: u32, reply: &mut [u64], part: &mut [u64])
    ensures { NameCall map.now junction reply.old reply.new part.old part.new }
{
    if reply.len() < REPLY_NUMBERS || part.len() < PART_NUMBERS {
        return;
    }
    let answer = mapedit::name_reply(map, junction);
    put_reply(reply, Reply::from(answer));
    put_name(map, junction, answer, part);
}

// Chain making.
#[unsafe(no_mangle)]
pub extern "C" fn trunk_make_chains(map: &mut [u8], reply: &mut [u64])
    ensures { ChainsCall map.old map.new reply.old reply.new }
{
    if reply.len() < REPLY_NUMBERS {
        return;
    }
    put_reply(reply, Reply::from(mapedit::make_chains(map)));
}

// Striking a road.
#[unsafe(no_mangle)]
pub extern "C" fn trunk_strike(map: &mut [u8], road: u32, reply: &mut [u64])
    ensures { StrikeCall map.old road map.new reply.old reply.new }
{
    if reply.len() < REPLY_NUMBERS {
        return;
    }
    put_reply(reply, Reply::from(striking::strike(map, road)));
}

fn read_rules(words: &[u32]) -> Rules
    requires { 8 ≤ length words.now }
    ensures { result ≡ rules_in words.now }
{
    Rules {
        spell_limit: Wheel(words[0]),
        break_time: Clock(words[1]),
        shift_limit: Wheel(words[2]),
        rest_time: Clock(words[3]),
        first_part: Clock(words[4]),
        second_part: Clock(words[5]),
        week_limit: Wheel(words[6]),
        weekly_rest: Clock(words[7]),
    }
}

fn read_figures(words: &[u32]) -> Figures
    requires { 4 ≤ length words.now }
    ensures { result ≡ figures_in words.now }
{
    Figures {
        spell: Wheel(words[0]),
        shift: Wheel(words[1]),
        week: Wheel(words[2]),
        marked: words[3] != 0,
    }
}

fn put_figures(words: &mut [u32], figures: Figures)
    requires { 4 ≤ length words.old }
    ensures { words.new ≡ figures_put words.old figures }
{
    words[0] = figures.spell.0;
    words[1] = figures.shift.0;
    words[2] = figures.week.0;
    words[3] = u32::from(figures.marked);
}

// Replaying a trace.
#[unsafe(no_mangle)]
pub extern "C" fn trunk_replay(trace: &[u8], rules: &[u32], figures: &mut [u32], reply: &mut [u64])
    ensures { ReplayCall trace.now rules.now figures.old figures.new reply.old reply.new }
{
    if reply.len() < REPLY_NUMBERS || rules.len() < RULE_WORDS || figures.len() < FIGURE_WORDS {
        return;
    }
    let mut after = read_figures(figures);
    let answer = replay::replay(trace, read_rules(rules), &mut after);
    // A refused trace leaves every word of the lent figures, also a mark that is not spelled as the
    // library would.
    if answer.is_ok() {
        put_figures(figures, after);
    }
    put_reply(reply, Reply::from(answer));
}
