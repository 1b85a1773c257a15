// Runs worked cases of every operation, and prints each one's answer.
//
// A case on standard input: its kind, the length of its title, the title, seven words (a number, a count
// of roads, the words of label space, and the lengths in bytes of map, order, ban list and sheet), the
// map, the order, the ban list, the sheet. The number is the junction asked for a name, the junction
// count for an order, beside which the roads are counted, the length of the lent sheet for retiming, the
// road for striking and for a preview, and for planning what every label word holds beforehand. The
// sheet of planning and of a preview is the one that is lent. For replaying, the order's place has an
// order's words 4 to 14 alone, the number is 0 without the mark and 1 with it, and the sheet's place has
// the trace.
#![tactic(auto)]

ghost use Rattle.std.specs.Prelude.{◌≤◌, ◌<◌, length};

use driving::{Figures, Rules};
use replies::{Plan, Refusal, Reply, Success};
use seconds::{Clock, Wheel};
use std::io::Read;
use std::{fmt, io};
use words::word;

// Room for all cases. Cases that fill it may have lost their end, and are refused.
const CASE_BYTES: usize = 524288;

// The longest sheet that is lent, and the most words of label space.
const SHEET_BYTES: usize = 1024;

const LABEL_WORDS: usize = 4096;

// The seven words of a case.
const HEADER_BYTES: usize = 28;

// Room for the longest ban list of a case.
const LIST_WORDS: usize = 64;

// The driver's figures and the rules: an order's words 4 to 14.
const HOURS_BYTES: usize = 44;

// What every byte of a lent sheet holds beforehand, so that one that is written shows, and every label
// word of a preview.
const MARKED_BYTE: u8 = 0xEE;

const MARKED_WORD: u32 = 0xEEEEEEEE;

// The operation that a case asks for.
#[derive(Clone, Copy)]
enum Kind {
    CheckMap,
    Name,
    MakeChains,
    Strike,
    CheckOrder,
    Audit,
    Retime,
    Replay,
    Plan,
    Preview,
}

// A byte that stands for no operation.
#[derive(Drop)]
struct NoKind;

impl TryFrom<u8> for Kind {
    type Error = NoKind;

    fn try_from(byte: u8) -> Result<Kind, NoKind> {
        match byte {
            b'm' => Ok(Kind::CheckMap),
            b'n' => Ok(Kind::Name),
            b'c' => Ok(Kind::MakeChains),
            b's' => Ok(Kind::Strike),
            b'o' => Ok(Kind::CheckOrder),
            b'a' => Ok(Kind::Audit),
            b'r' => Ok(Kind::Retime),
            b't' => Ok(Kind::Replay),
            b'p' => Ok(Kind::Plan),
            b'v' => Ok(Kind::Preview),
            _ => Err(NoKind),
        }
    }
}

// What a case says after its title.
#[derive(Drop)]
struct Case<'a> {
    number: u32,
    // the count of roads beside which an order is checked
    roads: u32,
    // the words of label space
    words: usize,
    map: &'a mut [u8],
    order: &'a [u8],
    bans: &'a [u32],
    sheet: &'a [u8],
}

// Bytes as hexadecimal digits.
#[derive(Drop)]
struct Hex<'a>(&'a [u8]);

impl fmt::Display for Hex<'_> {
    fn fmt<W: fmt::Write>(&self, f: &mut fmt::Formatter<W>) -> fmt::Result {
        for byte in self.0 {
            write!(f, "{byte:02x}")?;
        }
        Ok(())
    }
}

fn print_answer<T: Success>(rt: &impl Print, answer: Result<T, Refusal>) -> io::Result<()> {
    let Reply {
        number,
        place,
        arrival,
    } = Reply::from(answer);
    print!(rt; "{number} {place} {arrival}")
}

fn print_name(rt: &impl Print, map: &[u8], junction: u32) -> io::Result<()> {
    print_answer(rt, mapedit::name_reply(map, junction))?;
    print!(rt; " <")?;
    rt.write_all(mapedit::name(map, junction))?;
    print!(rt; ">")
}

// The answer of an operation that changes a map or writes a sheet, and the bytes afterwards.
fn print_written<T: Success>(
    rt: &impl Print,
    answer: Result<T, Refusal>,
    bytes: &[u8],
) -> io::Result<()> {
    print_answer(rt, answer)?;
    print!(rt; " {}", Hex(bytes))
}

fn run_change<F>(rt: &impl Print, map: &mut [u8], change: F) -> io::Result<()>
where
    F: FnOnce(&mut [u8]) -> Result<(), Refusal>,
    requires { F.IsAlwaysCallable change }
{
    let answer = change(map);
    print_written(rt, answer, map)
}

fn run_audit(rt: &impl Print, case: &Case<'_>) -> io::Result<()> {
    print_answer(
        rt,
        retiming::audit(case.map, case.order, case.bans, case.sheet),
    )
}

fn run_retiming(rt: &impl Print, case: &Case<'_>) -> io::Result<()> {
    let length = case.number as usize;
    if SHEET_BYTES < length {
        return Ok(());
    }
    let mut space = [MARKED_BYTE; SHEET_BYTES];
    let lent = &mut space[..length];
    let answer = retiming::retime(case.map, case.order, case.bans, case.sheet, lent);
    print_written(rt, answer, lent)
}

// Prints the reply, and the figures afterwards.
fn run_replay(rt: &impl Print, marked: bool, hours: &[u8], trace: &[u8]) -> io::Result<()> {
    if hours.len() != HOURS_BYTES {
        return Ok(());
    }
    let figures = Figures {
        spell: Wheel(word(hours, 0)),
        shift: Wheel(word(hours, 4)),
        week: Wheel(word(hours, 40)),
        marked,
    };
    let rules = Rules {
        spell_limit: Wheel(word(hours, 8)),
        break_time: Clock(word(hours, 12)),
        shift_limit: Wheel(word(hours, 16)),
        rest_time: Clock(word(hours, 20)),
        first_part: Clock(word(hours, 24)),
        second_part: Clock(word(hours, 28)),
        week_limit: Wheel(word(hours, 32)),
        weekly_rest: Clock(word(hours, 36)),
    };
    let replayed = replay::replay_from(trace, rules, figures);
    let after = replayed.figures;
    let mark = u8::from(after.marked);
    print_answer(rt, replayed.answer)?;
    print!(rt;
        " {} {} {} {mark}",
        after.spell.0, after.shift.0, after.week.0
    )
}

// Plans with label words that all hold the same, and a lent sheet that holds the case's. Where a
// refusal came before the search, tells whether every label word is as it was.
fn run_planning<F>(rt: &impl Print, case: &Case<'_>, before: u32, plan: F) -> io::Result<()>
where
    F: FnOnce(&Case<'_>, &mut [u32], &mut [u8]) -> Result<Plan, Refusal>,
    requires { F.IsAlwaysCallable plan }
{
    let length = case.sheet.len();
    if SHEET_BYTES < length || LABEL_WORDS < case.words {
        return Ok(());
    }
    let mut labels = [before; LABEL_WORDS];
    let mut space = [0; SHEET_BYTES];
    let words = &mut labels[..case.words];
    let lent = &mut space[..length];
    lent.copy_from_slice(case.sheet);
    let answer = plan(case, words, lent);
    print_written(rt, answer, lent)?;
    match answer {
        Ok(_) | Err(Refusal::Full(_) | Refusal::NoRoad(_) | Refusal::ShortSheet(_)) => Ok(()),
        Err(_) if words.iter().all(|word| *word == before) => print!(rt; " kept"),
        Err(_) => print!(rt; " changed"),
    }
}

fn run(rt: &impl Print, kind: Kind, case: Case<'_>) -> io::Result<()> {
    let number = case.number;
    match kind {
        Kind::CheckMap => print_answer(rt, mapcheck::check_map(case.map)),
        Kind::Name => print_name(rt, case.map, number),
        Kind::MakeChains => run_change(rt, case.map, mapedit::make_chains),
        Kind::Strike => run_change(rt, case.map, |map| striking::strike(map, number)),
        Kind::CheckOrder => print_answer(
            rt,
            moves::check_order(case.order, case.bans, number, case.roads),
        ),
        Kind::Audit => run_audit(rt, &case),
        Kind::Retime => run_retiming(rt, &case),
        Kind::Replay => run_replay(rt, number != 0, case.order, case.sheet),
        Kind::Plan => run_planning(rt, &case, number, |case, words, lent| {
            planner::plan(case.map, case.order, case.bans, words, lent)
        }),
        Kind::Preview => run_planning(rt, &case, MARKED_WORD, |case, words, lent| {
            planner::preview(case.map, case.order, case.bans, number, words, lent)
        }),
    }
}

// Reads the words of a ban list, as many as there is room for, and returns how many they are.
fn read_list(bytes: &[u8], list: &mut [u32]) -> usize
    ensures { result ≤ length list.new }
{
    let mut count = 0;
    while count < list.len() && count < bytes.len() / 4 {
        list[count] = word(bytes, 4 * count);
        count += 1;
    }
    count
}

// Runs the case at the head of the bytes, and returns how many it takes: all, where it is cut off.
fn run_case(rt: &impl Print, bytes: &mut [u8]) -> usize
    requires { 0 < length bytes.old }
    ensures some { 0 < result }
    ensures within { result ≤ length bytes.old }
{
    let all = bytes.len();
    if all < 2 {
        return all;
    }
    let header = 2 + usize::from(bytes[1]);
    let map = header + HEADER_BYTES;
    if all < map {
        return all;
    }
    let order = map + (word(bytes, header + 12) as usize);
    let list = order + (word(bytes, header + 16) as usize);
    let sheet = list + (word(bytes, header + 20) as usize);
    let end = sheet + (word(bytes, header + 24) as usize);
    if all < end {
        return all;
    }
    let kind = Kind::try_from(bytes[0]);
    let number = word(bytes, header);
    let roads = word(bytes, header + 4);
    let words = word(bytes, header + 8) as usize;
    let _ = rt.write_all(&bytes[2..header]);
    let _ = print!(rt; ": ");
    if let Ok(kind) = kind {
        let (lent, rest) = bytes[map..end].split_at_mut(order - map);
        let (order, rest) = rest.split_at(list - order);
        let (listed, sheet) = rest.split_at(sheet - list);
        let mut room = [0; LIST_WORDS];
        let count = read_list(listed, &mut room);
        let case = Case {
            number,
            roads,
            words,
            map: lent,
            order,
            bans: &room[..count],
            sheet,
        };
        let _ = run(rt, kind, case);
    }
    let _ = println!(rt; "");
    end
}

// Reads until the space is full, the input ends or a read fails, and returns how many bytes there
// are at the start of the space.
fn read_full(input: &mut impl Read, space: &mut [u8]) -> usize
    ensures { result ≤ length space.new }
{
    let mut done = 0;
    while done < space.len() {
        match input.read(&mut space[done..]) {
            Ok(0) | Err(_) => break,
            Ok(more) => done += more,
        }
    }
    done
}

fn run_all(rt: &impl Print, input: &mut impl Read, cases: &mut [u8]) {
    let n = read_full(input, cases);
    if n == cases.len() {
        let _ = println!(rt; "too many cases");
        return;
    }
    let mut at = 0;
    while at < n {
        at += run_case(rt, &mut cases[at..n]);
    }
}

fn main(rt: HostRuntime) -> io::Result<()> {
    let mut cases = vec![in rt.alloc(); 0u8; CASE_BYTES]?;
    run_all(&rt, &mut rt.stdin(), &mut cases);
    Ok(())
}
