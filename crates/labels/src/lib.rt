// Settled labels in a lent run of words, and the list of the labels at each junction.
#![tactic(auto)]

mod settled;

ghost use Rattle.std.specs.Prelude.{◌≡◌, ◌+◌, ◌-◌, ◌*◌, ◌<◌, ◌≤◌, length, set};
ghost use Rattle.states.specs.LabelSpace.{label_words};
ghost use Rattle.labels.specs.LabelWords.{largest_word, cursor_field, winner_field, own_field, at, field, label_at, candidate_of, cursor_word, Packs, words_of, parent_of, winner_of, previous_of, own_of, puts, WinnerWithin};
ghost use Rattle.labels.specs.Lists.{Lists, LabelAdded};

use driving::Figures;
use seconds::{Clock, Wheel};
pub use settled::SettledLabels;
use states::State;

// A label's words, in order: its state, and how the search goes on from it. The first is twice the
// junction, and one more without the mark; CURSOR has the cursor, the junction and `more`.
const PLACE: usize = 0;

const CLOCK: usize = 1;

const SPELL: usize = 2;

const SHIFT: usize = 3;

const WEEK: usize = 4;

const PARENT: usize = 5;

const CURSOR: usize = 6;

const WINNER: usize = 7;

const PREVIOUS: usize = 8;

const OWN: usize = 9;

// Above every junction, so that a candidate's cursor and junction share a word.
const JUNCTION_BASE: u32 = 16384;

// A label's candidate: the cursor that names it, 0 for none; its junction and its clock; whether
// successors above it may be left that need a turn of their own. No `Option`, since a label's words
// hold each of these fields, and the lateness of NO_CLOCK puts a label without one behind all others.
#[derive(Clone, Copy)]
pub struct Candidate {
    pub cursor: u32,
    pub junction: u32,
    pub clock: Clock,
    pub more: bool,
}

impl Candidate {
    // Above every clock.
    pub const NO_CLOCK: Clock = Clock(4294967295);

    pub const NONE: Candidate = Candidate {
        cursor: 0,
        junction: 0,
        clock: Candidate::NO_CLOCK,
        more: false,
    };
}

// The labels at one junction: the last of them, 0 where there is none, and the most room that one of
// them leaves for spell and for shift.
#[derive(Clone, Copy)]
pub struct Place {
    pub last: u32,
    pub spell_room: u32,
    pub shift_room: u32,
}

impl Place {
    // No label is there.
    pub const EMPTY: Place = Place {
        last: 0,
        spell_room: 0,
        shift_room: 0,
    };
}

// How far a figure is below the largest word.
fn room(figure: Wheel) -> u32
    ensures { result ≡ largest_word - figure.0 }
{
    u32::MAX - figure.0
}

// Word f of label k.
fn field(words: &[u32], k: usize, f: usize) -> u32
    requires { (1 ≤ k) × (label_words * k ≤ length words.now) × (f < label_words) }
    ensures { result ≡ field words.now k f }
{
    words[State::LABEL_WORDS * (k - 1) + f]
}

// The state of label k.
pub fn read_label(words: &[u32], k: usize) -> State
    requires { (1 ≤ k) × (label_words * k ≤ length words.now) }
    ensures { result ≡ label_at words.now k }
{
    let place = field(words, k, PLACE);
    State {
        junction: place / 2,
        clock: Clock(field(words, k, CLOCK)),
        figures: Figures {
            spell: Wheel(field(words, k, SPELL)),
            shift: Wheel(field(words, k, SHIFT)),
            week: Wheel(field(words, k, WEEK)),
            marked: place % 2 == 0,
        },
    }
}

pub fn parent(words: &[u32], k: usize) -> u32
    requires { (1 ≤ k) × (label_words * k ≤ length words.now) }
    ensures { result ≡ parent_of words.now k }
{
    field(words, k, PARENT)
}

// The candidate of label k.
pub fn read_candidate(words: &[u32], k: usize) -> Candidate
    requires { (1 ≤ k) × (label_words * k ≤ length words.now) }
    ensures { result ≡ candidate_of words.now k }
{
    let word = field(words, k, CURSOR);
    Candidate {
        cursor: word / 2 / JUNCTION_BASE,
        junction: word / 2 % JUNCTION_BASE,
        clock: Clock(field(words, k, OWN)),
        more: word % 2 == 1,
    }
}

// The clock of label k's candidate.
pub fn own_clock(words: &[u32], k: usize) -> Clock
    requires { (1 ≤ k) × (label_words * k ≤ length words.now) }
    ensures { result.0 ≡ own_of words.now k }
{
    Clock(field(words, k, OWN))
}

pub fn winner(words: &[u32], k: usize) -> u32
    requires { (1 ≤ k) × (label_words * k ≤ length words.now) }
    ensures { result ≡ winner_of words.now k }
{
    field(words, k, WINNER)
}

pub fn previous(words: &[u32], k: usize) -> u32
    requires { (1 ≤ k) × (label_words * k ≤ length words.now) }
    ensures { result ≡ previous_of words.now k }
{
    field(words, k, PREVIOUS)
}

// The winner of node k, 0 where k is past the n labels.
pub fn winner_within(words: &[u32], n: usize, k: usize) -> u32
    requires { (1 ≤ k) × (label_words * n ≤ length words.now) }
    ensures { WinnerWithin words.now n k result }
{
    if k <= n { winner(words, k) } else { 0 }
}

// The cursor, the junction and whether there may be more, in one word.
fn cursor_word(c: Candidate) -> u32
    requires { Packs c }
    ensures { result ≡ cursor_word c }
{
    2 * (JUNCTION_BASE * c.cursor + c.junction) + u32::from(c.more)
}

pub fn set_candidate(words: &mut [u32], k: usize, c: Candidate)
    requires { (1 ≤ k) × (label_words * k ≤ length words.old) × Packs c }
    ensures { words.new ≡ set (set words.old (at k cursor_field) (cursor_word c)) (at k own_field) c.clock.0 }
{
    let cursor = cursor_word(c);
    words[State::LABEL_WORDS * (k - 1) + CURSOR] = cursor;
    words[State::LABEL_WORDS * (k - 1) + OWN] = c.clock.0;
}

pub fn set_winner(words: &mut [u32], k: usize, value: u32)
    requires { (1 ≤ k) × (label_words * k ≤ length words.old) }
    ensures { words.new ≡ set words.old (at k winner_field) value }
{
    words[State::LABEL_WORDS * (k - 1) + WINNER] = value;
}

// Writes all words of a label, from word i on.
fn store(
    words: &mut [u32],
    i: usize,
    label: State,
    parent: u32,
    c: Candidate,
    winner: u32,
    previous: u32,
)
    requires label_words_in_bounds { i + label_words ≤ length words.old }
    requires junction_bound { (label.junction < 2147483648) × Packs c }
    ensures { words.new ≡ puts words.old i 0 (words_of label parent c winner previous) }
{
    let unmarked = driving::unmarked(label.figures);
    let cursor = cursor_word(c);
    words[i + PLACE] = 2 * label.junction + unmarked;
    words[i + CLOCK] = label.clock.0;
    words[i + SPELL] = label.figures.spell.0;
    words[i + SHIFT] = label.figures.shift.0;
    words[i + WEEK] = label.figures.week.0;
    words[i + PARENT] = parent;
    words[i + CURSOR] = cursor;
    words[i + WINNER] = winner;
    words[i + PREVIOUS] = previous;
    words[i + OWN] = c.clock.0;
}

// Label n + 1 comes in, as the last at its junction and as the winner of its own node.
pub fn add_label(
    words: &mut [u32],
    places: &mut [Place],
    n: usize,
    label: State,
    parent: u32,
    c: Candidate,
)
    requires lists { Lists words.old places.old n × (label.junction < length places.old) }
    requires n_bound { (n + 1 < 4294967296) × (label_words * (n + 1) ≤ length words.old) }
    requires junction_bound { (label.junction < 2147483648) × Packs c }
    ensures { LabelAdded words.old words.new places.new n label parent c }
{
    let k = n as u32 + 1;
    let place = places[label.junction as usize];
    store(
        words,
        State::LABEL_WORDS * n,
        label,
        parent,
        c,
        k,
        place.last,
    );
    places[label.junction as usize] = Place {
        last: k,
        spell_room: place.spell_room.max(room(label.figures.spell)),
        shift_room: place.shift_room.max(room(label.figures.shift)),
    };
}
