// The search: settles labels in rank order until one is at the target, none is left, or the space is full.
#![tactic(auto)]

ghost use Rattle.std.specs.Prelude.{◌+◌, ◌*◌, ◌<◌, ◌≤◌, T, length};
ghost use Rattle.roadmap.specs.Format.{most_junctions, road_count};
ghost use Rattle.bans.specs.Bans.{closed_in, listed_in, AgreeOn};
ghost use Rattle.moves.specs.Trip.{junctions_in};
ghost use Rattle.moves.specs.OpenRuns.{searched_trip, listed_trip};
ghost use Rattle.theory.specs.States.{Covered};
ghost use Rattle.journeys.specs.Journeys.{at_target};
ghost use Rattle.states.specs.States.{covers};
ghost use Rattle.states.specs.LabelSpace.{labels_that_fit, label_words};
ghost use Rattle.labels.specs.LabelWords.{winner_of, settled};
ghost use Rattle.labels.specs.Lists.{Lists, LabelAdded};
ghost use Rattle.candidates.specs.Candidates.{no_candidate};
ghost use Rattle.winners.specs.Keys.{key_at};
ghost use Rattle.winners.specs.Mending.{Live, LeastKey};
ghost use Rattle.search.specs.Underway.{Underway, Chosen, Onward};
ghost use Rattle.search.specs.Turns.{TurnSays, OutcomeSays};
ghost use Rattle.search.specs.Beginning.{Begun};
ghost use Rattle.search.specs.Searched.{Searched};

use candidates::Asking;
use labels::{Candidate, Place, SettledLabels};
use moves::OpenRun;
use roadmap::Sizes;
use states::State;

// So many places serve every map with fewer junctions. They are cleared for each search, and those for
// any map are twelve times as many.
const FEW_ENTRIES: usize = 1024;

// The hints that spare candidates their turns, for one search.
type Hints = [u32; candidates::HINT_ENTRIES];

// Why a search finds no journey: there are so many labels and none is at the target, or there are more
// than fit.
#[derive(Clone, Copy, PartialEq, Eq)]
pub enum Unfound {
    Exhausted(usize),
    Full,
}

// What a turn of the loop comes to: the search goes on with so many labels, or the last of so many is
// the answer.
#[derive(Clone, Copy)]
pub enum Turn {
    Goes(usize),
    Found(usize),
}

// Below, words, places and hints are lent each for itself: for a struct of them each contract would have
// to say of each that it is still the caller's.

// Label w's candidate is covered: the label gets its next.
fn pass_over(
    run: &OpenRun<'_>,
    words: &mut [u32],
    places: &[Place],
    hints: &mut Hints,
    n: usize,
    w: usize,
    candidate: State,
)
    requires underway { Underway (searched_trip run.now) words.old places.now n }
    requires chosen { Chosen (searched_trip run.now) words.old n w candidate }
    requires covered { Covered covers (settled words.old n) candidate }
    ensures { Onward (searched_trip run.now) (key_at (searched_trip run.now) words.old w) words.new places.now n }
{
    let of = Asking {
        state: labels::read_label(words, w),
        before: w - 1,
        last: labels::previous(words, w) as usize,
    };
    let more = labels::read_candidate(words, w).more;
    let settled = SettledLabels {
        words,
        places,
        count: n,
    };
    let next = candidates::candidate_after(run, &settled, hints, of, candidate, more);
    winners::advance(run, words, n, w, next);
}

// Label w's candidate is covered by none and not at target: it is label n + 1, and w is its parent.
fn settle_label(
    run: &OpenRun<'_>,
    words: &mut [u32],
    places: &mut [Place],
    hints: &mut Hints,
    n: usize,
    w: usize,
    candidate: State,
)
    requires underway { Underway (searched_trip run.now) words.old places.old n }
    requires chosen { Chosen (searched_trip run.now) words.old n w candidate }
    requires uncovered_off_target { (Covered covers (settled words.old n) candidate → ⊥) × (T (at_target (searched_trip run.now) candidate) → ⊥) }
    requires fits { n + 1 ≤ labels_that_fit (length words.old) }
    ensures { Onward (searched_trip run.now) (key_at (searched_trip run.now) words.old w) words.new places.new (n + 1) }
{
    let of = Asking {
        state: candidate,
        before: n,
        last: places[candidate.junction as usize].last as usize,
    };
    let settled = SettledLabels {
        words,
        places,
        count: n,
    };
    let next = candidates::next_candidate(run, &settled, hints, of, candidate);
    labels::add_label(words, places, n, candidate, w as u32, next);
    winners::enter(run, words, n);
    pass_over(run, words, places, hints, n + 1, w, candidate);
}

// Label w's candidate is at target, and covered by none: it is the answer, and the last label.
fn settle_last(words: &mut [u32], places: &mut [Place], n: usize, w: usize, candidate: State)
    requires lists { Lists words.old places.old n × (candidate.junction < length places.old) × (candidate.junction < 2147483648) }
    requires fits { (n + 1 ≤ labels_that_fit (length words.old)) × (w ≤ n) }
    ensures { LabelAdded words.old words.new places.new n candidate w no_candidate }
{
    labels::add_label(words, places, n, candidate, w as u32, Candidate::NONE);
}

// Label w's candidate is covered by none: it is the next label, if one more fits.
fn settle(
    run: &OpenRun<'_>,
    words: &mut [u32],
    places: &mut [Place],
    hints: &mut Hints,
    n: usize,
    w: usize,
    candidate: State,
) -> Result<Turn, Unfound>
    requires underway { Underway (searched_trip run.now) words.old places.old n }
    requires chosen { Chosen (searched_trip run.now) words.old n w candidate }
    requires uncovered { Covered covers (settled words.old n) candidate → ⊥ }
    requires fits { n ≤ labels_that_fit (length words.old) }
    ensures { TurnSays (searched_trip run.now) (labels_that_fit (length words.old)) (key_at (searched_trip run.now) words.old w) n words.new places.new result }
{
    if n == states::labels_that_fit(words.len()) {
        return Err(Unfound::Full);
    }
    if candidate.junction == run.about.order.target {
        settle_last(words, places, n, w, candidate);
        Ok(Turn::Found(n + 1))
    } else {
        settle_label(run, words, places, hints, n, w, candidate);
        Ok(Turn::Goes(n + 1))
    }
}

// Label w's candidate is the lowest: it is passed over if a label covers it, else settled. Those
// before w did not when it was found.
fn offer(
    run: &OpenRun<'_>,
    words: &mut [u32],
    places: &mut [Place],
    hints: &mut Hints,
    n: usize,
    w: usize,
) -> Result<Turn, Unfound>
    requires underway { Underway (searched_trip run.now) words.old places.old n }
    requires least_key { LeastKey (searched_trip run.now) words.old n w × Live (searched_trip run.now) words.old w }
    requires fits { n ≤ labels_that_fit (length words.old) }
    ensures { TurnSays (searched_trip run.now) (labels_that_fit (length words.old)) (key_at (searched_trip run.now) words.old w) n words.new places.new result }
{
    let candidate = winners::candidate_at(run, words, w);
    let settled = SettledLabels {
        words,
        places,
        count: n,
    };
    if settled.covered(w - 1, candidate) {
        pass_over(run, words, places, hints, n, w, candidate);
        return Ok(Turn::Goes(n));
    }
    settle(run, words, places, hints, n, w, candidate)
}

// One turn of the loop: the label with the lowest candidate, if one has any, offers it.
fn take_turn(
    run: &OpenRun<'_>,
    words: &mut [u32],
    places: &mut [Place],
    hints: &mut Hints,
    n: usize,
) -> Result<Turn, Unfound>
    requires underway { Underway (searched_trip run.now) words.old places.old n }
    requires fits { n ≤ labels_that_fit (length words.old) }
    ensures { TurnSays (searched_trip run.now) (labels_that_fit (length words.old)) (key_at (searched_trip run.now) words.old (winner_of words.old 1)) n words.new places.new result }
{
    let w = winners::leading(words, n);
    if w == 0 || labels::own_clock(words, w) == Candidate::NO_CLOCK {
        return Err(Unfound::Exhausted(n));
    }
    offer(run, words, places, hints, n, w)
}

// Turn by turn from the first label to the end of the search.
fn settle_all(
    run: &OpenRun<'_>,
    words: &mut [u32],
    places: &mut [Place],
    hints: &mut Hints,
) -> Result<usize, Unfound>
    requires underway { Underway (searched_trip run.now) words.old places.old 1 }
    requires fits { 1 ≤ labels_that_fit (length words.old) }
    ensures { OutcomeSays (searched_trip run.now) (labels_that_fit (length words.old)) words.new result }
{
    let mut n = 1;
    loop {
        match take_turn(run, words, places, hints, n)? {
            Turn::Goes(labels) => n = labels,
            Turn::Found(labels) => return Ok(labels),
        }
    }
}

// The start is label 1, without a parent.
fn begin(run: &OpenRun<'_>, words: &mut [u32], places: &mut [Place], hints: &mut Hints)
    requires lists { Lists words.old places.old 0 }
    requires run_in_bounds { (junctions_in (searched_trip run.now) < length places.old) × (label_words ≤ length words.old) }
    ensures { Begun (searched_trip run.now) words.new places.new }
{
    let start = states::start_of(run.about.order);
    let of = Asking {
        state: start,
        before: 0,
        last: 0,
    };
    let settled = SettledLabels {
        words,
        places,
        count: 0,
    };
    let next = candidates::next_candidate(run, &settled, hints, of, start);
    labels::add_label(words, places, 0, start, 0, next);
    winners::enter(run, words, 0);
}

// The search with room for so many labels, at least one, and a place for each junction, which say that
// none has a label yet.
fn search_in(
    run: &OpenRun<'_>,
    words: &mut [u32],
    places: &mut [Place],
    hints: &mut Hints,
) -> Result<usize, Unfound>
    requires fits { 1 ≤ labels_that_fit (length words.old) }
    requires lists { Lists words.old places.old 0 × (junctions_in (searched_trip run.now) < length places.old) }
    ensures { OutcomeSays (searched_trip run.now) (labels_that_fit (length words.old)) words.new result }
{
    begin(run, words, places, hints);
    let order = run.about.order;
    if order.source == order.target {
        return Ok(1);
    }
    settle_all(run, words, places, hints)
}

// The same, with N places, which serve a map of fewer junctions.
fn search_sized<const N: usize>(run: &OpenRun<'_>, words: &mut [u32]) -> Result<usize, Unfound>
    requires fits { 1 ≤ labels_that_fit (length words.old) }
    requires places { (junctions_in (searched_trip run.now) < N) × (N ≤ most_junctions + 1) }
    ensures { OutcomeSays (searched_trip run.now) (labels_that_fit (length words.old)) words.new result }
{
    let mut places = [Place::EMPTY; N];
    let mut hints = [0; candidates::HINT_ENTRIES];
    search_in(run, words, &mut places, &mut hints)
}

// The same, with places by the map's size.
fn search_labels(run: &OpenRun<'_>, words: &mut [u32]) -> Result<usize, Unfound>
    requires fits { 1 ≤ labels_that_fit (length words.old) }
    ensures { OutcomeSays (searched_trip run.now) (labels_that_fit (length words.old)) words.new result }
{
    if (run.about.sizes.junctions as usize) < FEW_ENTRIES {
        search_sized::<FEW_ENTRIES>(run, words)
    } else {
        search_sized::<{ Sizes::JUNCTION_ENTRIES }>(run, words)
    }
}

// The same, with bytes that say of every road what the list of banned roads says. It and the next are kept apart, so that
// their arrays take room once, and the bytes only where they are marked.
#[inline(never)]
fn search_with(run: &OpenRun<'_>, closed: &[u8], words: &mut [u32]) -> Result<usize, Unfound>
    requires fits { 1 ≤ labels_that_fit (length words.old) }
    requires agree { AgreeOn (road_count run.now.map.now) (closed_in closed.now) (listed_in run.now.bans.now) }
    ensures { OutcomeSays (listed_trip run.now) (labels_that_fit (length words.old)) words.new result }
{
    let searched = OpenRun {
        map: run.map,
        closed,
        bans: run.bans,
        about: run.about,
    };
    search_labels(&searched, words)
}

// The same, with one byte a road, marked from the list.
#[inline(never)]
fn search_marked(run: &OpenRun<'_>, words: &mut [u32]) -> Result<usize, Unfound>
    requires fits { 1 ≤ labels_that_fit (length words.old) }
    ensures { OutcomeSays (listed_trip run.now) (labels_that_fit (length words.old)) words.new result }
{
    let mut closed = [0; Sizes::ROAD_ENTRIES];
    bans::mark(run.bans, &mut closed);
    search_with(run, &closed, words)
}

// The search of an accepted run in lent words, by the last of so many labels: only those that fit are
// touched. Where no road is banned nothing is marked.
pub fn search(run: &OpenRun<'_>, words: &mut [u32]) -> Result<usize, Unfound>
    ensures { Searched (listed_trip run.now) words.old words.new result }
{
    let fit = states::labels_that_fit(words.len());
    if fit == 0 {
        return Err(Unfound::Full);
    }
    let lent = &mut words[..State::LABEL_WORDS * fit];
    if run.bans.is_empty() {
        search_with(run, &[], lent)
    } else {
        search_marked(run, lent)
    }
}
