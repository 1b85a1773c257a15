// The winner tree over settled labels: the label whose candidate ranks lowest, the lowest number on
// a tie. Node k is label k, and holds the winner of its subtree. A mended path carries a label's
// number and its candidate's clock; whole candidates are worked out only where two clocks are equal.
#![tactic(auto)]

ghost use Rattle.std.specs.Prelude.{◌≡◌, ◌+◌, ◌*◌, ◌/◌, ◌<◌, ◌≤◌, length};
ghost use Rattle.moves.specs.OpenRuns.{searched_trip};
ghost use Rattle.states.specs.LabelSpace.{label_words};
ghost use Rattle.labels.specs.LabelWords.{label_at};
ghost use Rattle.labels.specs.Tree.{Tree, TreeBut, Entering};
ghost use Rattle.candidates.specs.Candidates.{Fitting};
ghost use Rattle.winners.specs.Keys.{key_at, candidate, Ready};
ghost use Rattle.winners.specs.Mending.{Told, Stands, Best, Earlier, Live, Precedes, Decided, Carries, Climbed, Mended, Advanced, Enters, Placed, Leading};

use labels::Candidate;
use moves::OpenRun;
use seconds::Clock;
use states::State;

// A label and its candidate's clock. Label 0 is none, with the clock above all: so that a node's two
// comparisons ask nothing but clocks.
#[derive(Clone, Copy)]
struct Contender {
    label: usize,
    clock: Clock,
}

impl Contender {
    const NONE: Contender = Contender {
        label: 0,
        clock: Candidate::NO_CLOCK,
    };
}

// Label k as a contender.
fn contender_of(words: &[u32], k: usize) -> Contender
    requires { 1 ≤ k → label_words * k ≤ length words.now }
    ensures { Told words.now k result }
{
    if k == 0 {
        return Contender::NONE;
    }
    Contender {
        label: k,
        clock: labels::own_clock(words, k),
    }
}

// The state of label k's candidate.
pub fn candidate_at(run: &OpenRun<'_>, words: &[u32], k: usize) -> State
    requires { Live (searched_trip run.now) words.now k }
    ensures { result ≡ candidate (searched_trip run.now) words.now k }
{
    let label = labels::read_label(words, k);
    let next = labels::read_candidate(words, k);
    candidates::result_by(run, label, next)
}

// Whether label a comes before label b, both with candidates: by the candidates' ranks, the lower
// label on a tie.
fn precedes(run: &OpenRun<'_>, words: &[u32], a: usize, b: usize) -> bool
    requires { Live (searched_trip run.now) words.now a × Live (searched_trip run.now) words.now b }
    ensures { Precedes (searched_trip run.now) words.now a b result }
{
    let x = candidate_at(run, words, a);
    let y = candidate_at(run, words, b);
    if a < b {
        states::ranks_no_higher(x, y)
    } else {
        !states::ranks_no_higher(y, x)
    }
}

// The better of two with one clock.
fn tied(run: &OpenRun<'_>, words: &[u32], a: Contender, b: Contender) -> Contender
    requires { Stands (searched_trip run.now) words.now a × Stands (searched_trip run.now) words.now b × (a.clock.0 ≡ b.clock.0) }
    ensures { Best (searched_trip run.now) words.now a b result }
{
    if a.clock == Candidate::NO_CLOCK || precedes(run, words, a.label, b.label) {
        a
    } else {
        b
    }
}

// The one with the earlier clock.
fn earlier(a: Contender, b: Contender) -> Contender
    ensures { Earlier a b result }
{
    if b.clock < a.clock { b } else { a }
}

// The better of two.
fn better(run: &OpenRun<'_>, words: &[u32], a: Contender, b: Contender) -> Contender
    requires { Stands (searched_trip run.now) words.now a × Stands (searched_trip run.now) words.now b }
    ensures { Best (searched_trip run.now) words.now a b result }
{
    if a.clock == b.clock {
        tied(run, words, a, b)
    } else {
        earlier(a, b)
    }
}

// Stores at node k the best of a child's winner, of label k, and of the other child's winner.
fn decide(
    run: &OpenRun<'_>,
    words: &mut [u32],
    n: usize,
    k: usize,
    below: Contender,
    other: usize,
) -> Contender
    requires ready { Ready (searched_trip run.now) words.old n }
    requires stands { Stands (searched_trip run.now) words.old below }
    requires le_k { (1 ≤ k) × (k ≤ n) × (below.label ≤ n) × (other ≤ n) }
    ensures { Decided (searched_trip run.now) words.old words.new n below.label k other result }
{
    let own = contender_of(words, k);
    let between = better(run, words, below, own);
    let beside = contender_of(words, other);
    let best = better(run, words, between, beside);
    labels::set_winner(words, k, best.label as u32);
    best
}

// The node above j, from the winner below j and that of j's sibling.
fn climb(run: &OpenRun<'_>, words: &mut [u32], n: usize, j: usize, best: Contender) -> Contender
    requires { Carries (searched_trip run.now) words.old n j best × (1 < j) }
    ensures { Climbed (searched_trip run.now) words.old words.new n (j / 2) result }
{
    let above = j / 2;
    let other = labels::winner_within(words, n, 4 * above + 1 - j) as usize;
    decide(run, words, n, above, best, other)
}

// Mends the tree after label i's candidate has changed: the nodes from i up to the root, beginning
// below label i's own.
pub fn mend(run: &OpenRun<'_>, words: &mut [u32], n: usize, i: usize)
    requires ready { Ready (searched_trip run.now) words.old n }
    requires tree_but { TreeBut (key_at (searched_trip run.now) words.old) words.old n i }
    requires le_i { (1 ≤ i) × (i ≤ n) }
    ensures { Mended (searched_trip run.now) words.old words.new n }
{
    let left = labels::winner_within(words, n, 2 * i) as usize;
    let mut best = contender_of(words, left);
    let mut j = 2 * i;
    while 1 < j {
        best = climb(run, words, n, j, best);
        j /= 2;
    }
}

// Label k's candidate is another now, or none.
pub fn advance(run: &OpenRun<'_>, words: &mut [u32], n: usize, k: usize, next: Candidate)
    requires ready { Ready (searched_trip run.now) words.old n }
    requires tree { Tree (key_at (searched_trip run.now) words.old) words.old n }
    requires le_k { (1 ≤ k) × (k ≤ n) }
    requires fitting { Fitting (searched_trip run.now) (label_at words.old k) next }
    ensures { Advanced (searched_trip run.now) words.old words.new n k next }
{
    labels::set_candidate(words, k, next);
    mend(run, words, n, k);
}

// Whether the new label comes before a node's winner. `precedes` is called from here and from
// `tied`, which keeps it out of the loop over the nodes of a path.
fn wins(run: &OpenRun<'_>, words: &[u32], old: Contender, new: Contender) -> bool
    requires { Stands (searched_trip run.now) words.now old × Stands (searched_trip run.now) words.now new }
    ensures { Precedes (searched_trip run.now) words.now new.label old.label result }
{
    if old.clock != new.clock {
        return new.clock < old.clock;
    }
    old.clock != Candidate::NO_CLOCK && precedes(run, words, new.label, old.label)
}

// Whether the new label n + 1 wins node j, where it then is stored.
fn place(run: &OpenRun<'_>, words: &mut [u32], n: usize, j: usize, new: Contender) -> bool
    requires { Enters (searched_trip run.now) words.old n j new × (1 ≤ j) }
    ensures { Placed (searched_trip run.now) words.old words.new n j new result }
{
    let old = contender_of(words, labels::winner(words, j) as usize);
    let won = wins(run, words, old, new);
    if won {
        labels::set_winner(words, j, new.label as u32);
    }
    won
}

// Mends the tree after label n + 1 has come in: upwards, to the first node that it does not win.
pub fn enter(run: &OpenRun<'_>, words: &mut [u32], n: usize)
    requires ready { Ready (searched_trip run.now) words.old (n + 1) }
    requires entering { Entering (key_at (searched_trip run.now) words.old) words.old n ((n + 1) / 2) }
    ensures { Mended (searched_trip run.now) words.old words.new (n + 1) }
{
    let new = contender_of(words, n + 1);
    let mut j = (n + 1) / 2;
    while 0 < j && place(run, words, n, j, new) {
        j /= 2;
    }
}

// The label whose candidate is the lowest of all.
pub fn leading(words: &[u32], n: usize) -> usize
    requires { (1 ≤ n) × (label_words * n ≤ length words.now) }
    ensures { Leading words.now n result }
{
    labels::winner(words, 1) as usize
}
