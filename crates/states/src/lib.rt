// A state of a trip, and how two states compare: figure by figure, in the order of the definitions.
#![tactic(auto)]

ghost use Rattle.std.specs.Prelude.{◌≡◌, [], ◌∷◌};
ghost use Rattle.states.specs.LabelSpace.{labels_that_fit};
ghost use Rattle.states.specs.States.{start_of, legal, same_state, covers, rank_figures, ranks_no_higher};

use driving::{Figures, Order};
use seconds::{Clock, Wheel};

// Where the lorry is and when, and the driver's figures.
#[derive(Clone, Copy, PartialEq, Eq)]
pub struct State {
    pub junction: u32,
    pub clock: Clock,
    pub figures: Figures,
}

impl State {
    // The words that a label takes: its state, and how the search goes on from it.
    pub const LABEL_WORDS: usize = 10;

    pub const MOST_LABELS: usize = 1000000;
}

// The labels that a run of so many words holds.
pub fn labels_that_fit(words: usize) -> usize
    ensures { result ≡ labels_that_fit words }
{
    (words / State::LABEL_WORDS).min(State::MOST_LABELS)
}

pub fn start_of(order: Order) -> State
    ensures { result ≡ start_of order }
{
    State {
        junction: order.source,
        clock: order.departure,
        figures: order.figures,
    }
}

#[tactic(auto, using(driving::proofs::Clocks::at_most), unfolding(crate::specs::States::legal, theory::specs::Figures::none_above))]
pub fn is_legal(order: Order, state: State) -> bool
    ensures { result ≡ legal order state }
{
    state.clock <= order.latest && driving::within_limits(state.figures, order.rules)
}

// Whether b is at a's junction, and no worse: of two states the one with the mark is better.
#[tactic(auto, using(driving::proofs::Clocks::at_most), unfolding(crate::specs::States::covers, theory::specs::Figures::none_above))]
pub fn covers(b: State, a: State) -> bool
    ensures { result ≡ covers b a }
{
    b.junction == a.junction
        && b.clock <= a.clock
        && b.figures.spell <= a.figures.spell
        && b.figures.shift <= a.figures.shift
        && b.figures.week <= a.figures.week
        && driving::unmarked(b.figures) <= driving::unmarked(a.figures)
}

// What decides first stands first: of two states the one with the mark is better.
fn rank(state: State) -> (Clock, Wheel, Wheel, Wheel, u32, u32)
    ensures { result.0.0 ∷ result.1.0 ∷ result.2.0 ∷ result.3.0 ∷ result.4 ∷ result.5 ∷ [] ≡ rank_figures state }
{
    let figures = state.figures;
    let mark = driving::unmarked(figures);
    (
        state.clock,
        figures.spell,
        figures.shift,
        figures.week,
        mark,
        state.junction,
    )
}

// Whether b ranks no higher than a.
#[tactic(auto, using(crate::proofs::Told::ranked), unfolding(crate::specs::States::ranks_no_higher))]
pub fn ranks_no_higher(b: State, a: State) -> bool
    ensures { result ≡ ranks_no_higher b a }
{
    rank(b) <= rank(a)
}

#[tactic(auto, using(crate::proofs::Told::same_told))]
pub fn same_state(b: State, a: State) -> bool
    ensures { result ≡ same_state b a }
{
    b == a
}
