ghost use Rattle.std.specs.Prelude.{◌<◌, ◌≤◌, length};
ghost use Rattle.theory.specs.States.{Covered};
ghost use Rattle.states.specs.States.{covers};
ghost use Rattle.labels.specs.LabelWords.{settled};
ghost use Rattle.labels.specs.Lists.{Lists, Says};

use crate::Place;
use states::State;

// The settled labels, so many, as they are read: their words, and what is kept of each junction's.
#[derive(Clone, Copy)]
pub struct SettledLabels<'a> {
    pub words: &'a [u32],
    pub places: &'a [Place],
    pub count: usize,
    pub ghost lists: { Lists words.now places.now count },
}

impl<'a> SettledLabels<'a> {
    // Whether one of them covers this label: is at the same junction, and no worse. Of the labels up to
    // `since` it is known that none does.
    pub fn covered(&self, since: usize, label: State) -> bool
        requires known { label.junction < length self.now.places.now }
        requires since_le_n { (since ≤ self.now.count) × (Covered covers (settled self.now.words.now since) label → ⊥) }
        ensures { Says (Covered covers (settled self.now.words.now self.now.count) label) result }
    {
        let place = self.places[label.junction as usize];
        if place.spell_room < crate::room(label.figures.spell)
            || place.shift_room < crate::room(label.figures.shift)
        {
            return false;
        }
        let mut k = place.last as usize;
        while since < k {
            if states::covers(crate::read_label(self.words, k), label) {
                return true;
            }
            k = crate::previous(self.words, k) as usize;
        }
        false
    }
}
