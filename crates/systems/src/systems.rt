// The transition system of every set of the rules, as masks and tables give it.
ghost use Rattle.std.specs.Prelude.{◌≡◌, ◌≤◌, ◌<◌, eqb, length};
ghost use Rattle.std.specs.Int.Bits.{bit_and};
ghost use Rattle.systems.specs.ByTables.{HasRoom};

use crate::tables::{STATES, Tables};
use sets::ruleset::RuleSet;

// Masks and tables that belong together: the masks have a row for each state, and one more for the start parts. They are one slice of numbers and none of
// rows or of rule sets: the definitions have the mask of the states s and t at the entry 128 * s + t, as a number. No set is held with them, since it changes
// from judgement to judgement. That there are at most 16 rules is no fact of them: a search and a judgement do not ask for it, and those that do say so.
#[derive(Clone, Copy)]
pub struct Systems<'a> {
    pub masks: &'a [u16],
    pub tables: &'a Tables,
    ghost has_room: { HasRoom masks.now tables.now },
}

impl<'a> Systems<'a> {
    ghost use Rattle.systems.specs.BySystems.{row_among};

    // The masks of the pairs whose first state is s, by the second.
    #[tactic(auto, unfolding(crate::specs::ByTables::row_by))]
    pub fn row(self, s: usize) -> &'a [u16]
        requires { s < self.tables.now.states }
        ensures row { result.now ≡ row_among self.entry s }
        ensures size { length result.now ≡ self.entry.tables.now.states }
    {
        &self.masks[STATES * s..][..self.tables.states]
    }

    // For each state the set of the rules whose start part it meets.
    #[tactic(auto, unfolding(crate::specs::ByTables::row_by))]
    pub fn start_row(self) -> &'a [u16]
        ensures row { result.now ≡ row_among self.entry self.entry.tables.now.states }
        ensures size { length result.now ≡ self.entry.tables.now.states }
    {
        &self.masks[STATES * self.tables.states..][..self.tables.states]
    }
}

// Whether a mask has each rule of a set.
pub fn meets(mask: u16, set: RuleSet) -> bool
    ensures { result ≡ eqb (bit_and mask set.0) set.0 }
{
    (mask & set.0) == set.0
}
