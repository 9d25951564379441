// Which rules the cores rely on, off the table that marks the cores: MUST (in every core), MAY (in some core but not in MUST) and the irrelevant
// rules (in no core).
ghost use Rattle.std.specs.Prelude.{◌≡◌};
ghost use Rattle.sets.specs.Lists.{list_of, common};
ghost use Rattle.sets.specs.Kinds.{together};
ghost use Rattle.marks.specs.Marks.{marked};
ghost use Rattle.sorting.specs.Kinds.{kinds_by};

use marks::table::MarkedSets;
use sets::ruleset::RuleSet;

// Which kind is meant.
#[derive(Clone, Copy, Debug, PartialEq, Eq)]
pub enum Kind {
    Must,
    May,
    Irrelevant,
}

// The rules of each kind.
#[derive(Clone, Copy, Debug, PartialEq, Eq)]
pub struct Kinds {
    pub must: u16,
    pub may: u16,
    pub irrelevant: u16,
}

// The rules that some marked set has: a number, as `ByNumber` gives the sets and `Kinds` holds them.
fn together(sets: MarkedSets) -> u16
    ensures { result ≡ together (list_of sets.entry.rules (marked sets.entry.table.now)) }
{
    sets.by_number().fold(0, |all, set| all | set)
}

// The rules that every marked set has, likewise; if none is marked, no rule, as the definition has it.
fn common(sets: MarkedSets) -> u16
    ensures { result ≡ common (list_of sets.entry.rules (marked sets.entry.table.now)) }
{
    sets.by_number().reduce(|all, set| all & set).unwrap_or(0)
}

// The kinds of the rules, where the cores are marked.
pub fn kinds_of(sets: MarkedSets) -> Kinds
    ensures { result ≡ kinds_by sets.entry.rules (list_of sets.entry.rules (marked sets.entry.table.now)) }
{
    let some = RuleSet(together(sets));
    let must = RuleSet(common(sets));
    Kinds {
        must: must.0,
        may: some.less(must).0,
        irrelevant: RuleSet::full(sets.rules).less(some).0,
    }
}
