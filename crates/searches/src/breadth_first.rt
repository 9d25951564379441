// The breadth-first search that collects the reached states with a run to each, in the order of marking. No pair of states is tried twice, and
// none once every state is reached.
ghost use Rattle.std.specs.Prelude.{◌≡◌, ◌<◌, [], get_or};
ghost use Rattle.searches.specs.Search.{starts_below, try_row, search};
ghost use Rattle.systems.specs.BySystems.{step_among, start_among, system_among};
ghost use Rattle.traces.specs.Stored.{runs_in};
ghost use Rattle.searches.specs.Stored.{found_in, last_at, collection_in, no_runs, Stores, Triable, reached_of};

use crate::runs::{Reached, Runs};
use sets::ruleset::RuleSet;
use systems::systems::{Systems, meets};

// Whether the state t is a start state of the set.
fn is_start(systems: Systems, set: RuleSet, t: usize) -> bool
    requires { t < systems.tables.now.states }
    ensures { result ≡ start_among systems.entry set.0 t }
{
    systems.tables.init[t] & meets(systems.start_row()[t], set)
}

// Whether the pair of the states s and t is a step of the set.
fn is_step(systems: Systems, set: RuleSet, s: usize, t: usize) -> bool
    requires first { s < systems.tables.now.states }
    requires second { t < systems.tables.now.states }
    ensures { result ≡ step_among systems.entry set.0 s t }
{
    meets(systems.row(s)[t], set)
}

// The start states of the set are marked, by number. The runs are lent, here and below, since moving them takes longer than a small search.
fn find_starts(systems: Systems, set: RuleSet, x: &mut Runs)
    requires { x.old ≡ no_runs }
    ensures { Stores (record { runs = starts_below (start_among systems.entry set.0) systems.entry.tables.now.states; pairs = 0 }) x.new }
{
    for t in 0..systems.tables.states {
        if is_start(systems, set, t) {
            x.mark(None, t);
        }
    }
}

// The last state of the run at place i is tried as the first of a pair with every state, by number, until every state is reached. The masks have rows
// of pairs for the states alone, so it has to be one of them.
#[tactic(auto, using(crate::proofs::Stored::sound_few))]
fn try_row(systems: Systems, set: RuleSet, i: usize, x: &mut Runs)
    requires { Triable systems.tables.now.states i x.old }
    ensures { Stores (try_row systems.entry.tables.now.states (step_among systems.entry set.0 (last_at x.old i))
        (get_or (runs_in (found_in x.old)) i []) systems.entry.tables.now.states (collection_in x.old)) x.new }
{
    let states = systems.tables.states;
    let from = x.runs[i].last as usize;
    for t in 0..states {
        if x.count == states {
            return;
        }
        x.pairs += 1;
        if is_step(systems, set, from, t) & !x.marks[t] {
            x.mark(Some(i as u8), t);
        }
    }
}

// Every run is tried once, in the order of marking, until every state is reached.
#[tactic(auto, using(crate::proofs::Stored::sound_few))]
pub(crate) fn explore(systems: Systems, set: RuleSet, x: &mut Runs)
    requires { x.old ≡ no_runs }
    ensures { Stores (search (system_among systems.entry set.0)) x.new }
{
    find_starts(systems, set, x);
    let mut i = 0;
    // No `for`, since the runs that are tried here grow in number.
    while i < x.count {
        if x.count == systems.tables.states {
            return;
        }
        try_row(systems, set, i, x);
        i += 1;
    }
}

// The reached states, and how many pairs of states were tried.
#[tactic(auto, using(crate::proofs::Stored::stored_reached))]
pub fn reached(systems: Systems, set: RuleSet) -> Reached
    ensures { result ≡ reached_of (system_among systems.entry set.0) }
{
    let mut x = Runs::none();
    explore(systems, set, &mut x);
    Reached {
        marks: x.marks,
        count: x.count,
        pairs: x.pairs,
    }
}
