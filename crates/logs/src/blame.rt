// What a log says by masks and tables: the rules that are broken in it, and the place of its first bad state. The functions take the systems and the log, and
// no struct of both: it would make each of their facts longer by a field.
ghost use Rattle.std.specs.Prelude.{◌≡◌, ◌≤◌};
ghost use Rattle.systems.specs.ByTables.{mark_at};
ghost use Rattle.logs.specs.Log.{IsLog, blamed_set, breach_place, blame_of};
ghost use Rattle.logs.specs.ByTables.{start_met_among, step_met_among};

use sets::ruleset::RuleSet;
use systems::systems::Systems;
use systems::tables::STATES;

// The set of the rules that are broken in a log, and the place of the first bad state, if there is one.
#[derive(Clone, Copy)]
pub struct Blamed {
    pub set: u16,
    pub breach: Option<usize>,
}

// The rules that are broken in a log: all but those whose start part its first state meets and whose step part all its neighbours meet. Each mask is looked up
// by its entry, as in the definitions: a row would be cut out of the masks for each pair of neighbours, and for the first state alone.
fn blamed_set(systems: Systems, log: &[u8]) -> u16
    requires few { systems.tables.now.rules ≤ 16 }
    requires log { IsLog systems.tables.now.states log.now }
    ensures { result ≡ blamed_set systems.entry.tables.now.rules (start_met_among systems.entry) (step_met_among systems.entry) log.now }
{
    let Systems { masks, tables } = systems;
    let first = masks[STATES * tables.states + log[0] as usize];
    let met = log
        .iter()
        .zip(&log[1..])
        .map(|(s, u)| masks[STATES * *s as usize + *u as usize])
        .fold(first, |met, mask| met & mask);
    RuleSet::full(tables.rules).less(RuleSet(met)).0
}

// The place of the first bad state of a log.
fn breach_place(systems: Systems, log: &[u8]) -> Option<usize>
    requires { IsLog systems.tables.now.states log.now }
    ensures { result ≡ breach_place (mark_at systems.entry.tables.now.bad) log.now }
{
    for place in 0..log.len() {
        if systems.tables.bad[log[place] as usize] {
            return Some(place);
        }
    }
    None
}

// What a log says of the rules and of the bad states.
pub fn blame(systems: Systems, log: &[u8]) -> Blamed
    requires few { systems.tables.now.rules ≤ 16 }
    requires log { IsLog systems.tables.now.states log.now }
    ensures { result ≡ blame_of systems.entry.tables.now.rules (start_met_among systems.entry) (step_met_among systems.entry) (mark_at systems.entry.tables.now.bad) log.now }
{
    Blamed {
        set: blamed_set(systems, log),
        breach: breach_place(systems, log),
    }
}
