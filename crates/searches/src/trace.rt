// The trace of a set: the first run that the search finds to a bad state.
ghost use Rattle.std.specs.Prelude.{◌≡◌};
ghost use Rattle.systems.specs.BySystems.{system_among};
ghost use Rattle.traces.specs.Traced.{trace_array};

use crate::runs::Runs;
use sets::ruleset::RuleSet;
use systems::systems::Systems;
use traces::trace::Trace;

// The trace of a set by the tables; a set that holds has none: its trace is the empty list, as the definition has it.
pub fn trace_of(systems: Systems, set: RuleSet) -> Trace
    ensures { result ≡ trace_array (system_among systems.entry set.0) }
{
    let mut x = Runs::none();
    crate::breadth_first::explore(systems, set, &mut x);
    match traces::trace::first_bad(x.found(), &systems.tables.bad) {
        Some(place) => traces::trace::run_at(x.found(), place),
        None => Trace::none(),
    }
}
