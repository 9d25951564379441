// The trace of a set of a model's rules.
ghost use Rattle.std.specs.Prelude.{◌≡◌, ◌^◌, ◌<◌};
ghost use Rattle.traces.specs.Traced.{trace_array};
ghost use Rattle.semantics.specs.ByText.{described_by};
ghost use Rattle.semantics.specs.Meaning.{system_of};

use semantics::filled::with_systems;
use semantics::model_text::ModelText;
use sets::ruleset::RuleSet;
use traces::trace::Trace;

// The trace of a set; a set that holds has none. That it is a set of the model's rules is asked, since a set does not know of which rules it is.
pub fn trace(m: ModelText, set: RuleSet) -> Trace
    requires set_bound { set.0 < 2 ^ m.model.rules }
    ensures { result ≡ trace_array (system_of (described_by m.entry) set.0) }
{
    with_systems(m, |systems| searches::trace::trace_of(systems, set))
}
