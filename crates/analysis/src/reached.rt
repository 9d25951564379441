// The reached states of a set of a model's rules.
ghost use Rattle.std.specs.Prelude.{◌≡◌, ◌^◌, ◌<◌};
ghost use Rattle.searches.specs.Stored.{reached_of};
ghost use Rattle.semantics.specs.ByText.{described_by};
ghost use Rattle.semantics.specs.Meaning.{system_of};

use searches::runs::Reached;
use semantics::filled::with_systems;
use semantics::model_text::ModelText;
use sets::ruleset::RuleSet;

// The reached states of a set of the model's rules (asked as of `trace`), and how many pairs of states were tried to collect them.
pub fn reached(m: ModelText, set: RuleSet) -> Reached
    requires set_bound { set.0 < 2 ^ m.model.rules }
    ensures { result ≡ reached_of (system_of (described_by m.entry) set.0) }
{
    with_systems(m, |systems| searches::breadth_first::reached(systems, set))
}
