// MUST: what all cores have in common.
ghost use Rattle.std.specs.Prelude.{◌≡◌};
ghost use Rattle.sets.specs.Lists.{must_of};
ghost use Rattle.semantics.specs.ByText.{described_by};
ghost use Rattle.semantics.specs.Meaning.{judge};

use semantics::filled::with_systems;
use semantics::model_text::ModelText;
use sets::ruleset::RuleSet;

// MUST of a model's rules; if there is no core, set 0, as MUST is defined.
pub fn must(m: ModelText) -> RuleSet
    ensures { result.0 ≡ must_of m.entry.model.rules (judge (described_by m.entry)) }
{
    with_systems(m, |systems| cores::seeds::must_of(systems))
}
