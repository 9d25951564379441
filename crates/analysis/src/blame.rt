// What a log says of a model's rules and properties.
ghost use Rattle.std.specs.Prelude.{◌≡◌, ◌^◌};
ghost use Rattle.semantics.specs.ByText.{described_by};
ghost use Rattle.semantics.specs.Meaning.{start_met, step_met, bad_of};
ghost use Rattle.logs.specs.Log.{IsLog, blame_of};

use logs::blame::Blamed;
use semantics::filled::with_systems;
use semantics::model_text::ModelText;

// The rules that are broken in a log, and where it first breaks a property.
pub fn blame(m: ModelText, log: &[u8]) -> Blamed
    requires log { IsLog (2 ^ m.model.vars) log.now }
    ensures { result ≡ blame_of m.entry.model.rules (start_met (described_by m.entry)) (step_met (described_by m.entry)) (bad_of (described_by m.entry)) log.now }
{
    with_systems(m, |systems| logs::blame::blame(systems, log))
}
