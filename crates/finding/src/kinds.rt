// The kinds of a model's rules: MUST, MAY and irrelevant. The sets are judged once for all three.
ghost use Rattle.std.specs.Prelude.{◌≡◌};
ghost use Rattle.semantics.specs.ByText.{described_by};
ghost use Rattle.semantics.specs.Meaning.{judge};
ghost use Rattle.sorting.specs.Kinds.{kinds_of};

use crate::find::with_found;
use semantics::model_text::ModelText;
use sorting::kinds::Kinds;

// The kinds of a model's rules; if there is no core, every rule is irrelevant.
pub fn kinds(m: ModelText) -> Kinds
    ensures { result ≡ kinds_of m.entry.model.rules (judge (described_by m.entry)) }
{
    with_found(m, &mut [], |cores, _, _| sorting::kinds::kinds_of(cores))
}
