// One core by an order of a model's rules.
ghost use Rattle.std.specs.Prelude.{◌≡◌};
ghost use Rattle.sets.specs.OneCore.{one_core_of};
ghost use Rattle.sets.specs.Orders.{IsOrder};
ghost use Rattle.semantics.specs.ByText.{described_by};
ghost use Rattle.semantics.specs.Meaning.{judge};

use semantics::filled::with_systems;
use semantics::model_text::ModelText;
use sets::one_core::OneCore;

// The core that is left when rules are dropped in the order; where the full set is broken, none.
pub fn one_core(m: ModelText, order: &[u8]) -> OneCore
    requires order { IsOrder m.model.rules order.now }
    ensures { result ≡ one_core_of m.entry.model.rules (judge (described_by m.entry)) order.now }
{
    with_systems(m, |systems| orders::one_core::one_core(systems, order))
}
