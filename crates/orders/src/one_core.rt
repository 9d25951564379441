// One core by an order of the rules, dearest last: each rule is dropped when what remains still holds.
ghost use Rattle.std.specs.Prelude.{ℕ, ◌+◌, ◌≤◌, ◌<◌, ◌≡◌, length, get_or};
ghost use Rattle.sets.specs.OneCore.{after_set, after_order, one_core_of};
ghost use Rattle.sets.specs.Orders.{IsOrder};
ghost use Rattle.systems.specs.BySystems.{judge_among};

use sets::one_core::OneCore;
use sets::ruleset::RuleSet;
use systems::systems::Systems;
use verdicts::verdict::is_held;

// A set is judged: it is found if it holds, and else what was found before stays. Every verdict of this module is given here, and counts one.
#[tactic(auto, unfolding(sets::specs::OneCore::after_set, sets::specs::OneCore::after_verdict))]
fn judged(systems: Systems, found: OneCore, set: RuleSet) -> OneCore
    requires { found.judgements ≤ 16 }
    ensures { result ≡ after_set (judge_among systems.entry) found set.0 }
{
    let holds = is_held(systems, set);
    OneCore {
        core: holds.then_some(set.0).or(found.core),
        judgements: found.judgements + 1,
    }
}

// Each rule in the order is dropped from the set that was found, which `OneCore` holds as a number, when the rest still holds.
fn drop_all(systems: Systems, order: &[u8], first: OneCore) -> OneCore
    requires below { (k : ℕ) → k < length order.now → get_or order.now k 0 < 16 }
    requires few { first.judgements + length order.now ≤ 17 }
    ensures { result ≡ after_order (judge_among systems.entry) first order.now }
{
    let mut found = first;
    for rule in order {
        if let Some(core) = found.core {
            found = judged(systems, found, RuleSet(core).without(*rule as usize));
        }
    }
    found
}

// The core that is left of the full set; where that is broken, no core.
pub fn one_core(systems: Systems, order: &[u8]) -> OneCore
    requires few { systems.tables.now.rules ≤ 16 }
    requires ordered { IsOrder systems.tables.now.rules order.now }
    ensures { result ≡ one_core_of systems.entry.tables.now.rules (judge_among systems.entry) order.now }
{
    let all = RuleSet::full(systems.tables.rules);
    let unjudged = OneCore {
        core: None,
        judgements: 0,
    };
    let first = judged(systems, unjudged, all);
    match first.core {
        Some(_) => drop_all(systems, order, first),
        None => first,
    }
}
