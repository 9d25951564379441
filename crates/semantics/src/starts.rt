// The start masks: for each state the set of the rules whose start part it meets.
ghost use Rattle.std.specs.Prelude.{◌≡◌, length};
ghost use Rattle.std.specs.List.{list_all};
ghost use Rattle.std.specs.Option.{is_none};
ghost use Rattle.sets.specs.Tabulated.{tabulate};
ghost use Rattle.semantics.specs.Places.{meets_start, start_mask_by};

use crate::written_rules::WrittenRules;
use rule_lines::names::RuleParts;
use sets::ruleset::RuleSet;

// Whether a state meets the start part of the rule whose parts stand at these places. Where it has none, every state does.
#[tactic(auto, unfolding(crate::specs::Places::meets_start))]
fn meets_start(text: &[u8], parts: RuleParts, s: usize) -> bool
    ensures { result ≡ meets_start text.now parts s }
{
    match parts.start {
        None => true,
        Some(bytes) => {
            crate::values::is_met(slices::parts::rest(text, parts.step), bytes as usize, s, s)
        }
    }
}

// The set of the rules whose start part a state meets.
#[tactic(auto, unfolding(crate::specs::Places::start_mask_by))]
fn start_mask(rules: WrittenRules, s: usize) -> RuleSet
    ensures { result.0 ≡ start_mask_by rules.entry.text.now rules.entry.parts.now s }
{
    let mut met = RuleSet::EMPTY;
    for (i, parts) in rules.parts.iter().enumerate() {
        if meets_start(rules.text, *parts, s) {
            met = met.with(i);
        }
    }
    met
}

// Whether none of the rules has a start part.
fn none_has(rules: &[RuleParts]) -> bool
    ensures { result ≡ list_all (λ p. is_none p.start) rules.now }
{
    rules.iter().all(|parts| parts.start.is_none())
}

// The start masks of the states from 0 on, as many as the row has entries. Without start parts every one has all rules, and no rule is looked at again.
// They are numbers, as the masks of `Systems`.
#[tactic(auto, using(crate::proofs::Filling::none_filled, crate::proofs::Filling::all_filled))]
pub(crate) fn fill_starts(rules: WrittenRules, row: &mut [u16])
    ensures { let x = rules.entry in row.new ≡ tabulate (length row.old) (start_mask_by x.text.now x.parts.now) }
{
    if none_has(rules.parts) {
        row.fill(RuleSet::full(rules.parts.len()).0);
    } else {
        for (s, mask) in row.iter_mut().enumerate() {
            *mask = start_mask(rules, s).0;
        }
    }
}
