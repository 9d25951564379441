// The rules of a set, one after the other.
ghost use Rattle.std.specs.Iterator.{YieldsFirst, item_count};
ghost use Rattle.sections.specs.Rules.{rules_left};

use sets::ruleset::RuleSet;

// Gives the rules of a set in the model's order: the next rule is always the first of those that are left.
#[derive(Drop)]
pub(crate) struct Rules(pub(crate) RuleSet);

impl Iterator for Rules {
    type Item = usize;

    ghost next_gives = { YieldsFirst rules_left };

    ghost remaining = { item_count rules_left };

    #[tactic(auto, using(crate::specs::Laws::Rules::none_left, crate::specs::Laws::Rules::first_left, sets::specs::Laws::First::told_below))]
    fn next(&mut self) -> Option<usize> {
        let first = self.0.first()?;
        self.0 = self.0.without(first);
        Some(first)
    }
}
