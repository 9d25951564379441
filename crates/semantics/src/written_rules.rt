// The rules of a model as they stand in its text.
ghost use Rattle.std.specs.Prelude.{◌≤◌, length};

use rule_lines::names::RuleParts;

// A text and where the parts of its rules stand in it; a mask has a place for each rule.
#[derive(Clone, Copy)]
pub(crate) struct WrittenRules<'a> {
    pub(crate) text: &'a [u8],
    pub(crate) parts: &'a [RuleParts],
    ghost few: { length parts.now ≤ 16 },
}
