// The rule lines.
ghost use Rattle.std.specs.Prelude.{◌≡◌};
ghost use Rattle.bodies.specs.Body.{left, rules_read, last_given};
ghost use Rattle.bodies.specs.Places.{PartsDue};

use crate::parts::Part;
use crate::progress::{LineRead, LineStart, Progress};
use refusals::refusal::Refusal;
use rule_lines::names::RuleParts;

impl Part for RuleParts {
    ghost use Rattle.bodies.specs.Body.{rule_part};

    ghost part_at = { rule_part };

    #[tactic(auto, unfolding(crate::specs::Body::rule_part))]
    fn part_at(
        text: &[u8],
        vars: usize,
        place: LineStart,
        earlier: &[RuleParts],
    ) -> Result<LineRead<RuleParts>, Refusal> {
        let said = rule_lines::names::rule_line(text, place.at, vars, earlier);
        crate::progress::on_line(text, place, said)
    }
}

// So many rule lines behind the property lines.
#[tactic(auto, using(crate::proofs::PartLines::rules_left))]
pub fn rule_lines(text: &[u8], vars: usize, rules: usize, r: &mut Progress) -> Result<(), Refusal>
    requires { PartsDue text.now 16 rules r.old.place }
    ensures reads { left result r.new ≡ rules_read text.now vars r.old rules }
    ensures kept { r.new ≡ last_given (rules_read text.now vars r.old) r.old rules }
{
    crate::parts::part_lines(text, vars, rules, &mut r.place, &mut r.parts)
}
