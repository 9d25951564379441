// What the calls do first: the text is read, and the set of its rules that a call is handed is looked at.
ghost use Rattle.std.specs.Prelude.{IfErr, IfOk};
ghost use Rattle.calls.specs.Answers.{text_outcome, read_outcome};
ghost use Rattle.calls.specs.AsRead.{Refuses, IsModelOf, IsAskedOf};

use refusals::refusal::{Reason, Refusal};
use semantics::model_text::ModelText;
use sets::ruleset::RuleSet;

// A model text with its model; refused by the numbers 1 to 9.
#[tactic(auto, using(crate::proofs::Laws::Answers::is_refused))]
pub fn read_text(text: &[u8]) -> Result<ModelText, Refusal>
    ensures refused { IfErr result (Refuses (text_outcome text.now)) }
    ensures read { IfOk result (IsModelOf text.now) }
{
    let model = models::model::read_model(text)?;
    Ok(ModelText { text, model })
}

// The same with a set of its rules; refused by number 10 besides. A pair and no struct: each caller takes it apart at once.
#[tactic(auto, using(crate::proofs::Laws::Answers::read_by_text))]
pub(crate) fn read_with_set(text: &[u8], set: u32) -> Result<(ModelText, RuleSet), Refusal>
    ensures refused { IfErr result (Refuses (read_outcome text.now set)) }
    ensures read { IfOk result (λ asked. IsAskedOf text.now set asked.0 asked.1) }
{
    let m = read_text(text)?;
    if sets::ruleset::set_count(m.model.rules) <= set as usize {
        return Err(Reason::SetBeyond.into());
    }
    Ok((m, RuleSet(set as u16)))
}
