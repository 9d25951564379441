// Finding one core by an order of the rules, dearest last.
ghost use Rattle.std.specs.Prelude.{◌≡◌};
ghost use Rattle.refusals.specs.Answers.{answer_of};
ghost use Rattle.preferences.specs.Answer.{one_core_answer};

use refusals::refusal::{Reason, Refusal};
use sets::one_core::OneCore;

// Finds one core of a model text by an order of its rules, and says how many judgements were made; where the full set is broken there is no core, after
// the one judgement that tells so. How many bytes an order has is told by the model, so the order is looked at when the text has been read.
#[tactic(auto, using(crate::proofs::Laws::Answer::one_core_by_text))]
pub fn one_core(text: &[u8], order: &[u8]) -> Result<OneCore, Refusal>
    ensures { answer_of result ≡ one_core_answer text.now order.now }
{
    let m = calls::reading::read_text(text)?;
    if !orders::order::is_order(order, m.model.rules) {
        return Err(Reason::NoOrder.into());
    }
    let found = analysis::one_core::one_core(m, order);
    Ok(found)
}
