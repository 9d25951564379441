// Blame from a station's log: which rules are broken in it, and where it first breaks a property.
ghost use Rattle.std.specs.Prelude.{◌≡◌};
ghost use Rattle.refusals.specs.Answers.{answer_of};
ghost use Rattle.blaming.specs.Answer.{blame_answer};

use logs::blame::Blamed;
use refusals::refusal::{Reason, Refusal};

// Blames rules of a model text from a log of its states: the set of the rules that are broken in the log, and the place of the first state that breaks a
// property, where there is one. How many states there are is told by the model, so the log is looked at when the text has been read; no table is filled
// for that.
#[tactic(auto, using(crate::proofs::Laws::Answer::blame_by_text))]
pub fn blame(text: &[u8], log: &[u8]) -> Result<Blamed, Refusal>
    ensures { answer_of result ≡ blame_answer text.now log.now }
{
    let m = calls::reading::read_text(text)?;
    if !logs::log::is_log(log, semantics::tables::state_count(m.model.vars)) {
        return Err(Reason::NoLog.into());
    }
    let first = log[0] as usize;
    if !semantics::values::is_met(text, m.model.init, first, first) {
        return Err(Reason::InitUnmet.into());
    }
    let blamed = analysis::blame::blame(m, log);
    Ok(blamed)
}
