// Judging a set of rules: the verdict, and the trace of a broken set in the lent bytes.
ghost use Rattle.std.specs.Prelude.{◌≡◌};
ghost use Rattle.refusals.specs.Answers.{answer_of};
ghost use Rattle.calls.specs.Answers.{judge_answer, judge_bytes};

use crate::reading::read_with_set;
use crate::verdict::Verdict;
use refusals::refusal::{Reason, Refusal};

// Judges a set of the rules of a model text. The trace is found before it is known whether it fits, so that the bytes are too few for this trace and
// not for the longest one.
pub fn judge(text: &[u8], set: u32, lent: &mut [u8]) -> Result<Verdict, Refusal>
    ensures value { answer_of result ≡ judge_answer text.now set lent.old }
    ensures lent_after { lent.new ≡ judge_bytes text.now set lent.old }
{
    let (m, set) = read_with_set(text, set)?;
    let trace = analysis::trace::trace(m, set);
    let states = trace.states();
    if lent.len() < states.len() {
        return Err(Reason::BytesFewer.into());
    }
    if states.is_empty() {
        return Ok(Verdict::Holds);
    }
    lent[..states.len()].copy_from_slice(states);
    Ok(Verdict::Broken(states.len()))
}
