// The reached states of a set of rules: a mark for each state in the lent bytes.
ghost use Rattle.std.specs.Prelude.{◌≡◌, false, ◌≤◌, length, get_or};
ghost use mir.Val.{bool_byte};
ghost use Rattle.refusals.specs.Answers.{answer_of};
ghost use Rattle.sets.specs.Tabulated.{tabulate};
ghost use Rattle.calls.specs.Answers.{reached_answer, reached_bytes};

use crate::reading::read_with_set;
use refusals::refusal::{Reason, Refusal};

// A byte for each of the first states, 1 for a marked one.
fn put_marks(marks: &[bool], bytes: &mut [u8])
    requires { length bytes.old ≤ length marks.now }
    ensures { bytes.new ≡ tabulate (length bytes.old) (λ s. bool_byte (get_or marks.now s false)) }
{
    // by its index, since it was tried to zip both, and no proof closed: nothing is known of bytes that are written through such an iterator
    for (s, byte) in bytes.iter_mut().enumerate() {
        *byte = marks[s] as u8;
    }
}

// Gives the reached states of a set of the rules of a model text, and says how many pairs of states were tried to collect them. There is a byte for
// every state, whatever is reached, so it is known before the search whether the bytes are too few.
pub fn reach(text: &[u8], set: u32, lent: &mut [u8]) -> Result<usize, Refusal>
    ensures value { answer_of result ≡ reached_answer text.now set lent.old }
    ensures lent_after { lent.new ≡ reached_bytes text.now set lent.old }
{
    let (m, set) = read_with_set(text, set)?;
    let states = semantics::tables::state_count(m.model.vars);
    if lent.len() < states {
        return Err(Reason::BytesFewer.into());
    }
    let reached = analysis::reached::reached(m, set);
    put_marks(&reached.marks[..], &mut lent[..states]);
    Ok(reached.pairs)
}
