// Listing the cores or the cuts: the whole list is found and counted before a byte is written.
ghost use Rattle.std.specs.Prelude.{◌≡◌};
ghost use Rattle.refusals.specs.Answers.{answer_of};
ghost use Rattle.calls.specs.Answers.{list_answer, list_bytes};

use crate::reading::read_text;
use refusals::refusal::{Reason, Refusal};
use sorting::which::WhichList;

// Lists the cores or the cuts of a model text, and says how many sets that are.
pub fn list(text: &[u8], which: WhichList, lent: &mut [u8]) -> Result<usize, Refusal>
    ensures value { answer_of result ≡ list_answer which text.now lent.old }
    ensures lent_after { lent.new ≡ list_bytes which text.now lent.old }
{
    let m = read_text(text)?;
    finding::lists::list(m, which, lent).ok_or(Reason::BytesFewer.into())
}
