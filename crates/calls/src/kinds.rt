// The rules of one kind: MUST (in every core), MAY (in some core but not in MUST) or irrelevant (in no core).
ghost use Rattle.std.specs.Prelude.{◌≡◌};
ghost use Rattle.sorting.specs.declared.kinds.Kind.TheVariants.{Must};
ghost use Rattle.refusals.specs.Answers.{answer_of};
ghost use Rattle.calls.specs.Answers.{kind_answer};

use crate::reading::read_text;
use refusals::refusal::Refusal;
use sorting::kinds::Kind;

// Gives the MUST rules of a model text, by one judgement for each rule and one more. It stands beside `give`, since the C interface states how much stack a
// host needs that asks for nothing else, and the tables of sets in `give` take more (fixed memory).
#[tactic(auto, using(crate::proofs::ListFacts::kinds_given))]
pub fn give_must(text: &[u8]) -> Result<u16, Refusal>
    ensures { answer_of result ≡ kind_answer Must text.now }
{
    let m = read_text(text)?;
    Ok(finding::must::must(m).0)
}

// Gives the rules of one kind of a model text. For MAY and the irrelevant rules all cores are found.
#[tactic(auto, using(crate::proofs::ListFacts::kinds_given))]
pub fn give(text: &[u8], kind: Kind) -> Result<u16, Refusal>
    ensures { answer_of result ≡ kind_answer kind text.now }
{
    let m = read_text(text)?;
    Ok(match kind {
        Kind::Must => finding::must::must(m).0,
        Kind::May => finding::kinds::kinds(m).may,
        Kind::Irrelevant => finding::kinds::kinds(m).irrelevant,
    })
}
