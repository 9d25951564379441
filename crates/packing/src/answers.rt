// An answer as the one 64-bit number that a C host gets.
ghost use Rattle.std.specs.Prelude.{◌≡◌, ◌<◌, ◌^◌, length};
ghost use Rattle.refusals.specs.Answers.{answer_of};
ghost use Rattle.packing.specs.Packing.{InRange, parts_by, packed, breach_number, witness_place};

use crate::parts::{Answered, Parts};
use logs::blame::Blamed;
use lookup::answer::Suffices;
use refusals::refusal::Refusal;

// The number, plus 256 times the line, plus 65,536 times the amount, plus 2^40 for a verdict that holds or a log without a breach, plus 2^41 times the
// judgements, which stand above every other part.
#[tactic(auto, unfolding(crate::specs::Packing::packed))]
fn pack_parts(parts: Parts) -> u64
    requires { InRange parts }
    ensures { result ≡ packed parts }
{
    let verdict = if parts.holds { 1099511627776 } else { 0 };
    parts.number as u64
        + 256 * (parts.line as u64)
        + 65536 * (parts.amount as u64)
        + verdict
        + 2199023255552 * (parts.judgements as u64)
}

// The answer of any call.
#[tactic(auto, unfolding(crate::specs::Packing::parts_by))]
pub fn pack<A: Answered>(answer: Result<A, Refusal>) -> u64
    requires { InRange (parts_by A.parts_of (answer_of answer)) }
    ensures { result ≡ packed (parts_by A.parts_of (answer_of answer)) }
{
    pack_parts(match answer {
        Ok(accepted) => accepted.parts(),
        Err(refusal) => Parts::refused(refusal),
    })
}

// A log can be as long as memory, so a place has no room beside the set: a C host gets it by a call of its own. Where there is no breach it is the number
// of states that the log has, and of a refused call the greatest number, since the C interface has no Option.
#[tactic(auto, unfolding(crate::specs::Packing::breach_number))]
pub fn breach_of(answer: Result<Blamed, Refusal>, states: usize) -> u64
    ensures { result ≡ breach_number states (answer_of answer) }
{
    match answer {
        Ok(blamed) => blamed.breach.unwrap_or(states) as u64,
        Err(_) => u64::MAX,
    }
}

// An exported function cannot return a reference: a C host gets the place of the witness and not the part. The C interface has no Option: the greatest
// number stands for no place.
#[tactic(auto, unfolding(crate::specs::Packing::witness_place))]
pub fn place_of(answer: Result<Suffices, Refusal>) -> u64
    ensures { result ≡ witness_place (answer_of answer) }
{
    match answer {
        Ok(Suffices::CoreInside(place)) | Ok(Suffices::CutApart(place)) => place as u64,
        _ => u64::MAX,
    }
}
