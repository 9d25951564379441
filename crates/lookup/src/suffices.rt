// Whether a set of rules suffices, by two lists, and the witness of it.
ghost use Rattle.std.specs.Prelude.{◌≡◌};
ghost use Rattle.refusals.specs.Answers.{answer_of};
ghost use Rattle.lookup.specs.Suffices.{suffices_answer, looked_up, witness_of, address_said};

use crate::answer::Suffices;
use crate::search::first_inside;
use refusals::refusal::{Reason, Refusal};

// The cores come first: a cut is searched for only where no listed core is a part of the set. A cut that has no rule in the set is a part of all
// other rules.
fn look_up(set: u32, cores: &[u8], cuts: &[u8]) -> Suffices
    ensures { result ≡ looked_up set cores.now cuts.now }
{
    let Some(place) = first_inside(set, cores) else {
        return match first_inside(!set, cuts) {
            Some(place) => Suffices::CutApart(place),
            None => Suffices::Unlisted,
        };
    };
    Suffices::CoreInside(place)
}

// Looks a set up as it stands, whatever rules it has, in a list of cores and a list of cuts.
pub fn suffices(set: u32, cores: &[u8], cuts: &[u8]) -> Result<Suffices, Refusal>
    ensures { answer_of result ≡ suffices_answer set cores.now cuts.now }
{
    if cores.len() % 2 == 1 || cuts.len() % 2 == 1 {
        return Err(Reason::ListOdd.into());
    }
    Ok(look_up(set, cores, cuts))
}

// The witness: the two bytes of the list that holds it, a part of that list and no copy; no bytes where the set is unlisted or the call refused. No Option of
// it: the part with no bytes has an address, too, which is promised.
pub fn witness<'a>(set: u32, cores: &'a [u8], cuts: &'a [u8]) -> &'a [u8]
    ensures result_value { result.now ≡ witness_of set cores.now cuts.now }
    ensures ref_ptr_value { result.ref_ptr ≡ address_said (suffices_answer set cores.now cuts.now) cores.entry.ref_ptr cuts.entry.ref_ptr }
{
    match suffices(set, cores, cuts) {
        Ok(Suffices::CoreInside(at)) => slices::parts::front(slices::parts::rest(cores, at), 2),
        Ok(Suffices::CutApart(at)) => slices::parts::front(slices::parts::rest(cuts, at), 2),
        // an arm for each: where one stands for both, what is known there has no name that a proof could cite
        Ok(Suffices::Unlisted) => &cores[..0],
        Err(_) => &cores[..0],
    }
}
