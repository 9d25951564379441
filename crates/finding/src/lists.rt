// The list of the cores or of the cuts: all of both are found first, then the list is counted, and only then written.
ghost use Rattle.std.specs.Prelude.{◌≡◌};
ghost use Rattle.sets.specs.Lists.{list_of};
ghost use Rattle.semantics.specs.ByText.{described_by};
ghost use Rattle.semantics.specs.Meaning.{judge};
ghost use Rattle.marks.specs.Marks.{marked};
ghost use Rattle.sorting.specs.Which.{listed};
ghost use Rattle.finding.specs.Lists.{listed_answer, listed_bytes};

use crate::find::with_found;
use marks::table::MarkedSets;
use semantics::model_text::ModelText;
use sorting::which::WhichList;

// The list of the marked sets, and how many these are; where the lent bytes are too few for it, nothing is written.
#[tactic(auto, unfolding(crate::specs::Lists::listed_answer, crate::specs::Lists::listed_bytes))]
fn write(sets: MarkedSets, lent: &mut [u8]) -> Option<usize>
    ensures value { result ≡ listed_answer (list_of sets.entry.rules (marked sets.entry.table.now)) lent.old }
    ensures lent_after { lent.new ≡ listed_bytes (list_of sets.entry.rules (marked sets.entry.table.now)) lent.old }
{
    let n = sorting::writing::count(sets);
    if lent.len() / 2 < n {
        return None;
    }
    sorting::writing::write_sorted(sets, lent);
    Some(n)
}

// The list that is meant, over the front of the lent bytes, and how many sets it has; none where the bytes are too few for it, which then stay as they are.
pub fn list(m: ModelText, which: WhichList, lent: &mut [u8]) -> Option<usize>
    ensures value { result ≡ listed_answer (listed which m.entry.model.rules (judge (described_by m.entry))) lent.old }
    ensures lent_after { lent.new ≡ listed_bytes (listed which m.entry.model.rules (judge (described_by m.entry))) lent.old }
{
    with_found(m, lent, |cores, cuts, lent| {
        let sets = match which {
            WhichList::Cores => cores,
            WhichList::Cuts => cuts,
        };
        write(sets, lent)
    })
}
