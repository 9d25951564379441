// The three calls of demand 3 together. The promise is demand 3 itself, so that the theorem speaks of the calls and cannot drift from them.
ghost use Rattle.std.specs.Prelude.{◌≡◌};
ghost use Rattle.refusals.specs.Answers.{Accepted};
ghost use Rattle.calls.specs.Answers.{text_outcome};
ghost use Rattle.codremif.specs.Demand3.{AsCalled, TextDemand3, in_rattle, asked};

use refusals::refusal::Refusal;
use sorting::which::WhichList;

#[derive(Clone, Copy, Debug, PartialEq, Eq)]
pub struct Together {
    pub cores: Result<usize, Refusal>,
    pub cuts: Result<usize, Refusal>,
    pub must: Result<u16, Refusal>,
}

// Lists the cores and the cuts and gives MUST, each call reading the text itself.
pub fn ask_all(text: &[u8], cores: &mut [u8], cuts: &mut [u8]) -> Together
    ensures as_called { AsCalled text.now (asked result cores.old cores.new cuts.old cuts.new) }
    ensures text_demand3 { text_outcome text.now ≡ Accepted →
        TextDemand3 in_rattle text.now (asked result cores.old cores.new cuts.old cuts.new) }
{
    let cores = calls::listing::list(text, WhichList::Cores, cores);
    let cuts = calls::listing::list(text, WhichList::Cuts, cuts);
    let must = calls::kinds::give_must(text);
    Together { cores, cuts, must }
}
