// The calls for a C host: numbers and byte slices only. Crate `codremif_c` exports each under its name; a slice is a pointer and a length to the host.
// Each has a function that only packs what is answered, since the C interface knows a call by its name and takes one number.
ghost use Rattle.std.specs.Prelude.{◌≡◌, length};
ghost use Rattle.sorting.specs.declared.which.WhichList.TheVariants.{Cores, Cuts};
ghost use Rattle.sorting.specs.declared.kinds.Kind.TheVariants.{Must, May, Irrelevant};
ghost use Rattle.lookup.specs.Suffices.{suffices_answer};
ghost use Rattle.calls.specs.Answers.{judge_answer, judge_bytes, reached_answer, reached_bytes, list_answer, list_bytes, kind_answer};
ghost use Rattle.preferences.specs.Answer.{one_core_answer};
ghost use Rattle.blaming.specs.Answer.{blame_answer};
ghost use Rattle.packing.specs.Packing.{judge_parts, reached_parts, list_parts, set_parts, one_core_parts, blame_parts, breach_number, suffices_parts, witness_place, packed, version_number};

use sorting::kinds::Kind;
use sorting::which::WhichList;

#[tactic(auto, using(crate::proofs::Ranges::ranges), unfolding(packing::specs::Packing::judge_parts))]
pub fn codremif_judge(text: &[u8], set: u32, trace: &mut [u8]) -> u64
    ensures value { result ≡ packed (judge_parts (judge_answer text.now set trace.old)) }
    ensures trace_after { trace.new ≡ judge_bytes text.now set trace.old }
{
    packing::answers::pack(calls::judging::judge(text, set, trace))
}

// Which states a set can reach: a byte for each state, and how many pairs of states were tried.
#[tactic(auto, using(crate::proofs::Ranges::ranges), unfolding(packing::specs::Packing::reached_parts))]
pub fn codremif_reached(text: &[u8], set: u32, marks: &mut [u8]) -> u64
    ensures value { result ≡ packed (reached_parts (reached_answer text.now set marks.old)) }
    ensures marks_after { marks.new ≡ reached_bytes text.now set marks.old }
{
    packing::answers::pack(calls::reaching::reach(text, set, marks))
}

#[tactic(auto, using(crate::proofs::Ranges::ranges), unfolding(packing::specs::Packing::list_parts))]
pub fn codremif_cores(text: &[u8], sets: &mut [u8]) -> u64
    ensures value { result ≡ packed (list_parts (list_answer Cores text.now sets.old)) }
    ensures sets_after { sets.new ≡ list_bytes Cores text.now sets.old }
{
    packing::answers::pack(calls::listing::list(text, WhichList::Cores, sets))
}

#[tactic(auto, using(crate::proofs::Ranges::ranges), unfolding(packing::specs::Packing::list_parts))]
pub fn codremif_cuts(text: &[u8], sets: &mut [u8]) -> u64
    ensures value { result ≡ packed (list_parts (list_answer Cuts text.now sets.old)) }
    ensures sets_after { sets.new ≡ list_bytes Cuts text.now sets.old }
{
    packing::answers::pack(calls::listing::list(text, WhichList::Cuts, sets))
}

#[tactic(auto, using(crate::proofs::Ranges::ranges), unfolding(packing::specs::Packing::set_parts))]
pub fn codremif_must(text: &[u8]) -> u64
    ensures { result ≡ packed (set_parts (kind_answer Must text.now)) }
{
    packing::answers::pack(calls::kinds::give_must(text))
}

#[tactic(auto, using(crate::proofs::Ranges::ranges), unfolding(packing::specs::Packing::set_parts))]
pub fn codremif_may(text: &[u8]) -> u64
    ensures { result ≡ packed (set_parts (kind_answer May text.now)) }
{
    packing::answers::pack(calls::kinds::give(text, Kind::May))
}

#[tactic(auto, using(crate::proofs::Ranges::ranges), unfolding(packing::specs::Packing::set_parts))]
pub fn codremif_irr(text: &[u8]) -> u64
    ensures { result ≡ packed (set_parts (kind_answer Irrelevant text.now)) }
{
    packing::answers::pack(calls::kinds::give(text, Kind::Irrelevant))
}

// One core, by an order of the rules, dearest last; and how many judgements were made.
#[tactic(auto, using(crate::proofs::Ranges::ranges), unfolding(packing::specs::Packing::one_core_parts))]
pub fn codremif_one_core(text: &[u8], order: &[u8]) -> u64
    ensures { result ≡ packed (one_core_parts (one_core_answer text.now order.now)) }
{
    packing::answers::pack(preferences::one_core::one_core(text, order))
}

// Which rules are broken in a station's log, and whether no state of it breaks a property.
#[tactic(auto, using(crate::proofs::Ranges::ranges), unfolding(packing::specs::Packing::blame_parts))]
pub fn codremif_blame(text: &[u8], log: &[u8]) -> u64
    ensures { result ≡ packed (blame_parts (blame_answer text.now log.now)) }
{
    packing::answers::pack(blaming::blame::blame(text, log))
}

// The place of the first state of the log that breaks a property, or the log's length.
pub fn codremif_breach(text: &[u8], log: &[u8]) -> u64
    ensures { result ≡ breach_number (length log.now) (blame_answer text.now log.now) }
{
    packing::answers::breach_of(blaming::blame::blame(text, log), log.len())
}

// Whether a set suffices, by a list of cores and a list of cuts.
#[tactic(auto, using(crate::proofs::Ranges::ranges), unfolding(packing::specs::Packing::suffices_parts))]
pub fn codremif_suffices(set: u32, cores: &[u8], cuts: &[u8]) -> u64
    ensures { result ≡ packed (suffices_parts (suffices_answer set cores.now cuts.now)) }
{
    packing::answers::pack(lookup::suffices::suffices(set, cores, cuts))
}

pub fn codremif_witness(set: u32, cores: &[u8], cuts: &[u8]) -> u64
    ensures { result ≡ witness_place (suffices_answer set cores.now cuts.now) }
{
    packing::answers::place_of(lookup::suffices::suffices(set, cores, cuts))
}

// Which version of the part this is, as CODREMIF_VERSION of the header says it.
pub fn codremif_version() -> u64
    ensures { result ≡ version_number 1 7 0 }
{
    1007000
}
