// The exports for a C host, under the names of include/codremif.h: each is the call of crate `codremif` with this name, with its promises. They only hand on,
// since the C interface takes a static library, and no crate is that and a library on which others rest.
#![tactic(auto)]

ghost use Rattle.std.specs.Prelude.{◌≡◌, length};
ghost use Rattle.sorting.specs.declared.which.WhichList.TheVariants.{Cores, Cuts};
ghost use Rattle.sorting.specs.declared.kinds.Kind.TheVariants.{Must, May, Irrelevant};
ghost use Rattle.lookup.specs.Suffices.{suffices_answer};
ghost use Rattle.calls.specs.Answers.{judge_answer, judge_bytes, reached_answer, reached_bytes, list_answer, list_bytes, kind_answer};
ghost use Rattle.preferences.specs.Answer.{one_core_answer};
ghost use Rattle.blaming.specs.Answer.{blame_answer};
ghost use Rattle.packing.specs.Packing.{judge_parts, reached_parts, list_parts, set_parts, one_core_parts, blame_parts, breach_number, suffices_parts, witness_place, packed, version_number};

#[unsafe(no_mangle)]
pub extern "C" fn codremif_judge(text: &[u8], set: u32, trace: &mut [u8]) -> u64
    ensures value { result ≡ packed (judge_parts (judge_answer text.now set trace.old)) }
    ensures trace_after { trace.new ≡ judge_bytes text.now set trace.old }
{
    codremif::host::codremif_judge(text, set, trace)
}

// Which states a set can reach: a byte for each state, and how many pairs of states were tried.
#[unsafe(no_mangle)]
pub extern "C" fn codremif_reached(text: &[u8], set: u32, marks: &mut [u8]) -> u64
    ensures value { result ≡ packed (reached_parts (reached_answer text.now set marks.old)) }
    ensures marks_after { marks.new ≡ reached_bytes text.now set marks.old }
{
    codremif::host::codremif_reached(text, set, marks)
}

#[unsafe(no_mangle)]
pub extern "C" fn codremif_cores(text: &[u8], sets: &mut [u8]) -> u64
    ensures value { result ≡ packed (list_parts (list_answer Cores text.now sets.old)) }
    ensures sets_after { sets.new ≡ list_bytes Cores text.now sets.old }
{
    codremif::host::codremif_cores(text, sets)
}

#[unsafe(no_mangle)]
pub extern "C" fn codremif_cuts(text: &[u8], sets: &mut [u8]) -> u64
    ensures value { result ≡ packed (list_parts (list_answer Cuts text.now sets.old)) }
    ensures sets_after { sets.new ≡ list_bytes Cuts text.now sets.old }
{
    codremif::host::codremif_cuts(text, sets)
}

#[unsafe(no_mangle)]
pub extern "C" fn codremif_must(text: &[u8]) -> u64
    ensures { result ≡ packed (set_parts (kind_answer Must text.now)) }
{
    codremif::host::codremif_must(text)
}

#[unsafe(no_mangle)]
pub extern "C" fn codremif_may(text: &[u8]) -> u64
    ensures { result ≡ packed (set_parts (kind_answer May text.now)) }
{
    codremif::host::codremif_may(text)
}

#[unsafe(no_mangle)]
pub extern "C" fn codremif_irr(text: &[u8]) -> u64
    ensures { result ≡ packed (set_parts (kind_answer Irrelevant text.now)) }
{
    codremif::host::codremif_irr(text)
}

// One core, by an order of the rules, dearest last; and how many judgements were made.
#[unsafe(no_mangle)]
pub extern "C" fn codremif_one_core(text: &[u8], order: &[u8]) -> u64
    ensures { result ≡ packed (one_core_parts (one_core_answer text.now order.now)) }
{
    codremif::host::codremif_one_core(text, order)
}

// Which rules are broken in a station's log, and whether no state of it breaks a property.
#[unsafe(no_mangle)]
pub extern "C" fn codremif_blame(text: &[u8], log: &[u8]) -> u64
    ensures { result ≡ packed (blame_parts (blame_answer text.now log.now)) }
{
    codremif::host::codremif_blame(text, log)
}

// The place of the first state of the log that breaks a property, or the log's length.
#[unsafe(no_mangle)]
pub extern "C" fn codremif_breach(text: &[u8], log: &[u8]) -> u64
    ensures { result ≡ breach_number (length log.now) (blame_answer text.now log.now) }
{
    codremif::host::codremif_breach(text, log)
}

// Whether a set suffices, by a list of cores and a list of cuts.
#[unsafe(no_mangle)]
pub extern "C" fn codremif_suffices(set: u32, cores: &[u8], cuts: &[u8]) -> u64
    ensures { result ≡ packed (suffices_parts (suffices_answer set cores.now cuts.now)) }
{
    codremif::host::codremif_suffices(set, cores, cuts)
}

#[unsafe(no_mangle)]
pub extern "C" fn codremif_witness(set: u32, cores: &[u8], cuts: &[u8]) -> u64
    ensures { result ≡ witness_place (suffices_answer set cores.now cuts.now) }
{
    codremif::host::codremif_witness(set, cores, cuts)
}

// Which version of the part this is, as CODREMIF_VERSION of the header says it.
#[unsafe(no_mangle)]
pub extern "C" fn codremif_version() -> u64
    ensures { result ≡ version_number 1 7 0 }
{
    codremif::host::codremif_version()
}
