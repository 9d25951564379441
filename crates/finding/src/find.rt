// All cores and all cuts of a model's rules, in tables that are lent to one closure. The room for the tables lies here, in two sizes: few rules would
// spend most of their time clearing the large ones.
ghost use Rattle.std.specs.Prelude.{◌≡◌, ◌^◌, ◌*◌, ◌≤◌};
ghost use Rattle.systems.specs.BySystems.{judge_among};
ghost use Rattle.semantics.specs.ByText.{described_by};
ghost use Rattle.semantics.specs.Meaning.{judge};
ghost use Rattle.finding.specs.Finding.{TakesFound, AnswersByFound};

use marks::table::MarkedSets;
use semantics::filled::with_systems_over;
use semantics::model_text::ModelText;
use systems::systems::Systems;

// What the closure makes of the cores, the cuts and the lent bytes, by tables of so many words. The words that are gone over are no more than the marks take.
fn found_in<const WORDS: usize, R, F: FnOnce(MarkedSets, MarkedSets, &mut [u8]) -> R>(
    systems: Systems,
    lent: &mut [u8],
    run: F,
) -> R
    requires few { systems.tables.now.rules ≤ 16 }
    requires room { (2 ^ systems.tables.now.rules ≤ 64 * WORDS) × (WORDS ≤ 1024) }
    requires callable { TakesFound (F.pre run) systems.tables.now.rules (judge_among systems) lent.old }
    ensures { let s = systems.entry in AnswersByFound (F.post run) s.tables.now.rules (judge_among s) lent.old result lent.new }
{
    let rules = systems.tables.rules;
    let words = marks::table::word_count(rules);
    let mut unknown = [0u64; WORDS];
    let mut cores = [0u64; WORDS];
    let mut cuts = [0u64; WORDS];
    cores::seeds::find(
        systems,
        &mut unknown[..words],
        &mut cores[..words],
        &mut cuts[..words],
    );
    let cores = MarkedSets {
        table: &cores[..words],
        rules,
    };
    let cuts = MarkedSets {
        table: &cuts[..words],
        rules,
    };
    run(cores, cuts, lent)
}

// What the closure makes of them and of the lent bytes. Tables of 4 words are enough for at most 8 rules.
fn found<R, F: FnOnce(MarkedSets, MarkedSets, &mut [u8]) -> R>(
    systems: Systems,
    lent: &mut [u8],
    run: F,
) -> R
    requires few { systems.tables.now.rules ≤ 16 }
    requires callable { TakesFound (F.pre run) systems.tables.now.rules (judge_among systems) lent.old }
    ensures { let s = systems.entry in AnswersByFound (F.post run) s.tables.now.rules (judge_among s) lent.old result lent.new }
{
    if systems.tables.rules <= 8 {
        found_in::<4, _, _>(systems, lent, run)
    } else {
        found_in::<1024, _, _>(systems, lent, run)
    }
}

// What the closure makes of a model's cores and cuts and of the lent bytes.
pub(crate) fn with_found<R, F: FnOnce(MarkedSets, MarkedSets, &mut [u8]) -> R>(
    m: ModelText,
    lent: &mut [u8],
    run: F,
) -> R
    requires callable { TakesFound (F.pre run) m.model.rules (judge (described_by m)) lent.old }
    ensures { AnswersByFound (F.post run) m.entry.model.rules (judge (described_by m.entry)) lent.old result lent.new }
{
    with_systems_over(
        m,
        lent,
        |systems: Systems, lent: &mut [u8]| -> R
            requires few { systems.tables.now.rules ≤ 16 }
            requires callable { TakesFound (F.pre run) systems.tables.now.rules (judge_among systems) lent.now }
            ensures { let s = systems.entry in AnswersByFound (F.post run) s.tables.now.rules (judge_among s) lent.entry.now result lent.exit.now }
        { found(systems, lent, run) },
    )
}
