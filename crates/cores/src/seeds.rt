// All cores and all cuts with few judgements. The first set by number of which nothing is known yet is the seed. One that holds is a core, since
// its parts have smaller numbers and are known to be broken. A broken one grows while it stays broken, and what it then lacks is a cut. So one
// judgement settles as many sets as it can, and no set of which something is known is judged.
ghost use Rattle.std.specs.Prelude.{◌≡◌, ◌≤◌, false, not, ◌&&◌};
ghost use Rattle.sets.specs.Bit.{has};
ghost use Rattle.sets.specs.Sets.{with};
ghost use Rattle.sets.specs.Cores.{is_core, is_cut};
ghost use Rattle.sets.specs.Lists.{must_of};
ghost use Rattle.systems.specs.BySystems.{judge_among};
ghost use Rattle.marks.specs.Marks.{marked, table_by};
ghost use Rattle.cores.specs.Seeds.{Addable, Growable, Grown, Going, Seed, Settled, Fresh, AllFound, Findable, FullHolds};

use sets::ruleset::RuleSet;
use systems::systems::Systems;

// Whether a rule can be added to a broken set so that it stays broken. If something is known of the larger set it is that it holds, so only a
// set of which nothing is known is judged.
fn stays_broken(systems: Systems, unknown: &[u64], set: RuleSet, rule: usize) -> bool
    requires { Addable unknown.now set.0 rule }
    ensures { result ≡
        (not (has set.0 rule) && (marked unknown.now (with set.0 rule)
        && not (judge_among systems.entry (with set.0 rule)))) }
{
    let more = set.with(rule);
    !set.has(rule)
        && marks::table::is_marked(unknown, more)
        && !verdicts::verdict::is_held(systems, more)
}

// A broken set above the seed to which no rule can be added so that it stays broken: they are added one by one.
fn grow(systems: Systems, unknown: &[u64], seed: RuleSet) -> RuleSet
    requires { Growable systems.tables.now.rules (judge_among systems) unknown.now seed.0 }
    ensures { let s = systems.entry in
        Grown s.tables.now.rules (judge_among s) seed.0 s.tables.now.rules result.0 }
{
    let mut most = seed;
    for i in 0..systems.tables.rules {
        if stays_broken(systems, unknown, most, i) {
            most = most.with(i);
        }
    }
    most
}

// Judges the seed, and notes the core or the cut that it leads to and what that says of other sets. The three tables are in no struct: behind a `&mut` of
// one a slice could be exchanged for another, so each promise would have to speak of lengths as well.
fn settle(systems: Systems, unknown: &mut [u64], cores: &mut [u64], cuts: &mut [u64], seed: RuleSet)
    requires going { Going systems.tables.now.rules (judge_among systems) unknown.old cores.old cuts.old }
    requires seed { Seed systems.tables.now.rules (marked unknown.old) seed.0 }
    ensures { let s = systems.entry in
        Settled s.tables.now.rules (judge_among s) seed.0 unknown.old unknown.new cores.new cuts.new }
{
    if verdicts::verdict::is_held(systems, seed) {
        marks::table::clear_above(unknown, seed);
        marks::table::mark(cores, seed);
    } else {
        let most = grow(systems, unknown, seed);
        marks::table::clear_below(unknown, most);
        marks::table::mark(cuts, RuleSet::full(systems.tables.rules).less(most));
    }
}

// Settles every set. When it is called nothing is known of any set, and no core or cut is marked.
fn settle_all(systems: Systems, unknown: &mut [u64], cores: &mut [u64], cuts: &mut [u64])
    requires { Fresh systems.tables.now.rules unknown.old cores.old cuts.old }
    ensures { let s = systems.entry in AllFound s.tables.now.rules (judge_among s) unknown.new cores.new cuts.new }
{
    let end = sets::ruleset::set_count(systems.tables.rules);
    let mut from = 0;
    // No iterator over the marks: it would hold the table, which each settled seed changes.
    while let Some(s) = marks::table::first_marked(unknown, from, end) {
        settle(systems, unknown, cores, cuts, RuleSet(s as u16));
        from = s + 1;
    }
}

// Marks the cores and the cuts, whatever the tables held; `unknown` has no mark left.
pub fn find(systems: Systems, unknown: &mut [u64], cores: &mut [u64], cuts: &mut [u64])
    requires { Findable systems.tables.now.rules unknown.old cores.old cuts.old }
    ensures unknown_after { unknown.new ≡ table_by systems.entry.tables.now.rules (λ S. false) }
    ensures cores_after { let s = systems.entry in
        cores.new ≡ table_by s.tables.now.rules (is_core (judge_among s)) }
    ensures cuts_after { let s = systems.entry in
        cuts.new ≡ table_by s.tables.now.rules (is_cut s.tables.now.rules (judge_among s)) }
{
    unknown.fill(marks::table::all_in_word(systems.tables.rules));
    cores.fill(0);
    cuts.fill(0);
    settle_all(systems, unknown, cores, cuts);
}

// The rules without which the full set, which holds, is broken: those that can be spared are dropped. One judgement for each rule.
fn needed(systems: Systems, all: RuleSet) -> RuleSet
    requires { FullHolds systems.tables.now.rules (judge_among systems) all.0 }
    ensures { let s = systems.entry in result.0 ≡ must_of s.tables.now.rules (judge_among s) }
{
    let mut must = all;
    for i in 0..systems.tables.rules {
        let less = all.without(i);
        let fewer = must.without(i);
        if verdicts::verdict::is_held(systems, less) {
            must = fewer;
        }
    }
    must
}

// The rules that all cores have in common; if there is no core, none, as MUST is defined: no Option tells it.
pub fn must_of(systems: Systems) -> RuleSet
    requires { systems.tables.now.rules ≤ 16 }
    ensures { let s = systems.entry in result.0 ≡ must_of s.tables.now.rules (judge_among s) }
{
    let all = RuleSet::full(systems.tables.rules);
    if verdicts::verdict::is_held(systems, all) {
        needed(systems, all)
    } else {
        RuleSet::EMPTY
    }
}
