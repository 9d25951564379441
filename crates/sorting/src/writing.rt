// The list of the sets that a table marks, straight from the table: fewer rules first, then by number. In lent bytes each set takes two, low
// byte first.
ghost use Rattle.std.specs.Prelude.{◌≡◌, ◌*◌, ◌^◌, ◌≤◌, eqb, length};
ghost use Rattle.std.specs.Int.Count.{ones};
ghost use Rattle.sets.specs.Lists.{one_if, select, sized, list_of, bytes_of, overwritten};
ghost use Rattle.marks.specs.Marks.{marked};
ghost use Rattle.sorting.specs.Written.{Written, Noted};

use marks::table::MarkedSets;
use sets::ruleset::RuleSet;

// How many sets are marked.
pub fn count(sets: MarkedSets) -> usize
    ensures { result ≡ length (list_of sets.entry.rules (marked sets.entry.table.now)) }
{
    sets.by_number().count()
}

// The sizes of the marked sets, which `ByNumber` gives as numbers: bit k is set if one of them has k rules. Most lists have few sizes, so that few rounds write them.
fn sizes(sets: MarkedSets) -> usize
    ensures { Noted (marked sets.entry.table.now) (2 ^ sets.entry.rules) result }
{
    sets.by_number()
        .fold(0, |noted, set| noted | 1 << RuleSet(set).size())
}

// Writes a set to the front of the lent bytes if it has so many rules, and says how many bytes that took.
fn put_sized(set: RuleSet, size: usize, lent: &mut [u8]) -> usize
    requires { 2 * length (one_if (eqb (ones set.0) size) set.0) ≤ length lent.old }
    ensures { Written (one_if (eqb (ones set.0) size) set.0) lent.old lent.new result }
{
    if set.size() == size {
        lent[..2].copy_from_slice(&set.0.to_le_bytes());
        2
    } else {
        0
    }
}

// Writes the marked sets that have so many rules to the front of the lent bytes, and says how many bytes that took. `at`, here and below, counts the bytes
// that are written so far: it is no index of the loop, which some turns leave as it is.
fn write_sized(sets: MarkedSets, size: usize, lent: &mut [u8]) -> usize
    requires { 2 * length (select (sized (marked sets.table.now) size) (2 ^ sets.rules)) ≤ length lent.old }
    ensures { Written (select (sized (marked sets.entry.table.now) size) (2 ^ sets.entry.rules)) lent.old lent.new result }
{
    let mut at = 0;
    for set in sets.by_number() {
        at += put_sized(RuleSet(set), size, &mut lent[at..]);
    }
    at
}

// Writes the marked sets over the front of the lent bytes, fewer rules first. A size that no marked set has is passed over.
pub fn write_sorted(sets: MarkedSets, lent: &mut [u8])
    requires { 2 * length (list_of sets.rules (marked sets.table.now)) ≤ length lent.old }
    ensures { lent.new ≡ overwritten (bytes_of (list_of sets.entry.rules (marked sets.entry.table.now))) lent.old }
{
    let noted = sizes(sets);
    let mut at = 0;
    for size in 0..=sets.rules {
        if (noted >> size) % 2 == 1 {
            at += write_sized(sets, size, &mut lent[at..]);
        }
    }
}
