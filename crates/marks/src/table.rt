// Tables of sets: bit S % 64 of word S / 64 is the mark of set S, so that 64 sets are marked, cleared or passed over at once. What changes a table, or asks it
// while it is changed, takes the lent slice and no struct of it: behind a `&mut` of one the slice could be exchanged for another, so each promise would have to
// speak of lengths as well.
ghost use Rattle.std.specs.Prelude.{◌≡◌, ◌&&◌, ◌||◌, not, ◌+◌, ◌*◌, ◌/◌, ◌^◌, ◌≤◌, ◌<◌, eqb, ltb, length};
ghost use Rattle.std.specs.Iterator.{YieldsFirst, item_count};
ghost use Rattle.sets.specs.Gathered.{set_of};
ghost use Rattle.sets.specs.Sets.{part};
ghost use Rattle.sets.specs.Lists.{select};
ghost use Rattle.sets.specs.Next.{next_if_any, passing_from};
ghost use Rattle.marks.specs.Marks.{marked, changed, Room, Ending, FewWords};

use sets::ruleset::RuleSet;

// The marks of the sets of so many rules.
#[derive(Clone, Copy, Debug)]
pub struct MarkedSets<'a> {
    pub table: &'a [u64],
    pub rules: usize,
    ghost room: { Room rules table.now },
}

// The marked sets of a table from one on and below an end, by number.
#[derive(Debug, Drop)]
pub struct ByNumber<'a> {
    table: &'a [u64],
    from: usize,
    end: usize,
    ghost ending: { Ending end table.now },
}

// How many words the marks of all sets of so many rules take.
pub fn word_count(rules: usize) -> usize
    requires { rules ≤ 16 }
    ensures { result ≡ (2 ^ rules + 63) / 64 }
{
    sets::ruleset::set_count(rules).div_ceil(64)
}

// The marks of all sets of so many rules, as each word of their table has them: a part of the one word where there are fewer than six rules.
pub fn all_in_word(rules: usize) -> u64
    requires { rules ≤ 16 }
    ensures { result ≡ set_of 64 (λ t. ltb t (2 ^ rules)) }
{
    if rules < 6 {
        (1u64 << sets::ruleset::set_count(rules)) - 1
    } else {
        u64::MAX
    }
}

// Whether a set is marked.
#[tactic(auto, unfolding(crate::specs::Marks::marked, sets::specs::Bit::has))]
pub fn is_marked(table: &[u64], set: RuleSet) -> bool
    requires { set.0 < 64 * length table.now }
    ensures { result ≡ marked table.now set.0 }
{
    let s = set.0 as usize;
    (table[s / 64] >> (s % 64)) % 2 == 1
}

// Marks a set.
pub fn mark(table: &mut [u64], set: RuleSet)
    requires { set.0 < 64 * length table.old }
    ensures { table.new ≡ changed (λ S b. eqb S set.0 || b) table.old }
{
    let s = set.0 as usize;
    table[s / 64] |= 1 << (s % 64);
}

// Clears the marks of the sets of which a set is a part.
pub fn clear_above(table: &mut [u64], set: RuleSet)
    ensures { table.new ≡ changed (λ S b. b && not (part set.0 S)) table.old }
{
    let s = set.0 as usize;
    let high = s / 64;
    let bits = sets::words::above(s % 64);
    let mut w = high;
    // no count of words: each step leaps to the next one above `high`
    while w < table.len() {
        table[w] &= !bits;
        w = (w + 1) | high;
    }
}

// Clears the marks of the parts of a set. No one walk serves this and `clear_above`: the step, its end and the order of the words all differ.
pub fn clear_below(table: &mut [u64], set: RuleSet)
    requires { set.0 < 64 * length table.old }
    ensures { table.new ≡ changed (λ S b. b && not (part S set.0)) table.old }
{
    let s = set.0 as usize;
    let high = s / 64;
    let bits = sets::words::below(s % 64);
    let mut w = high;
    // no count of words: each step leaps to the next one below `high`
    while 0 < w {
        table[w] &= !bits;
        w = (w - 1) & high;
    }
    table[0] &= !bits;
}

// The first set that is marked in the words from `word` on. Empty words are passed over by one test each.
fn first_in_words(table: &[u64], word: usize, words: usize) -> Option<usize>
    requires { FewWords table.now word words }
    ensures { result ≡ next_if_any (marked table.now) (64 * word) (64 * words) }
{
    let passed = table[word..words].iter().position(|bits| *bits != 0)?;
    let w = word + passed;
    Some(64 * w + table[w].trailing_zeros() as usize)
}

// The first marked set from a place on and below `end`.
pub fn first_marked(table: &[u64], from: usize, end: usize) -> Option<usize>
    requires { Ending end table.now }
    ensures { result ≡ next_if_any (marked table.now) from end }
{
    if end <= from {
        return None;
    }
    let bits = table[from / 64] >> (from % 64);
    let set = if bits != 0 {
        from + bits.trailing_zeros() as usize
    } else {
        first_in_words(table, from / 64 + 1, (end + 63) / 64)?
    };
    (set < end).then_some(set)
}

impl<'a> MarkedSets<'a> {
    // The marked sets, by number.
    pub fn by_number(self) -> ByNumber<'a>
        ensures { passing_from (marked result.table.now) result.from result.end ≡
            select (marked self.entry.table.now) (2 ^ self.entry.rules) }
    {
        ByNumber {
            table: self.table,
            from: 0,
            end: sets::ruleset::set_count(self.rules),
        }
    }
}

// It gives numbers and no RuleSet: the definitions of lists are of numbers.
impl<'a> Iterator for ByNumber<'a> {
    type Item = u16;

    ghost next_gives = { YieldsFirst (λ s. passing_from (marked s.table.now) s.from s.end) };

    ghost remaining = { item_count (λ s. passing_from (marked s.table.now) s.from s.end) };

    fn next(&mut self) -> Option<u16> {
        let set = first_marked(self.table, self.from, self.end)?;
        self.from = set + 1;
        Some(set as u16)
    }
}
