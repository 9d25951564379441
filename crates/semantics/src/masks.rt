// The masks of the pairs of states: for each pair the set of the rules whose step part it meets.
ghost use Rattle.std.specs.Prelude.{◌≡◌, ◌&&◌, ◌+◌, ◌*◌, ◌/◌, ◌%◌, ◌≤◌, ◌<◌, eqb, length, get_or, take, map};
ghost use Rattle.sets.specs.Bit.{has};
ghost use Rattle.sets.specs.Gathered.{set_of};
ghost use Rattle.sets.specs.Tabulated.{tabulate};
ghost use Rattle.semantics.specs.TablesOf.{rows_of};
ghost use Rattle.semantics.specs.Places.{mask_by, mask_row_by, word_at};

use crate::written_rules::WrittenRules;
use systems::tables::STATES;

// The words of the step parts of the rules; 0 behind them. An array and no ArrayVec, which is cleared and moved for each block: with it, and with the runs of
// a search moved as well, the smallest judgement took a fifth longer.
fn rule_words(rules: WrittenRules, s: usize, block: usize) -> [u64; 16]
    ensures { let x = rules.entry in take (length x.parts.now) result ≡ map (λ p. word_at x.text.now p.step s block) x.parts.now }
{
    let mut words = [0; 16];
    for (i, parts) in rules.parts.iter().enumerate() {
        words[i] = crate::values::word_of(rules.text, parts.step, s, block);
    }
    words
}

// The four lowest bits, 16 places apart: the product has the bits at 0, 15, 30 and 45, so that bit j of copy j stands at 16 * j.
#[tactic(auto, using(crate::proofs::Fours::spread_is))]
fn spread(bits: u64) -> u64
    requires { bits < 16 }
    ensures { result ≡ set_of 64 (λ n. eqb (n % 16) 0 && has bits (n / 16)) }
{
    bits * 0x2000_4000_8001 & 0x0001_0001_0001_0001
}

// The masks of the states t, t + 1, t + 2 and t + 3 side by side, 16 places each: bit t + j of word i goes to place 16 * j + i.
// Four at once, because collecting each mask bit by bit took most of the time of a call.
#[tactic(auto, using(crate::proofs::Fours::no_word, crate::proofs::Fours::with_word))]
fn four_masks(words: &[u64], t: usize) -> u64
    requires { (length words.now ≤ 16) × (t < 64) }
    ensures { result ≡ set_of 64 (λ n. has (get_or words.now (n % 16) 0) (t + n / 16)) }
{
    let mut four = 0;
    for (i, word) in words.iter().enumerate() {
        four |= spread((*word >> t) % 16) << i;
    }
    four
}

// The masks that stand side by side, one after the other.
#[tactic(auto, using(crate::proofs::Fours::one_by_one))]
fn apart(four: u64) -> [u16; 4]
    ensures { result ≡ tabulate 4 (λ j. set_of 16 (λ i. has four (16 * j + i))) }
{
    [
        (four % 65536) as u16,
        ((four >> 16) % 65536) as u16,
        ((four >> 32) % 65536) as u16,
        ((four >> 48) % 65536) as u16,
    ]
}

// As many of the masks that stand side by side as the part has entries, one by one: to copy so few whose count is not fixed is a call of memcpy.
#[tactic(auto, using(crate::proofs::Filling::none_filled, crate::proofs::Filling::all_filled))]
fn fill_left(four: u64, part: &mut [u16])
    requires { length part.old ≤ 4 }
    ensures { part.new ≡ tabulate (length part.old) (λ j. set_of 16 (λ i. has four (16 * j + i))) }
{
    for (j, mask) in part.iter_mut().enumerate() {
        *mask = ((four >> (16 * j)) % 65536) as u16;
    }
}

// The masks of the pairs of s with the states from 64 * block on, as many as the part has entries: four at once, and the last two of a model of one letter.
fn fill_block(rules: WrittenRules, s: usize, block: usize, part: &mut [u16])
    requires { length part.old ≤ 64 }
    ensures { let x = rules.entry in part.new ≡ tabulate (length part.old) (λ t. mask_by x.text.now x.parts.now s (64 * block + t)) }
{
    let words = rule_words(rules, s, block);
    let words = &words[..rules.parts.len()];
    let fours = part.len() / 4;
    // No `chunks_mut`, for the reason in `fill_masks`.
    for k in 0..fours {
        let t = 4 * k;
        part[t..t + 4].copy_from_slice(&apart(four_masks(words, t)));
    }
    let t = 4 * fours;
    let left = part.len() - t;
    if left > 0 {
        fill_left(four_masks(words, t), &mut part[t..]);
    }
}

// The masks of the pairs of s with the states from 0 on, as many as the row has entries.
fn fill_row(rules: WrittenRules, s: usize, row: &mut [u16])
    requires { length row.old ≤ 128 }
    ensures { let x = rules.entry in row.new ≡ tabulate (length row.old) (mask_by x.text.now x.parts.now s) }
{
    if row.len() <= 64 {
        fill_block(rules, s, 0, row);
    } else {
        fill_block(rules, s, 0, &mut row[..64]);
        fill_block(rules, s, 1, &mut row[64..]);
    }
}

// The masks of all pairs of states, that of (s, t) at 128 * s + t, and behind their rows one with the start masks, so that a judgement is lent both as one
// slice. The caller lends the room for them, which may be shorter for small models: an array by value would be copied, and every entry cleared first.
pub(crate) fn fill_masks(rules: WrittenRules, states: usize, masks: &mut [u16])
    requires few { states ≤ 128 }
    requires room { 128 * (states + 1) ≤ length masks.old }
    ensures { let x = rules.entry in masks.new ≡ rows_of masks.old (states + 1) states (mask_row_by x.text.now x.parts.now states) }
{
    // No `chunks_mut`: that was tried, and of what a slice ends as whose chunks were lent nothing is known.
    for s in 0..states {
        let from = STATES * s;
        fill_row(rules, s, &mut masks[from..from + states]);
    }
    let from = STATES * states;
    crate::starts::fill_starts(rules, &mut masks[from..from + states]);
}
