// The verdict alone, with no trace, by a search in any order. What is known of a state is its mark, a number of three bits. No row is walked twice, and the
// marks are lent from walk to walk.
ghost use Rattle.std.specs.Prelude.{◌<◌, ◌≤◌, ◌≡◌, length, MatchOption};
ghost use Rattle.systems.specs.BySystems.{judge_among};
ghost use Rattle.verdicts.specs.Marks.{FirstMarks, RowMarked, RowWalked, any_with, IsNextOpen, IsOpen, NoneOpen};

use sets::ruleset::RuleSet;
use systems::systems::{Systems, meets};
use systems::tables::STATES;

// The bits of a mark: the state is reached, its row has been walked, it is bad. A number, so that the compiler can take several states at a time: what a
// struct with a bool for each state and a count costs, 2.1 to 3.5 times as much at 8 states, stands in docs/DECISIONS.md.
const REACHED: u16 = 1;

const WALKED: u16 = 2;

const BAD: u16 = 4;

// The start states of the set are reached, and no row has been walked. No branch, so that the compiler can take several states at a time. By enumerate and
// not by a zip of `iter_mut`, here and in `mark_row`: of what is written through such a zip the proof knows nothing.
fn first_marks(systems: Systems, set: RuleSet, marks: &mut [u16])
    requires { length marks.old ≡ systems.tables.now.states }
    ensures { FirstMarks systems.entry set.0 marks.new }
{
    let tables = systems.tables;
    for (s, mask) in systems.start_row().iter().enumerate() {
        let starts = tables.init[s] & meets(*mask, set);
        marks[s] = REACHED * starts as u16 | BAD * tables.bad[s] as u16;
    }
}

// Whether some state has these bits in its mark. Each is looked at, with no branch, so that the compiler can take several at a time.
fn any_with(marks: &[u16], bits: u16) -> bool
    ensures { result ≡ any_with bits marks.now }
{
    marks
        .iter()
        .fold(false, |found, mark| found | ((*mark & bits) == bits))
}

// The first state from s on that is reached and whose row has not been walked.
fn next_open(marks: &[u16], s: usize) -> Option<usize>
    requires { s ≤ length marks.now }
    ensures { MatchOption result (NoneOpen marks.now s) (IsNextOpen marks.now s) }
{
    let passed = marks[s..]
        .iter()
        .position(|mark| (*mark & (REACHED | WALKED)) == REACHED)?;
    Some(s + passed)
}

// The next such state, round the end.
fn next_round(marks: &[u16], s: usize) -> Option<usize>
    requires { s ≤ length marks.now }
    ensures { MatchOption result (NoneOpen marks.now 0) (IsOpen marks.now) }
{
    next_open(marks, s).or_else(|| next_open(marks, 0))
}

// The states are reached to which a row has a step of the set. No branch, so that the compiler can take several states at a time.
fn mark_row(row: &[u16], set: RuleSet, marks: &mut [u16])
    requires { length row.now ≡ length marks.old }
    ensures { RowMarked row.now set.0 marks.old marks.new }
{
    for (t, mask) in row.iter().enumerate() {
        marks[t] |= REACHED * meets(*mask, set) as u16;
    }
}

// The row of state s is walked.
fn walk_row(systems: Systems, set: RuleSet, s: usize, marks: &mut [u16])
    requires state { s < systems.tables.now.states }
    requires marked { length marks.old ≡ systems.tables.now.states }
    ensures { RowWalked systems.entry set.0 s marks.old marks.new }
{
    marks[s] |= WALKED;
    mark_row(systems.row(s), set, marks);
}

// Whether a set holds. Each reached state's row is walked once, until a bad state is reached or no row is left. Where no state is bad none is walked, so that
// the walk ends in any case once every state is reached, and no row has to be asked whether that is so. That there are at most 128 states is said by min to the
// compiler, which looks at several marks ahead only where it knows that they can be read.
pub fn is_held(systems: Systems, set: RuleSet) -> bool
    ensures { result ≡ judge_among systems.entry set.0 }
{
    let mut room = [0u16; STATES];
    let marks = &mut room[..systems.tables.states.min(STATES)];
    first_marks(systems, set, marks);
    if !any_with(marks, BAD) {
        return true;
    }
    let mut next = next_round(marks, 0);
    while let Some(s) = next {
        if any_with(marks, REACHED | BAD) {
            return false;
        }
        walk_row(systems, set, s, marks);
        next = next_round(marks, s);
    }
    true
}
