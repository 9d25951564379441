// What a search is given beside the masks, which stand in a lent slice: a row for each state with the masks of its pairs, and behind them a row with the
// set of the rules whose start part each state meets.

// The states of the largest model, and the entries of a row of the masks.
pub const STATES: usize = 128;

// How many rules and states there are, which states meet `init` and which are bad. There is room for the states of any model, since nothing is allocated;
// and the marks are two arrays and no array of pairs, since a system's definition asks for each of them as a list of its own. `states` is the count of the
// masks' rows as well, so it stands once and not in an ArrayVec of each array.
#[derive(Clone, Copy)]
pub struct Tables {
    pub rules: usize,
    pub states: usize,
    pub init: [bool; STATES],
    pub bad: [bool; STATES],
}
