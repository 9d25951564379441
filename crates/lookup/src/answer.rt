// What two lists say of a set of rules. A place is that of the first of a set's two bytes.
#[derive(Clone, Copy, Debug, PartialEq, Eq)]
pub enum Suffices {
    // The first listed core that is a part of the set stands at this place of the core list.
    CoreInside(usize),
    // No listed core is a part of the set, and the first listed cut that has no rule in it stands at this place of the cut list.
    CutApart(usize),
    Unlisted,
}
