// How a search holds the runs that it has found.

// A run by the state that it ends in. The states before it are the run at the place `parent` of those found so far, or none: a place and no reference,
// since the runs lie in one list that grows, and the library has no heap.
#[derive(Clone, Copy, Default, Drop)]
pub struct Run {
    pub last: u8,
    pub parent: Option<u8>,
}
