// The verdict on a judged set.

// It holds, or it is broken and its trace has so many states. No Option of a length: `None` for a set that holds would be no plainer than its name.
#[derive(Clone, Copy, Debug, PartialEq, Eq)]
pub enum Verdict {
    Holds,
    Broken(usize),
}
