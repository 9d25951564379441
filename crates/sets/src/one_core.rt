// One core by an order of the rules.

// What was found so far: the set that is left, if the full set holds, and how many judgements were made.
#[derive(Clone, Copy)]
pub struct OneCore {
    pub core: Option<u16>,
    pub judgements: usize,
}
