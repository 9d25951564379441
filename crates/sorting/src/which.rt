// Which of the two lists is meant.

#[derive(Clone, Copy, Debug, PartialEq, Eq)]
pub enum WhichList {
    Cores,
    Cuts,
}
