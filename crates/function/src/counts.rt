// What an evaluation answers: the outputs written, the steps taken, and the operands dropped on a full stack.
#[derive(Clone, Copy, Debug, PartialEq, Eq)]
pub struct Counts {
    pub outputs: usize,
    pub steps: usize,
    pub drops: usize,
}
