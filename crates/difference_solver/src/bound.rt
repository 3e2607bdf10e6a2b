/// The unknown `plus` less the unknown `minus` is at most `at_most`. Unknown 0 is the number zero.
#[derive(Clone, Copy, PartialEq, Eq)]
pub struct Bound {
    pub plus: u32,
    pub minus: u32,
    pub at_most: i128,
}

/// What `solve` answers: one integer for each unknown, in the order of the unknowns, or a cycle
/// of bounds, by their indices, that no integers meet together.
#[derive(Drop)]
pub enum DiffVerdict {
    Values { values: Vec<i128> },
    Cycle { bounds: Vec<u32> },
}
