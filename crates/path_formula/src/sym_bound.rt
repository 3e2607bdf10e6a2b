//! Bounds.

use sn_width::SymId;

/// The value of `plus` less that of `minus` is at most `at_most`. None is the number zero.
#[derive(Clone, Copy, PartialEq, Eq)]
pub struct SymBound {
    pub plus: Option<SymId>,
    pub minus: Option<SymId>,
    pub at_most: i128,
}
