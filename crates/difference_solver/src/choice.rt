//! What is searched, and what is found.

use crate::Bound;

/// Cases such that one is to hold: each is a list of bounds that are to be met together.
#[derive(Drop)]
pub struct Choice {
    pub cases: Vec<Vec<Bound>>,
}

/// A step of a refutation. Bounds are gathered on the way from the root, none at first.
#[derive(Drop)]
pub enum Step {
    /// A branch for each case of the choice with this index, in order, with its bounds gathered behind those before.
    Split { choice: u32 },
    /// No integers meet the gathered bounds with these indices, which are around a cycle.
    Cycle { bounds: Vec<u32> },
}

/// What a search finds.
#[derive(Drop)]
pub enum Outcome {
    /// One integer for each unknown in order: the first in the order of words that meet one case of each choice.
    Least { values: Vec<i128> },
    /// No integers meet one case of each choice: a tree of steps, each before its branches.
    Refuted { steps: Vec<Step> },
}
