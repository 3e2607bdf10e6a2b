//! Tests of what a packet carries, of its walks and of their text.
#![tactic(auto)]

#[cfg(test)]
mod cells;
#[cfg(test)]
mod jobs;
#[cfg(test)]
mod layers;
#[cfg(test)]
mod runs;
#[cfg(test)]
mod same;
#[cfg(test)]
mod scopes;
#[cfg(test)]
mod stacks;
#[cfg(test)]
mod steps;
#[cfg(test)]
mod texts;
