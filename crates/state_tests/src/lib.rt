//! Tests of symbolic states.
#![tactic(auto)]

#[cfg(test)]
mod here;
#[cfg(test)]
mod rows;
