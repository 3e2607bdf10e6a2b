//! Tests of conditions and decisions.
#![tactic(auto)]

#[cfg(test)]
mod build;
#[cfg(test)]
mod conditions;
#[cfg(test)]
mod counts;
#[cfg(test)]
mod decisions;
#[cfg(test)]
mod intervals;
#[cfg(test)]
mod members;
#[cfg(test)]
mod plain;
#[cfg(test)]
mod refutations;
