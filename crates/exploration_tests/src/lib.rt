//! Tests of explorations.
#![tactic(auto)]

#[cfg(test)]
mod jobs;
#[cfg(test)]
mod packets;
#[cfg(test)]
mod rows;
#[cfg(test)]
mod runs;
#[cfg(test)]
mod stops;
#[cfg(test)]
mod tables;
