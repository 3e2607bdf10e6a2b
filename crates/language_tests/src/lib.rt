//! Tests of the language and of acceptance.
#![tactic(auto)]

#[cfg(test)]
mod acceptance;
#[cfg(test)]
mod building;
#[cfg(test)]
mod grammar;
#[cfg(test)]
mod jobs;
#[cfg(test)]
mod names;
#[cfg(test)]
mod patterns;
#[cfg(test)]
mod ranges;
#[cfg(test)]
mod reading;
#[cfg(test)]
mod rules;
#[cfg(test)]
mod syntax;
#[cfg(test)]
mod tables;
