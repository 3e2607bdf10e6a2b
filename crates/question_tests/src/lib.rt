//! Tests of questions that are answered one by one from the records of an exploration.
#![tactic(auto)]

#[cfg(test)]
mod asks;
#[cfg(test)]
mod jobs;
