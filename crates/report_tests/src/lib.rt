//! Tests of reports as texts.
#![tactic(auto)]

#[cfg(test)]
mod jobs;
#[cfg(test)]
mod reports;
#[cfg(test)]
mod texts;
