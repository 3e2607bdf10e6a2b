//! Patterns by the crate `regex`, which nothing but the program has to load.
#![tactic(auto)]

mod patterns;

pub use patterns::RegexPatterns;
