//! Jobs that keep the rules, and jobs that break them.

mod asked;
mod limits;
mod rules;
mod sites;
