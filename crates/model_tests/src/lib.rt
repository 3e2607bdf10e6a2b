//! Tests of the tables of switches and routers, where their nodes send addresses, of Click configurations, and of the checker of
//! covers of filter rules.
#![tactic(auto)]

#[cfg(test)]
mod click;
#[cfg(test)]
mod exits;
#[cfg(test)]
mod files;
#[cfg(test)]
mod filters;
#[cfg(test)]
mod nets;
#[cfg(test)]
mod tables;
