//! Tests of what stands on std alone, or nearly so: files, patterns and output, the real ones and those in memory; persistent trees; tokens, and the numbers
//! of packet files.
#![tactic(auto)]

#[cfg(test)]
mod disk;
#[cfg(test)]
mod lexing;
#[cfg(test)]
mod outside;
#[cfg(test)]
mod packets;
#[cfg(test)]
mod trees;
