//! Ids of nodes, names, tags and symbols, and places in the text of a job.

/// A node of a net, by its place in the job's text, from 0.
#[derive(Clone, Copy, PartialEq, Eq, PartialOrd, Ord)]
pub struct NodeId(pub u32);

/// A metadata name of a net, by its place among all of them, ascending by bytes, from 0.
#[derive(Clone, Copy, PartialEq, Eq, PartialOrd, Ord)]
pub struct NameId(pub u32);

/// A tag name of a net, by its place among all of them, ascending by bytes, from 0.
#[derive(Clone, Copy, PartialEq, Eq, PartialOrd, Ord)]
pub struct TagId(pub u32);

/// A symbol of a path condition: an unknown field or an unknown choice, from 0.
#[derive(Clone, Copy, PartialEq, Eq, PartialOrd, Ord)]
pub struct SymId(pub u64);

/// An item of a job's text: its number in the order in which items begin, from 0.
#[derive(Clone, Copy, PartialEq, Eq)]
pub struct Site(pub u32);
