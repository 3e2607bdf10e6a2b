//! Filter lists of five fields: the rules of a file, the node that a list stands for, and what its rules decide.
#![tactic(auto)]

mod acl;
mod content;
mod fault;
mod field;
mod node;
mod rules;

pub use acl::{Acl, read_acl};
pub use acl_rules::{Cover, Fate, JointCover, Rule, Side, Verdict};
pub use fault::AclFault;
pub use node::acl_node;
