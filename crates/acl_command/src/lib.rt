//! The commands `model acl` and `rules`: the node of a filter list, what each of its rules decides, and whether two lists permit the
//! same packets.
#![tactic(auto)]

mod both_lists;
mod fates;
mod list;
mod model;
mod rules;
mod text;
mod verdict;

pub use both_lists::{BothBytes, BothFiles, BothRules};
pub use model::{AclModel, ListStyle};
pub use rules::Rules;
pub use text::rules_text;
pub use verdict::verdict_text;
