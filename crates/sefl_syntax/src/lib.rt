//! The syntax of jobs: their values, and the texts that these have.
#![tactic(auto)]

mod code;
mod cond;
mod expr;
mod instr;
mod job;
mod job_text;
mod name;
mod net;
mod net_text;
mod range_list;
mod reference;
mod sets;
mod statement;
mod text;

pub use cond::{Cond, Joint};
pub use expr::{Expr, Sign};
pub use instr::Instr;
pub use job::{Ask, Job, RawField, RawInjection, RawPlace, fill, is_filled};
pub use job_text::print_job;
pub use name::Name;
pub use net::{Body, Link, NodeDecl, PortCode, RawNet, RawNode, Side, Style, TableKind};
pub use net_text::{print_net, print_node};
pub use range_list::RangeList;
pub use reference::{Addr, Scope, Target};
pub use text::Text;
