//! The grammar of job texts, and where tokens leave it: a relation between words and jobs, decided by an
//! automaton with a stack of one byte a symbol.
#![tactic(auto)]

mod behind;
mod depth;
mod examination;
pub mod laws;
mod same;
mod stack;
mod symbol;
mod table;
mod value;

pub use examination::{Finding, examine};
pub use same::is_same;
pub use symbol::Symbol;
pub use value::value_at;
