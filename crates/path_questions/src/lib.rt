//! What questions say of packets and their walks, what records tell of them, and that over exact records both agree; and one question: which words of a
//! job ask it, where on a path it looks, what states of a path say of it, and what is known of it.
#![tactic(auto)]

mod below;
mod formula;
mod judging;
mod kept;
pub mod laws;
mod looking;
mod placing;
mod question;
mod reading;
mod subject;

pub use judging::{Judged, judge_states};
pub use kept::{Kept, are_found, nothing_kept};
pub use looking::{Look, look_of};
pub use placing::{AskFault, BadAsk, placed, question_of, questions_of};
pub use question::{InjectedField, Question};
pub use subject::Subject;
