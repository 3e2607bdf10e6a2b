//! Questions about all walks of the packets of a job, and their answers from the records of an exploration.
#![tactic(auto)]

mod answer;
mod asking;
mod keeping;
mod saying;
mod seen;
mod single;
mod states;

pub use answer::{Answer, Hit, answers_of};
pub use asking::{Asking, Mark};
pub use path_questions::{
    AskFault, BadAsk, InjectedField, Kept, Question, Subject, nothing_kept, placed, question_of,
    questions_of,
};
pub use single::ask;
