//! Where on a path a question looks.

ghost use Rattle.std.specs.Prelude.{◌≡◌};
ghost use Rattle.path_questions.specs.Asked.{look_of, question_seen};

use crate::question::Question;
use sefl_meaning::Place;

/// Where on a path a question looks.
#[derive(Clone, Copy)]
pub enum Look {
    /// On each arrival at the port, before the port's code.
    OnArrivals { place: Place },
    /// At the end, where the path is delivered at the port.
    AtEnd { place: Place },
}

/// Where the question looks.
pub fn look_of(question: &Question<'_>) -> Look
    ensures { result ≡ look_of (question_seen question.now) }
{
    match question {
        Question::Reach { place, .. } => Look::OnArrivals { place: *place },
        Question::Invariant { place, .. } => Look::AtEnd { place: *place },
        Question::Visible { place, .. } => Look::OnArrivals { place: *place },
    }
}
