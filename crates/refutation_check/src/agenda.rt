//! The alternatives that a refutation still has to refute.

ghost use Rattle.std.specs.Prelude.{◌≡◌, ◌≤◌, ◌∷◌, ◌++◌, [], List, true, length, map, reverse, take, ◌↔◌, IsTrue, IfOk, OnOk, MatchBool};
ghost use Rattle.path_formula.specs.Bounds.{Case};
ghost use Rattle.refutation_check.specs.Accepted.{Advances};
ghost use Rattle.refutation_check.specs.Agenda.{pending, IsNested, alternative_with};

use crate::leaves::cases_left;
use crate::steps::Refute;
use path_cond::PathCond;
use path_formula::SymBound;
use sn_width::NoMemory;
use std::alloc::Global;

/// An alternative: the first `kept` of the gathered bounds, and then these.
#[derive(Drop)]
pub(crate) struct Alternative {
    kept: usize,
    case: Vec<SymBound>,
}

/// The bounds gathered for the alternative that is being refuted, and those still to come, the next one last.
#[derive(Drop)]
pub(crate) struct Agenda {
    gathered: Vec<SymBound>,
    alternatives: Vec<Alternative>,
}

impl Agenda {
    /// One alternative, without bounds.
    pub(crate) fn new(alloc: Global) -> Result<Agenda, NoMemory>
        ensures pending { IfOk result (λ agenda. pending agenda ≡ [] ∷ []) }
        ensures nested { IfOk result IsNested }
    {
        let mut alternatives = Vec::new(alloc);
        alternatives.push(Alternative {
            kept: 0,
            case: Vec::new(alloc),
        })?;
        Ok(Agenda {
            gathered: Vec::new(alloc),
            alternatives,
        })
    }

    /// Whether no alternative is left.
    pub(crate) fn is_done(&self) -> bool
        ensures { IsTrue result ↔ (pending self.now ≡ []) }
    {
        self.alternatives.is_empty()
    }

    /// Gathers the bounds of the alternative.
    fn begin(&mut self, alternative: &Alternative) -> Result<(), NoMemory>
        ensures gathered { OnOk result (self.new.gathered.items
            ≡ take alternative.now.kept self.old.gathered.items ++ alternative.now.case.items) }
        ensures others { self.new.alternatives ≡ self.old.alternatives }
    {
        self.gathered.truncate(alternative.kept);
        self.gathered.extend_from_slice(&alternative.case)?;
        Ok(())
    }

    /// Adds an alternative for each case, the first case the next one.
    fn push_cases(&mut self, mut cases: Vec<Vec<SymBound>>) -> Result<(), NoMemory>
        ensures alternatives { OnOk result (reverse self.new.alternatives.items
            ≡ map (alternative_with (length self.old.gathered.items)) cases.items
            ++ reverse self.old.alternatives.items) }
        ensures gathered { self.new.gathered ≡ self.old.gathered }
    {
        let kept = self.gathered.len();
        while let Some(case) = cases.pop() {
            self.alternatives.push(Alternative { kept, case })?;
        }
        Ok(())
    }

    /// Refutes the next alternative by the step, or divides it into others; false where the step is not
    /// right there, or more alternatives than `left` would be open behind it.
    pub(crate) fn advance(
        &mut self,
        alloc: Global,
        cond: &PathCond,
        step: &Refute,
        left: usize,
    ) -> Result<bool, NoMemory>
        requires { IsNested self.old }
        ensures advances { IfOk result (λ yes. MatchBool yes
            (Advances cond.now (pending self.old) step.now (pending self.new))
            ((after : List Case) → Advances cond.now (pending self.old) step.now after → length after ≤ left → ⊥)) }
        ensures nested { IfOk result (λ yes. yes ≡ true → IsNested self.new) }
    {
        let Some(alternative) = self.alternatives.pop() else {
            return Ok(false);
        };
        if self.alternatives.len() > left {
            return Ok(false);
        }
        let room = left - self.alternatives.len();
        self.begin(&alternative)?;
        match cases_left(alloc, cond, &self.gathered, step, room)? {
            None => Ok(false),
            Some(cases) => {
                self.push_cases(cases)?;
                Ok(true)
            }
        }
    }
}
