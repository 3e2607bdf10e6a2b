//! A walk through the cases of choices.

ghost use Rattle.std.specs.Prelude.{◌≡◌, ℕ, ◌<◌, ◌≤◌, ◌-◌, ◌^◌, [], ◌∷◌, ◌++◌, List, is_some, false, take, length, reverse, IfOk, OnOk, MatchOption};
ghost use Rattle.std.specs.Bool.{MatchBool, OnFalse};
ghost use Rattle.std.specs.List.{AllZip};
ghost use Rattle.difference_solver.specs.Cycle.{IsNegativeCycle};
ghost use Rattle.difference_solver.specs.Choices.{Case, lists_of, cases_at, AreInRange};
ghost use Rattle.difference_solver.specs.Branches.{case_of};
ghost use Rattle.difference_solver.specs.Floors.{bounds_of, AreFloors};
ghost use Rattle.difference_solver.specs.Lifting.{IsLowered};
ghost use Rattle.difference_solver.specs.Outcomes.{outcome_of};
ghost use Rattle.difference_solver.specs.Progress.{AreFirst, IsPast, IsLeft, IsFound, IsWalkAt, IsWalkPast};
ghost use Rattle.difference_solver.specs.Words.{is_behind};
ghost use Rattle.difference_solver.specs.declared.choice.Step.TheVariants.{Split as SplitStep, Cycle as CycleStep};

use crate::choice::{Choice, Outcome, Step};
use crate::floors::{Floor, choice_of, first_behind, with_floors};
use crate::laws::cycle_refutes;
use crate::lift::{all_avoid, lower};
use crate::met::first_broken;
use crate::order::is_before;
use crate::{Bound, DiffVerdict, solve};
use sn_width::NoMemory;
use std::alloc::{AllocError, Global};
use std::mem;

/// A choice that is split, and the case of it that is taken.
#[derive(Drop)]
pub struct Branch {
    pub choice: usize,
    pub case: usize,
    /// How many bounds are gathered before those of the case.
    pub start: usize,
    /// The split, and behind it the refutations of the cases before this one, where no integers are found yet.
    pub steps: Vec<Step>,
}

/// A place in a search.
#[derive(Drop)]
pub struct Walk {
    /// The bounds of the cases that are taken.
    pub gathered: Vec<Bound>,
    /// The splits on the way, the last one last.
    pub branches: Vec<Branch>,
    /// The first integers in the order of words that are found.
    pub best: Option<Vec<i128>>,
    /// The refutation of the bounds that are gathered, where these are done with and no integers are found yet.
    pub steps: Vec<Step>,
}

/// Whether integers were found before, and these do not come before them.
fn is_behind(best: &Option<Vec<i128>>, values: &[i128]) -> bool
    ensures { result ≡ is_behind best.now values.now }
{
    match best {
        None => false,
        Some(best) => !is_before(values, best.as_slice()),
    }
}

/// The step that splits a choice.
fn split_steps(alloc: Global, choice: u32) -> Result<Vec<Step>, AllocError>
    ensures { IfOk result (λ steps. steps.items ≡ SplitStep choice ∷ []) }
{
    let split = Step::Split { choice };
    Ok(vec![in alloc; split]?)
}

/// The step of bounds around a cycle.
fn cycle_steps(alloc: Global, bounds: Vec<u32>) -> Result<Vec<Step>, AllocError>
    ensures { IfOk result (λ steps. steps.items ≡ CycleStep bounds ∷ []) }
{
    let cycle = Step::Cycle { bounds };
    Ok(vec![in alloc; cycle]?)
}

impl Walk {
    /// A walk that has not begun.
    pub(crate) fn new(alloc: Global) -> Walk
        ensures { (count : ℕ) (choices : List (List Case)) → count ≤ 64 → IsWalkAt count choices result }
    {
        Walk {
            gathered: Vec::new(alloc),
            branches: Vec::new(alloc),
            best: None,
            steps: Vec::new(alloc),
        }
    }

    /// Takes the case of a branch, behind the bounds that are gathered before it.
    fn enter(&mut self, choices: &[Choice], branch: Branch) -> Result<(), AllocError>
        requires choice { branch.choice < length choices.now }
        requires case { branch.case < length (cases_at (lists_of choices.now) branch.choice) }
        ensures gathered { OnOk result (self.new.gathered.items
            ≡ take branch.start self.old.gathered.items ++ case_of (lists_of choices.now) branch) }
        ensures branches { OnOk result (self.new.branches.items ≡ self.old.branches.items ++ branch ∷ []) }
        ensures best { self.new.best ≡ self.old.best }
    {
        self.gathered.truncate(branch.start);
        let case = &choices[branch.choice].cases[branch.case];
        self.gathered.extend_from_slice(case.as_slice())?;
        self.branches.push(branch)?;
        Ok(())
    }

    /// Splits a choice, and takes its first case.
    fn take_first(
        &mut self,
        alloc: Global,
        choices: &[Choice],
        count: u32,
        choice: usize,
    ) -> Result<(), AllocError>
        requires few { length choices.now ≤ 2 ^ 32 }
        requires in_range { AreInRange count (lists_of choices.now) }
        requires choice { choice < length choices.now }
        requires some { 0 < length (cases_at (lists_of choices.now) choice) }
        requires at { IsWalkAt count (lists_of choices.now) self.old }
        ensures { OnOk result (IsWalkAt count (lists_of choices.now) self.new) }
    {
        let start = self.gathered.len();
        let steps = split_steps(alloc, choice as u32)?;
        let branch = Branch {
            choice,
            case: 0,
            start,
            steps,
        };
        self.enter(choices, branch)?;
        Ok(())
    }

    /// Takes the case of each choice that has one alone.
    pub(crate) fn take_single_cases(
        &mut self,
        alloc: Global,
        choices: &[Choice],
        count: u32,
    ) -> Result<(), AllocError>
        requires few { length choices.now ≤ 2 ^ 32 }
        requires in_range { AreInRange count (lists_of choices.now) }
        requires at { IsWalkAt count (lists_of choices.now) self.old }
        ensures { OnOk result (IsWalkAt count (lists_of choices.now) self.new) }
    {
        for choice in 0..choices.len() {
            if choices[choice].cases.len() == 1 {
                self.take_first(alloc, choices, count, choice)?;
            }
        }
        Ok(())
    }

    /// Refutes the bounds by a choice without cases.
    fn refute_empty(
        &mut self,
        alloc: Global,
        choices: &[Choice],
        count: u32,
        choice: usize,
    ) -> Result<(), AllocError>
        requires few { length choices.now ≤ 2 ^ 32 }
        requires choice { choice < length choices.now }
        requires none { length (cases_at (lists_of choices.now) choice) ≡ 0 }
        requires at { IsWalkAt count (lists_of choices.now) self.old }
        ensures { OnOk result (IsWalkPast count (lists_of choices.now) self.new) }
    {
        let steps = split_steps(alloc, choice as u32)?;
        self.steps = steps;
        Ok(())
    }

    /// Splits a choice, and takes its first case. Answers false where it has none: then the bounds are refuted.
    fn split(
        &mut self,
        alloc: Global,
        choices: &[Choice],
        count: u32,
        choice: usize,
    ) -> Result<bool, AllocError>
        requires few { length choices.now ≤ 2 ^ 32 }
        requires in_range { AreInRange count (lists_of choices.now) }
        requires choice { choice < length choices.now }
        requires at { IsWalkAt count (lists_of choices.now) self.old }
        ensures { IfOk result (λ taken. MatchBool taken
            (IsWalkAt count (lists_of choices.now) self.new) (IsWalkPast count (lists_of choices.now) self.new)) }
    {
        if choices[choice].cases.len() == 0 {
            self.refute_empty(alloc, choices, count, choice)?;
            return Ok(false);
        }
        self.take_first(alloc, choices, count, choice)?;
        Ok(true)
    }

    /// Looks at the bounds that are gathered. Answers a choice that is to be split; none where they are done with.
    fn look(
        &mut self,
        alloc: Global,
        choices: &[Choice],
        floors: &[Floor],
        count: u32,
    ) -> Result<Option<usize>, NoMemory>
        requires floors { AreFloors count (lists_of choices.now) floors.now }
        requires at { IsWalkAt count (lists_of choices.now) self.old }
        ensures { IfOk result (λ next. MatchOption next (IsWalkPast count (lists_of choices.now) self.new)
            (λ choice. (choice < length choices.now) × IsWalkAt count (lists_of choices.now) self.new)) }
    {
        let gathered = self.gathered.as_slice();
        let bounds = with_floors(alloc, gathered, floors)?;
        if bounds.len() > u32::MAX as usize {
            return Err(NoMemory);
        }
        let all = bounds.as_slice();
        let verdict = solve(alloc, all, count)?;
        match verdict {
            DiffVerdict::Cycle { bounds } => {
                let next = self.refute(alloc, choices, floors, count, bounds)?;
                Ok(next)
            }
            DiffVerdict::Values { values } => Ok(self.weigh(choices, count, values)),
        }
    }

    /// Looks at a cycle of the bounds that are gathered and of floors. It refutes the bounds where no floor is one of it;
    /// else the choice of a floor is to be split.
    fn refute(
        &mut self,
        alloc: Global,
        choices: &[Choice],
        floors: &[Floor],
        count: u32,
        bounds: Vec<u32>,
    ) -> Result<Option<usize>, AllocError>
        requires floors { AreFloors count (lists_of choices.now) floors.now }
        requires at { IsWalkAt count (lists_of choices.now) self.old }
        requires cycle { IsNegativeCycle (self.old.gathered.items ++ bounds_of floors.now) bounds.items }
        ensures { IfOk result (λ next. MatchOption next (IsWalkPast count (lists_of choices.now) self.new)
            (λ choice. (choice < length choices.now) × IsWalkAt count (lists_of choices.now) self.new)) }
    {
        cycle_refutes();
        let _choices = choices.len();
        let start = self.gathered.len();
        match first_behind(bounds.as_slice(), start) {
            Some(index) => Ok(Some(choice_of(floors, index - start))),
            None => {
                let steps = cycle_steps(alloc, bounds)?;
                self.steps = steps;
                Ok(None)
            }
        }
    }

    /// Looks at integers that meet the bounds that are gathered, and come before all others where each unknown is bounded
    /// from below. They are the first so far where they meet a case of each choice; else a choice that they break is to be
    /// split, but where they do not come before those that are found.
    fn weigh(&mut self, choices: &[Choice], count: u32, values: Vec<i128>) -> Option<usize>
        requires at { IsWalkAt count (lists_of choices.now) self.old }
        requires values { AreFirst count (lists_of choices.now) self.old.gathered.items values.items }
        ensures { MatchOption result (IsWalkPast count (lists_of choices.now) self.new)
            (λ choice. (choice < length choices.now) × IsWalkAt count (lists_of choices.now) self.new) }
    {
        let integers = values.as_slice();
        if is_behind(&self.best, integers) {
            return None;
        }
        match first_broken(choices, integers) {
            Some(choice) => Some(choice),
            None => {
                self.best = Some(values);
                None
            }
        }
    }

    /// Takes the case behind that of a branch whose case is done with, or goes back to what it is split from. Answers
    /// whether there is such a case.
    fn next(&mut self, choices: &[Choice], count: u32, branch: Branch) -> Result<bool, AllocError>
        requires in_range { AreInRange count (lists_of choices.now) }
        requires left { IsLeft count (lists_of choices.now) self.old.gathered.items branch
            (reverse self.old.branches.items) self.old.best }
        ensures next { IfOk result (λ taken. MatchBool taken
            (IsWalkAt count (lists_of choices.now) self.new) (IsWalkPast count (lists_of choices.now) self.new)) }
        ensures back { IfOk result (λ taken. OnFalse taken (self.new.branches.items ≡ self.old.branches.items)) }
    {
        let choice = branch.choice;
        let cases = choices[choice].cases.len();
        let case = branch.case + 1;
        if case < cases {
            let next = Branch {
                choice,
                case,
                start: branch.start,
                steps: branch.steps,
            };
            self.enter(choices, next)?;
            return Ok(true);
        }
        self.gathered.truncate(branch.start);
        self.steps = branch.steps;
        Ok(false)
    }

    /// Takes away the bounds from `start` on, which no cycle of the steps uses.
    fn go_back(&mut self, alloc: Global, start: usize) -> Result<(), AllocError>
        requires { start ≤ length self.old.gathered.items }
        ensures gathered { OnOk result (self.new.gathered.items ≡ take start self.old.gathered.items) }
        ensures branches { self.new.branches.items ≡ self.old.branches.items }
        ensures best { self.new.best ≡ self.old.best }
        ensures steps { OnOk result (AllZip (IsLowered start (length self.old.gathered.items - start))
            self.old.steps.items self.new.steps.items) }
    {
        let width = self.gathered.len() - start;
        let steps = mem::replace(&mut self.steps, Vec::new(alloc));
        self.steps = lower(alloc, steps, start, width)?;
        self.gathered.truncate(start);
        Ok(())
    }

    /// Goes on behind a branch whose case is refuted, where no integers are found yet. Where no cycle uses the bounds of
    /// the case, what is split is refuted without the split, and its other cases need no look.
    fn leave_refuted(
        &mut self,
        alloc: Global,
        choices: &[Choice],
        count: u32,
        mut branch: Branch,
    ) -> Result<bool, AllocError>
        requires in_range { AreInRange count (lists_of choices.now) }
        requires none { is_some self.old.best ≡ false }
        requires past { IsPast count (lists_of choices.now) self.old.gathered.items
            (branch ∷ reverse self.old.branches.items) self.old.best self.old.steps.items }
        ensures next { IfOk result (λ taken. MatchBool taken
            (IsWalkAt count (lists_of choices.now) self.new) (IsWalkPast count (lists_of choices.now) self.new)) }
        ensures back { IfOk result (λ taken. OnFalse taken (self.new.branches.items ≡ self.old.branches.items)) }
    {
        cycle_refutes();
        if all_avoid(self.steps.as_slice(), branch.start, self.gathered.len()) {
            self.go_back(alloc, branch.start)?;
            return Ok(false);
        }
        branch.steps.append(&mut self.steps)?;
        self.next(choices, count, branch)
    }

    /// Goes on behind a branch whose case is done with. Answers whether another case of it is taken.
    fn leave(
        &mut self,
        alloc: Global,
        choices: &[Choice],
        count: u32,
        branch: Branch,
    ) -> Result<bool, AllocError>
        requires in_range { AreInRange count (lists_of choices.now) }
        requires past { IsPast count (lists_of choices.now) self.old.gathered.items
            (branch ∷ reverse self.old.branches.items) self.old.best self.old.steps.items }
        ensures next { IfOk result (λ taken. MatchBool taken
            (IsWalkAt count (lists_of choices.now) self.new) (IsWalkPast count (lists_of choices.now) self.new)) }
        ensures back { IfOk result (λ taken. OnFalse taken (self.new.branches.items ≡ self.old.branches.items)) }
    {
        if self.best.is_some() {
            return self.next(choices, count, branch);
        }
        self.leave_refuted(alloc, choices, count, branch)
    }

    /// Goes on behind bounds that are done with. Answers whether there are others that are left.
    fn advance(&mut self, alloc: Global, choices: &[Choice], count: u32) -> Result<bool, AllocError>
        requires in_range { AreInRange count (lists_of choices.now) }
        requires past { IsWalkPast count (lists_of choices.now) self.old }
        ensures { IfOk result (λ more. MatchBool more (IsWalkAt count (lists_of choices.now) self.new)
            (IsFound count (lists_of choices.now) self.new.best self.new.steps.items)) }
    {
        while let Some(branch) = self.branches.pop() {
            if self.leave(alloc, choices, count, branch)? {
                return Ok(true);
            }
        }
        Ok(false)
    }

    /// Looks at the bounds that are gathered, and splits a choice where one is to be split. Answers whether a case of it
    /// is taken, and false where the bounds are done with.
    fn visit(
        &mut self,
        alloc: Global,
        choices: &[Choice],
        floors: &[Floor],
        count: u32,
    ) -> Result<bool, NoMemory>
        requires few { length choices.now ≤ 2 ^ 32 }
        requires floors { AreFloors count (lists_of choices.now) floors.now }
        requires in_range { AreInRange count (lists_of choices.now) }
        requires at { IsWalkAt count (lists_of choices.now) self.old }
        ensures { IfOk result (λ taken. MatchBool taken
            (IsWalkAt count (lists_of choices.now) self.new) (IsWalkPast count (lists_of choices.now) self.new)) }
    {
        match self.look(alloc, choices, floors, count)? {
            None => Ok(false),
            Some(choice) => {
                let taken = self.split(alloc, choices, count, choice)?;
                Ok(taken)
            }
        }
    }

    /// Looks at the bounds that are gathered, and goes on. Answers whether others are left.
    pub(crate) fn turn(
        &mut self,
        alloc: Global,
        choices: &[Choice],
        floors: &[Floor],
        count: u32,
    ) -> Result<bool, NoMemory>
        requires few { length choices.now ≤ 2 ^ 32 }
        requires floors { AreFloors count (lists_of choices.now) floors.now }
        requires in_range { AreInRange count (lists_of choices.now) }
        requires at { IsWalkAt count (lists_of choices.now) self.old }
        ensures { IfOk result (λ more. MatchBool more (IsWalkAt count (lists_of choices.now) self.new)
            (IsFound count (lists_of choices.now) self.new.best self.new.steps.items)) }
    {
        if self.visit(alloc, choices, floors, count)? {
            return Ok(true);
        }
        let more = self.advance(alloc, choices, count)?;
        Ok(more)
    }

    /// What was found, where nothing is left.
    pub(crate) fn outcome(self) -> Outcome
        ensures { result ≡ outcome_of self.best self.steps }
    {
        let Walk { best, steps, .. } = self;
        match best {
            None => Outcome::Refuted { steps },
            Some(values) => Outcome::Least { values },
        }
    }
}
