//! Marks of formulas, by which the same formula is found in other paths. What they say is a guess: whoever goes by them looks whether
//! the formulas are the same, so no contract speaks of them.

use crate::delivery::Delivery;
use path_formula::Formula;
use same_formulas::same_formula;
use sefl_meaning::Decision;
use sn_width::NoMemory;
use std::alloc::Global;

/// How far from where it is expected a formula is looked for, on both sides: as many as a filter list may have rules.
const REACH: usize = 1024;

/// How far from its place in a path the last formula of that path is looked for in another one, on both sides.
const NEAR: usize = 4;

/// Formulas under their marks, and the next mark that none of them has.
#[derive(Drop)]
pub(crate) struct Known<'k> {
    pub(crate) formulas: Vec<&'k Formula>,
    pub(crate) next: u32,
}

impl<'k> Known<'k> {
    /// No formulas.
    pub(crate) fn nothing(alloc: Global) -> Known<'k> {
        Known {
            formulas: Vec::new(alloc),
            next: 0,
        }
    }

    /// The formulas of these paths, whose marks count up as they are met.
    pub(crate) fn of(alloc: Global, paths: &[Delivery<'k>]) -> Result<Known<'k>, NoMemory> {
        let mut formulas = Vec::new(alloc);
        for path in paths {
            add_new(&mut formulas, &path.formulas, &path.marks)?;
        }
        let next = match u32::try_from(formulas.len()) {
            Ok(count) => count,
            Err(_) => return Err(NoMemory),
        };
        Ok(Known { formulas, next })
    }

    /// The mark of a formula that is expected to have this one: of the same formula, or a new one.
    fn mark(&mut self, expected: u32, formula: &Formula) -> u32 {
        if let Some(mark) = self.find(expected as usize, formula) {
            return mark;
        }
        let mark = self.next;
        self.next = mark.saturating_add(1);
        mark
    }

    /// The mark of the same formula, from where it is expected on, to both sides.
    fn find(&self, expected: usize, formula: &Formula) -> Option<u32> {
        if self.formulas.is_empty() {
            return None;
        }
        for step in 0..REACH {
            let above = expected.saturating_add(step);
            if self.is_at(above, formula) {
                return u32::try_from(above).ok();
            }
            let below = expected.saturating_sub(step);
            if self.is_at(below, formula) {
                return u32::try_from(below).ok();
            }
        }
        None
    }

    fn is_at(&self, mark: usize, formula: &Formula) -> bool {
        match self.formulas.get(mark) {
            None => false,
            Some(known) => same_formula(known, formula),
        }
    }
}

/// Adds the formulas whose marks are the next ones.
fn add_new<'k>(
    known: &mut Vec<&'k Formula>,
    formulas: &[(&'k Formula, bool)],
    marks: &[u32],
) -> Result<(), NoMemory> {
    for (at, mark) in marks.iter().enumerate() {
        if *mark as usize == known.len() {
            if let Some((formula, _holds)) = formulas.get(at) {
                known.push(*formula)?;
            }
        }
    }
    Ok(())
}

/// Whether the decision adds a formula.
fn is_test(decision: Decision) -> bool {
    match decision {
        Decision::Copy(_) => false,
        _ => true,
    }
}

fn count_tests(decisions: &[Decision]) -> usize {
    let mut count: usize = 0;
    for decision in decisions {
        if is_test(*decision) {
            count = count.saturating_add(1);
        }
    }
    count
}

/// How many of the first decisions of both add one formula to both: those that are the same, and the first where they part.
fn common_tests(decisions: &[Decision], others: &[Decision]) -> usize {
    let mut count: usize = 0;
    for at in 0..decisions.len().min(others.len()) {
        if is_test(decisions[at]) {
            count = count.saturating_add(1);
        }
        if decisions[at] != others[at] {
            return count;
        }
    }
    count
}

/// How many formulas a path of these decisions has in common with the one before it: those of the injection, which come before all
/// decisions, and those of the decisions that both begin with, also where the last one was tested with the other truth.
fn shared(previous: &Delivery<'_>, decisions: &[Decision], count: usize) -> usize {
    let first = count.saturating_sub(count_tests(decisions));
    first.saturating_add(common_tests(decisions, previous.decisions))
}

/// Marks for the formulas of a path, where this is the path before it: the formulas that both have in common have one mark.
pub(crate) fn marks_of(
    alloc: Global,
    previous: Option<&Delivery<'_>>,
    decisions: &[Decision],
    formulas: &[(&Formula, bool)],
    known: &mut Known<'_>,
) -> Result<Vec<u32>, NoMemory> {
    let mut marks = match previous {
        None => Vec::new(alloc),
        Some(path) => first_marks(alloc, path, decisions, formulas.len())?,
    };
    for at in marks.len()..formulas.len() {
        let expected = match marks.last() {
            None => 0,
            Some(mark) => mark.saturating_add(1),
        };
        let mark = known.mark(expected, formulas[at].0);
        marks.push(mark)?;
    }
    Ok(marks)
}

/// The marks of the formulas that a path of these decisions has in common with the one before it.
fn first_marks(
    alloc: Global,
    previous: &Delivery<'_>,
    decisions: &[Decision],
    count: usize,
) -> Result<Vec<u32>, NoMemory> {
    let same = shared(previous, decisions, count);
    let mut marks = Vec::with_capacity(alloc, count)?;
    for mark in &previous.marks {
        if marks.len() < same {
            marks.push(*mark)?;
        }
    }
    Ok(marks)
}

/// Where the formulas of a path stand, by their marks.
#[derive(Drop)]
pub(crate) struct Places {
    /// For each mark one more than the place; 0 where the path has no such formula.
    after: Vec<usize>,
}

impl Places {
    /// The places of these marks.
    pub(crate) fn of(alloc: Global, marks: &[u32]) -> Result<Places, NoMemory> {
        let mut after = Vec::new(alloc);
        for (place, mark) in marks.iter().enumerate() {
            let mark = *mark as usize;
            for _ in after.len()..mark.saturating_add(1) {
                after.push(0)?;
            }
            if let Some(entry) = after.get_mut(mark) {
                *entry = place.saturating_add(1);
            }
        }
        Ok(Places { after })
    }

    /// The place of the formula with a mark.
    pub(crate) fn get(&self, mark: u32) -> Option<usize> {
        match self.after.get(mark as usize) {
            None => None,
            Some(place) => place.checked_sub(1),
        }
    }

    /// Places in a path, which these are of, and in another one, where both probably have one formula with the one truth and the
    /// other.
    pub(crate) fn tear(&self, path: &Delivery<'_>, other: &Delivery<'_>) -> Option<(usize, usize)> {
        if let Some(found) = last_in(path, other) {
            return Some(found);
        }
        let count = other.marks.len();
        for back in 0..count {
            let at = count - 1 - back;
            if let Some(place) = self.get(other.marks[at]) {
                if differ(path, place, other, at) {
                    return Some((place, at));
                }
            }
        }
        None
    }
}

/// Whether the formulas at these places have the one truth and the other.
fn differ(path: &Delivery<'_>, place: usize, other: &Delivery<'_>, at: usize) -> bool {
    match (path.formulas.get(place), other.formulas.get(at)) {
        (Some((_one, holds)), Some((_two, truth))) => *holds != *truth,
        _ => false,
    }
}

fn has_mark(path: &Delivery<'_>, place: usize, mark: u32) -> bool {
    match path.marks.get(place) {
        None => false,
        Some(own) => *own == mark,
    }
}

/// Places of the last formula of a path, and near that place in another one, where they have one mark and the one truth and the other.
fn last_in(path: &Delivery<'_>, other: &Delivery<'_>) -> Option<(usize, usize)> {
    let place = path.marks.len().checked_sub(1)?;
    let mark = path.marks.get(place)?;
    for step in 0..NEAR {
        let above = place.saturating_add(step);
        if has_mark(other, above, *mark) && differ(path, place, other, above) {
            return Some((place, above));
        }
        let below = place.saturating_sub(step);
        if has_mark(other, below, *mark) && differ(path, place, other, below) {
            return Some((place, below));
        }
    }
    None
}
