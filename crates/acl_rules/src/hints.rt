//! Guesses of which rule has the common packets of a pair. Nothing is promised of them: each is tried before it is taken.

ghost use Rattle.std.specs.Prelude.{◌<◌, ◌^◌, length};

use crate::joint::Pair;
use crate::packets::{PacketBox, contains};
use crate::rule::Rule;
use sn_width::NoMemory;
use std::alloc::Global;

/// Of no rule and no cover.
const NONE: u32 = u32::MAX;

/// What helped with earlier pairs of a rule.
#[derive(Clone, Copy)]
pub(crate) struct Hint {
    /// The first rule of the other list with the same box.
    pub(crate) alike: u32,
    /// The last rule that had all of a pair's box: of the rule's own list, and of the other one.
    pub(crate) own: u32,
    pub(crate) other: u32,
    /// The last cover of the rule's whole box.
    pub(crate) joint: u32,
    /// How many of its pairs had no such rule or cover.
    pub(crate) opened: u32,
}

/// The hints of the rules of both lists.
#[derive(Drop)]
pub(crate) struct Hints {
    left: Vec<Hint>,
    right: Vec<Hint>,
}

fn no_hint(alike: u32) -> Hint {
    Hint {
        alike,
        own: NONE,
        other: NONE,
        joint: NONE,
        opened: 0,
    }
}

/// The first rule with this box.
fn first_alike(rules: &[Rule], part: &PacketBox) -> u32
    requires { length rules.now < 2 ^ 32 }
{
    for number in 0..rules.len() as u32 {
        let ranges = &rules[number as usize].ranges;
        if contains(ranges, part) && contains(part, ranges) {
            return number;
        }
    }
    NONE
}

fn hints_of(alloc: Global, rules: &[Rule], others: &[Rule]) -> Result<Vec<Hint>, NoMemory>
    requires { length others.now < 2 ^ 32 }
{
    let mut hints = Vec::new(alloc);
    for rule in rules {
        hints.push(no_hint(first_alike(others, &rule.ranges)))?;
    }
    Ok(hints)
}

fn hint_at(hints: &[Hint], number: u32) -> Hint {
    hints.get(number as usize).copied().unwrap_or(no_hint(NONE))
}

fn set_hint(hints: &mut Vec<Hint>, number: u32, hint: Hint) {
    let number = number as usize;
    if number < hints.len() {
        hints[number] = hint;
    }
}

impl Hints {
    pub(crate) fn new(alloc: Global, left: &[Rule], right: &[Rule]) -> Result<Hints, NoMemory>
        requires left { length left.now < 2 ^ 32 }
        requires right { length right.now < 2 ^ 32 }
    {
        let rows = hints_of(alloc, left, right)?;
        let columns = hints_of(alloc, right, left)?;
        Ok(Hints {
            left: rows,
            right: columns,
        })
    }

    pub(crate) fn left(&self, pair: Pair) -> Hint {
        hint_at(&self.left, pair.left)
    }

    pub(crate) fn right(&self, pair: Pair) -> Hint {
        hint_at(&self.right, pair.right)
    }

    /// A rule of the left list had all of a pair's box.
    pub(crate) fn note_left(&mut self, pair: Pair, rule: u32) {
        let left = self.left(pair);
        set_hint(&mut self.left, pair.left, Hint { own: rule, ..left });
        let right = self.right(pair);
        set_hint(
            &mut self.right,
            pair.right,
            Hint {
                other: rule,
                ..right
            },
        );
    }

    /// A rule of the right list had.
    pub(crate) fn note_right(&mut self, pair: Pair, rule: u32) {
        let left = self.left(pair);
        set_hint(
            &mut self.left,
            pair.left,
            Hint {
                other: rule,
                ..left
            },
        );
        let right = self.right(pair);
        set_hint(&mut self.right, pair.right, Hint { own: rule, ..right });
    }

    /// No rule had, and no cover. Whether the whole box of the left rule is to be tried, and that of the right one: the first time,
    /// and whenever there are twice as many pairs.
    pub(crate) fn note_open(&mut self, pair: Pair) -> (bool, bool) {
        let left = self.left(pair);
        let right = self.right(pair);
        let opened = (
            left.opened.saturating_add(1),
            right.opened.saturating_add(1),
        );
        set_hint(
            &mut self.left,
            pair.left,
            Hint {
                opened: opened.0,
                ..left
            },
        );
        set_hint(
            &mut self.right,
            pair.right,
            Hint {
                opened: opened.1,
                ..right
            },
        );
        (opened.0.is_power_of_two(), opened.1.is_power_of_two())
    }

    /// The cover of this number is of the whole box of one of the rules, perhaps.
    pub(crate) fn note_joint(&mut self, pair: Pair, joint: usize) {
        let joint = if joint < NONE as usize {
            joint as u32
        } else {
            NONE
        };
        let left = self.left(pair);
        set_hint(&mut self.left, pair.left, Hint { joint, ..left });
        let right = self.right(pair);
        set_hint(&mut self.right, pair.right, Hint { joint, ..right });
    }
}
