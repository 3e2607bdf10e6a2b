//! Covers of a box by the first rules of two lists.

ghost use Rattle.std.specs.Prelude.{◌≡◌, List, map, take, IfOk};
ghost use Rattle.std.specs.List.{list_all};
ghost use Rattle.acl_rules.specs.Comparing.{before, has, is_covered, joint_seen};

use crate::cover::{Cover, covers};
use crate::packets::{PacketBox, contains};
use crate::rule::Rule;
use sn_width::NoMemory;
use std::alloc::Global;

/// A box, and steps that cover it by the first `left` rules of one list and the first `right` rules of another.
#[derive(Drop)]
pub struct JointCover {
    pub left: u32,
    pub right: u32,
    pub part: PacketBox,
    /// They number the rules of the left list first, and then those of the right one.
    pub steps: Vec<Cover>,
}

/// The numbers of a rule of each list.
#[derive(Clone, Copy)]
pub(crate) struct Pair {
    pub(crate) left: u32,
    pub(crate) right: u32,
}

/// So many first rules, or all, if there are fewer.
pub(crate) fn first_rules(rules: &[Rule], count: u32) -> &[Rule]
    ensures { result.now ≡ take count rules.now }
{
    let count = count as usize;
    if count < rules.len() {
        &rules[..count]
    } else {
        rules
    }
}

/// The rules before two.
pub(crate) fn before(
    alloc: Global,
    left: &[Rule],
    right: &[Rule],
    pair: Pair,
) -> Result<Vec<Rule>, NoMemory>
    ensures { IfOk result (λ rules. rules.items ≡ before left.now right.now pair.left pair.right) }
{
    let mut rules = Vec::new(alloc);
    rules.extend_from_slice(first_rules(left, pair.left))?;
    rules.extend_from_slice(first_rules(right, pair.right))?;
    Ok(rules)
}

/// Whether rules before these two have all of the box, as the cover shows.
pub(crate) fn has(joint: &JointCover, pair: Pair, part: &PacketBox) -> bool
    ensures { result ≡ has pair.left pair.right part.now (joint_seen joint.now) }
{
    joint.left <= pair.left && joint.right <= pair.right && contains(&joint.part, part)
}

fn is_covered(
    alloc: Global,
    left: &[Rule],
    right: &[Rule],
    joint: &JointCover,
) -> Result<bool, NoMemory>
    ensures { IfOk result (λ yes. yes ≡ is_covered left.now right.now (joint_seen joint.now)) }
{
    let pair = Pair {
        left: joint.left,
        right: joint.right,
    };
    covers(
        alloc,
        &before(alloc, left, right, pair)?,
        &joint.part,
        &joint.steps,
    )
}

/// Whether the box of each is covered.
pub(crate) fn all_covered(
    alloc: Global,
    left: &[Rule],
    right: &[Rule],
    joints: &[JointCover],
) -> Result<bool, NoMemory>
    ensures { IfOk result (λ yes. yes
        ≡ list_all (is_covered left.now right.now) (map joint_seen joints.now)) }
{
    for joint in joints {
        if !is_covered(alloc, left, right, joint)? {
            return Ok(false);
        }
    }
    Ok(true)
}
