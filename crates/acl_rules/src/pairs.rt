//! The common packets of two rules of two left, right, each looked for behind the rules before it.

ghost use Rattle.std.specs.Prelude.{◌≡◌, ◌<◌, ◌^◌, ◌||◌, All, Bool, true, length, map, take, IfOk, IfSome, IsTrue};
ghost use Rattle.std.specs.List.{list_any};
ghost use Rattle.acl_rules.specs.Packets.{IsBox, contains};
ghost use Rattle.acl_rules.specs.Covers.{IsRule};
ghost use Rattle.acl_rules.specs.Comparing.{has, joint_seen};
ghost use Rattle.acl_rules.specs.Pairs.{IsBoxStep, IsJointOf, IsRulesStep, IsStep, is_had};

use crate::cover::{contains_at, covers, rule_at};
use crate::decided::Fate;
use crate::guess::{Guess, guess_fate};
use crate::hints::{Hint, Hints};
use crate::joint::{JointCover, Pair, before, first_rules, has};
use crate::packets::{PacketBox, common, meets};
use crate::rule::Rule;
use crate::search::guess_or_search;
use crate::settled::{container, is_alike};
use sn_width::NoMemory;
use std::alloc::Global;

/// The most steps of a guess at a whole rule.
const MOST_STEPS: u32 = 200;

/// What becomes of a pair.
#[derive(Drop)]
pub(crate) enum Step {
    /// It is settled.
    Already,
    /// It is with one more cover.
    Covered(JointCover),
    /// The lists differ in this packet.
    Open([u32; 5]),
}

/// Whether the rule of this number is one of the first, and has all of the box.
#[tactic(auto, using(crate::proofs::Having::rule_found))]
fn is_had_by(rules: &[Rule], count: u32, number: u32, part: &PacketBox) -> bool
    ensures { IsTrue result → list_any (λ r. contains r.ranges part.now) (take count rules.now) ≡ true }
{
    contains_at(rule_at(first_rules(rules, count), number), part)
}

/// Whether one of the rules before these two has all of the box, by the hints on one of them.
fn is_had_by_hint(
    own: &[Rule],
    own_count: u32,
    other: &[Rule],
    other_count: u32,
    hint: Hint,
    part: &PacketBox,
) -> bool
    ensures { IsTrue result → (list_any (λ r. contains r.ranges part.now) (take own_count own.now)
        || list_any (λ r. contains r.ranges part.now) (take other_count other.now)) ≡ true }
{
    is_had_by(other, other_count, hint.alike, part)
        || is_had_by(own, own_count, hint.own, part)
        || is_had_by(other, other_count, hint.other, part)
}

/// Whether the cover of this number shows that rules before these two have all of the box.
#[tactic(auto, using(crate::proofs::Stepping::has_found))]
fn is_had_by_joint(joints: &[JointCover], number: u32, pair: Pair, part: &PacketBox) -> bool
    ensures { IsTrue result → list_any (has pair.left pair.right part.now) (map joint_seen joints.now) ≡ true }
{
    let number = number as usize;
    number < joints.len() && has(&joints[number], pair, part)
}

/// Whether a rule before these two has all of the box, or the covers so far; the hints say where to look first, and may not
/// name every cover that has it.
fn is_had(
    left: &[Rule],
    right: &[Rule],
    joints: &[JointCover],
    hints: &mut Hints,
    pair: Pair,
    part: &PacketBox,
) -> bool
    requires left { length left.now < 2 ^ 32 }
    requires right { length right.now < 2 ^ 32 }
    ensures { IsTrue result
        → is_had left.now right.now (map joint_seen joints.now) pair.left pair.right part.now ≡ true }
{
    let row = hints.left(pair);
    let column = hints.right(pair);
    if is_had_by_hint(left, pair.left, right, pair.right, row, part)
        || is_had_by_hint(right, pair.right, left, pair.left, column, part)
        || is_had_by_joint(joints, row.joint, pair, part)
        || is_had_by_joint(joints, column.joint, pair, part)
    {
        return true;
    }
    if let Some(rule) = container(first_rules(left, pair.left), part) {
        hints.note_left(pair, rule);
        return true;
    }
    if let Some(rule) = container(first_rules(right, pair.right), part) {
        hints.note_right(pair, rule);
        return true;
    }
    false
}

/// A cover of the whole by these rules, which has all of the box, if a short search finds one.
fn try_cover(
    alloc: Global,
    rules: &[Rule],
    pair: Pair,
    whole: &PacketBox,
    part: &PacketBox,
) -> Result<Option<JointCover>, NoMemory>
    requires { length rules.now < 2 ^ 32 }
    ensures { IfOk result (λ found. IfSome found
        (λ joint. IsJointOf rules.now pair.left pair.right part.now (joint_seen joint))) }
{
    let Guess::Steps(steps) = guess_fate(alloc, rules, whole, MOST_STEPS)? else {
        return Ok(None);
    };
    if !covers(alloc, rules, whole, &steps)? {
        return Ok(None);
    }
    let joint = JointCover {
        left: pair.left,
        right: pair.right,
        part: *whole,
        steps,
    };
    if has(&joint, pair, part) {
        Ok(Some(joint))
    } else {
        Ok(None)
    }
}

/// A packet of the box that none of these rules has, or a cover.
fn cover_box(alloc: Global, rules: &[Rule], pair: Pair, part: &PacketBox) -> Result<Step, NoMemory>
    requires count { length rules.now < 2 ^ 32 }
    requires ranges { IsBox part.now }
    ensures { IfOk result (IsBoxStep rules.now pair.left pair.right part.now) }
{
    match guess_or_search(alloc, rules, part)? {
        Fate::Decides { values } => Ok(Step::Open(values)),
        Fate::Hidden { cover } => Ok(Step::Covered(JointCover {
            left: pair.left,
            right: pair.right,
            part: *part,
            steps: cover,
        })),
    }
}

/// The same, where covers of the whole rules are tried first, as the hints say: they serve other pairs too.
fn cover_rules(
    alloc: Global,
    rules: &[Rule],
    hints: &mut Hints,
    pair: Pair,
    wholes: (&PacketBox, &PacketBox),
    part: &PacketBox,
) -> Result<Step, NoMemory>
    requires count { length rules.now < 2 ^ 32 }
    requires ranges { IsBox part.now }
    ensures { IfOk result (IsBoxStep rules.now pair.left pair.right part.now) }
{
    let (row, column) = hints.note_open(pair);
    if row {
        if let Some(joint) = try_cover(alloc, rules, pair, wholes.0, part)? {
            return Ok(Step::Covered(joint));
        }
    }
    if column {
        if let Some(joint) = try_cover(alloc, rules, pair, wholes.1, part)? {
            return Ok(Step::Covered(joint));
        }
    }
    cover_box(alloc, rules, pair, part)
}

/// What becomes of two rules.
#[tactic(auto, using(crate::proofs::Stepping::is_common, crate::proofs::Growing::settled_had, crate::proofs::Stepping::rules_step))]
fn settle_rules(
    alloc: Global,
    left: &[Rule],
    right: &[Rule],
    joints: &[JointCover],
    hints: &mut Hints,
    pair: Pair,
    rules: (Rule, Rule),
) -> Result<Step, NoMemory>
    requires left { length left.now < 2 ^ 31 }
    requires right { length right.now < 2 ^ 31 }
    requires one { IsRule rules.0 }
    requires other { IsRule rules.1 }
    ensures { IfOk result (IsRulesStep left.now right.now (map joint_seen joints.now) pair.left pair.right
        rules.0 rules.1) }
{
    let (one, other) = rules;
    if is_alike(one.permits, other.permits) || !meets(&one.ranges, &other.ranges) {
        return Ok(Step::Already);
    }
    let part = common(&one.ranges, &other.ranges);
    if is_had(left, right, joints, hints, pair, &part) {
        return Ok(Step::Already);
    }
    let earlier = before(alloc, left, right, pair)?;
    cover_rules(
        alloc,
        &earlier,
        hints,
        pair,
        (&one.ranges, &other.ranges),
        &part,
    )
}

/// What becomes of a pair.
#[tactic(auto, using(crate::proofs::Stepping::is_rule, crate::proofs::Stepping::pair_step))]
pub(crate) fn settle(
    alloc: Global,
    left: &[Rule],
    right: &[Rule],
    joints: &[JointCover],
    hints: &mut Hints,
    pair: Pair,
) -> Result<Step, NoMemory>
    requires left { length left.now < 2 ^ 31 }
    requires right { length right.now < 2 ^ 31 }
    requires one { All IsRule left.now }
    requires other { All IsRule right.now }
    ensures { IfOk result (IsStep left.now right.now (map joint_seen joints.now) pair.left pair.right) }
{
    let Some(one) = rule_at(left, pair.left) else {
        return Ok(Step::Already);
    };
    let Some(other) = rule_at(right, pair.right) else {
        return Ok(Step::Already);
    };
    settle_rules(alloc, left, right, joints, hints, pair, (one, other))
}
