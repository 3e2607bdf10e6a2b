//! Whether covers show that two lists permit the same packets.

ghost use Rattle.std.specs.Prelude.{◌≡◌, ◌<◌, ◌^◌, ◌++◌, [], ◌∷◌, All, ◌||◌, Bool, true, is_some, length, map, slice_get, take, IfOk, IsTrue};
ghost use Rattle.std.specs.List.{list_any};
ghost use Rattle.acl_rules.specs.Packets.{contains};
ghost use Rattle.acl_rules.specs.Comparing.{AreSame, AreSettled, IsAccepted, has, is_alike, is_settled, joint_seen, one_has, settled_at, with_last};
ghost use Rattle.acl_rules.specs.Pairs.{IsRowSettled, is_had};

use crate::cover::rule_at;
use crate::joint::{JointCover, Pair, all_covered, first_rules, has};
use crate::laws::accepted_lists_are_same;
use crate::packets::{PacketBox, common, contains, meets};
use crate::rule::Rule;
use sn_width::NoMemory;
use std::alloc::Global;

/// All packets.
const ALL_PACKETS: PacketBox = [
    (0, 255),
    (0, u32::MAX),
    (0, u32::MAX),
    (0, 65_535),
    (0, 65_535),
];

/// The list with a rule at its end that denies all packets.
pub(crate) fn with_last(alloc: Global, rules: &[Rule]) -> Result<Vec<Rule>, NoMemory>
    ensures { IfOk result (λ all. all.items ≡ with_last rules.now) }
{
    let mut all = Vec::new(alloc);
    all.extend_from_slice(rules)?;
    all.push(Rule {
        permits: false,
        ranges: ALL_PACKETS,
    })?;
    Ok(all)
}

pub(crate) fn is_alike(one: bool, other: bool) -> bool
    ensures { result ≡ is_alike one other }
{
    if one { other } else { !other }
}

/// The first rule that has all of the box.
pub(crate) fn container(rules: &[Rule], part: &PacketBox) -> Option<u32>
    requires { length rules.now < 2 ^ 32 }
    ensures { list_any (λ r. contains r.ranges part.now) rules.now ≡ is_some result }
{
    for number in 0..rules.len() as u32 {
        if contains(&rules[number as usize].ranges, part) {
            return Some(number);
        }
    }
    None
}

/// Whether one of the covers shows that rules before these two have all of the box.
fn some_has(joints: &[JointCover], pair: Pair, part: &PacketBox) -> bool
    ensures { result ≡ list_any (has pair.left pair.right part.now) (map joint_seen joints.now) }
{
    for joint in joints {
        if has(joint, pair, part) {
            return true;
        }
    }
    false
}

fn is_had(
    left: &[Rule],
    right: &[Rule],
    joints: &[JointCover],
    pair: Pair,
    part: &PacketBox,
) -> bool
    requires left { length left.now < 2 ^ 32 }
    requires right { length right.now < 2 ^ 32 }
    ensures { result ≡ is_had left.now right.now (map joint_seen joints.now) pair.left pair.right part.now }
{
    container(first_rules(left, pair.left), part).is_some()
        || container(first_rules(right, pair.right), part).is_some()
        || some_has(joints, pair, part)
}

/// Whether two rules of these numbers are settled.
fn is_settled(
    left: &[Rule],
    right: &[Rule],
    joints: &[JointCover],
    pair: Pair,
    one: &Rule,
    other: &Rule,
) -> bool
    requires left { length left.now < 2 ^ 32 }
    requires right { length right.now < 2 ^ 32 }
    ensures { result ≡ is_settled left.now right.now (map joint_seen joints.now) pair.left pair.right
        one.now other.now }
{
    if is_alike(one.permits, other.permits) || !meets(&one.ranges, &other.ranges) {
        return true;
    }
    is_had(
        left,
        right,
        joints,
        pair,
        &common(&one.ranges, &other.ranges),
    )
}

fn settled_at(left: &[Rule], right: &[Rule], joints: &[JointCover], pair: Pair) -> bool
    requires left { length left.now < 2 ^ 32 }
    requires right { length right.now < 2 ^ 32 }
    ensures { result ≡ settled_at left.now right.now (map joint_seen joints.now) pair.left pair.right
        (slice_get left.now pair.left) (slice_get right.now pair.right) }
{
    let Some(one) = rule_at(left, pair.left) else {
        return true;
    };
    let Some(other) = rule_at(right, pair.right) else {
        return true;
    };
    is_settled(left, right, joints, pair, &one, &other)
}

/// Whether each pair of this rule of the left list is settled.
#[tactic(auto, using(crate::proofs::Growing::one_more, crate::proofs::Growing::whole_row))]
fn row_settled(left: &[Rule], right: &[Rule], joints: &[JointCover], row: u32) -> bool
    requires left { length left.now < 2 ^ 32 }
    requires right { length right.now < 2 ^ 32 }
    ensures yes { IsTrue result → IsRowSettled left.now right.now (map joint_seen joints.now) row }
    ensures no { IsRowSettled left.now right.now (map joint_seen joints.now) row → IsTrue result }
{
    for column in 0..right.len() as u32 {
        let pair = Pair {
            left: row,
            right: column,
        };
        if !settled_at(left, right, joints, pair) {
            return false;
        }
    }
    true
}

/// Whether the covers settle each pair of rules.
#[tactic(auto, using(crate::proofs::Growing::row_more, crate::proofs::Growing::all_rows))]
fn are_settled(
    alloc: Global,
    left: &[Rule],
    right: &[Rule],
    joints: &[JointCover],
) -> Result<bool, NoMemory>
    requires left { length left.now < 2 ^ 32 }
    requires right { length right.now < 2 ^ 32 }
    ensures yes { IfOk result (λ yes. IsTrue yes → AreSettled left.now right.now (map joint_seen joints.now)) }
    ensures no { IfOk result (λ yes. AreSettled left.now right.now (map joint_seen joints.now) → IsTrue yes) }
{
    if !all_covered(alloc, left, right, joints)? {
        return Ok(false);
    }
    for row in 0..left.len() as u32 {
        if !row_settled(left, right, joints, row) {
            return Ok(false);
        }
    }
    Ok(true)
}

/// Whether the covers are accepted for the lists; then these permit the same packets.
pub fn check_joints(
    alloc: Global,
    left: &[Rule],
    right: &[Rule],
    joints: &[JointCover],
) -> Result<bool, NoMemory>
    requires left { length left.now < 2 ^ 31 }
    requires right { length right.now < 2 ^ 31 }
    ensures accepted { IfOk result (λ yes. IsTrue yes → IsAccepted left.now right.now (map joint_seen joints.now)) }
    ensures refused { IfOk result (λ yes. IsAccepted left.now right.now (map joint_seen joints.now) → IsTrue yes) }
    ensures same { IfOk result (λ yes. IsTrue yes → AreSame left.now right.now) }
{
    accepted_lists_are_same();
    let all_left = with_last(alloc, left)?;
    let all_right = with_last(alloc, right)?;
    are_settled(alloc, &all_left, &all_right, joints)
}
