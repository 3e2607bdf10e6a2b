//! Whether two lists permit the same packets.

ghost use Rattle.std.specs.Prelude.{◌<◌, ◌^◌, All, MatchOption, length, map, IfOk};
ghost use Rattle.acl_rules.specs.Covers.{IsRule};
ghost use Rattle.acl_rules.specs.Comparing.{AreSettled, Differ, IsVerdict, joint_seen, verdict_seen};
ghost use Rattle.acl_rules.specs.Pairs.{Grows, IsRowSettled, IsSearched};

use crate::hints::Hints;
use crate::joint::{JointCover, Pair};
use crate::laws::accepted_lists_are_same;
use crate::pairs::{Step, settle};
use crate::rule::Rule;
use crate::settled::with_last;
use crate::side::side_of;
use crate::verdict::Verdict;
use sn_width::NoMemory;
use std::alloc::Global;

/// What becomes of all pairs.
#[derive(Drop)]
enum Searched {
    /// These covers settle them.
    Settled(Vec<JointCover>),
    /// The lists differ in this packet.
    Open([u32; 5]),
}

/// Settles each pair of this rule of the left list, with more covers; or a packet in which the lists differ.
#[tactic(auto, using(crate::proofs::Rows::row_begun))]
fn settle_row(
    alloc: Global,
    left: &[Rule],
    right: &[Rule],
    joints: &mut Vec<JointCover>,
    hints: &mut Hints,
    row: u32,
) -> Result<Option<[u32; 5]>, NoMemory>
    requires left { length left.now < 2 ^ 31 }
    requires right { length right.now < 2 ^ 31 }
    requires one { All IsRule left.now }
    requires other { All IsRule right.now }
    ensures { IfOk result (λ found. MatchOption found
        (Grows left.now right.now (map joint_seen joints.old.items) (map joint_seen joints.new.items)
        × IsRowSettled left.now right.now (map joint_seen joints.new.items) row)
        (λ values. Differ left.now right.now values)) }
{
    for column in 0..right.len() as u32 {
        let pair = Pair {
            left: row,
            right: column,
        };
        match settle(alloc, left, right, joints, hints, pair)? {
            Step::Already => {}
            Step::Covered(joint) => {
                hints.note_joint(pair, joints.len());
                joints.push(joint)?;
            }
            Step::Open(values) => return Ok(Some(values)),
        }
    }
    Ok(None)
}

/// Settles each pair of rules.
#[tactic(auto, using(crate::proofs::Rows::rows_begun, crate::proofs::Rows::rows_ended))]
fn settle_all(alloc: Global, left: &[Rule], right: &[Rule]) -> Result<Searched, NoMemory>
    requires left { length left.now < 2 ^ 31 }
    requires right { length right.now < 2 ^ 31 }
    requires one { All IsRule left.now }
    requires other { All IsRule right.now }
    ensures { IfOk result (IsSearched left.now right.now) }
{
    let mut hints = Hints::new(alloc, left, right)?;
    let mut joints = Vec::new(alloc);
    for row in 0..left.len() as u32 {
        if let Some(values) = settle_row(alloc, left, right, &mut joints, &mut hints, row)? {
            return Ok(Searched::Open(values));
        }
    }
    Ok(Searched::Settled(joints))
}

/// Whether two lists permit the same packets: covers that show it, or a packet in which they differ. Nothing is promised about
/// the choice of the packet or covers, or about time.
#[tactic(auto, using(crate::proofs::Stepping::rules_and_last, crate::proofs::Stepping::one_more_rule, crate::proofs::Settling::differ_too))]
pub fn compare(alloc: Global, left: &[Rule], right: &[Rule]) -> Result<Verdict, NoMemory>
    requires left { length left.now < 2 ^ 30 }
    requires right { length right.now < 2 ^ 30 }
    requires one { All IsRule left.now }
    requires other { All IsRule right.now }
    ensures { IfOk result (λ verdict. IsVerdict left.now right.now (verdict_seen verdict)) }
{
    accepted_lists_are_same();
    let all_left = with_last(alloc, left)?;
    let all_right = with_last(alloc, right)?;
    match settle_all(alloc, &all_left, &all_right)? {
        Searched::Settled(joints) => Ok(Verdict::Same { joints }),
        Searched::Open(values) => Ok(Verdict::Other {
            values,
            left: side_of(left, &values),
            right: side_of(right, &values),
        }),
    }
}
