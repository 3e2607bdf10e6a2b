//! Filter lists, and the files that they have.

ghost use Rattle.std.specs.Prelude.{◌≡◌, ◌<◌, ◌≤◌, ℕ, All, length, map, IfOk, IsTrue};
ghost use Rattle.acl_rules.specs.Covers.{IsFate, IsHidden, IsRule, accepted, fate_seen};
ghost use Rattle.acl_rules.specs.Comparing.{AreSame, IsAccepted, IsVerdict, joint_seen, verdict_seen};
ghost use Rattle.acl_model.specs.Rules.{IsFaultOf, Reads};
ghost use Rattle.table_lines.specs.declared.fault.TableFault.TheVariants.{Conflict};

use crate::fault::AclFault;
use crate::rules::Rules;
use acl_rules::{
    Cover, Fate, JointCover, Rule, Verdict, check_cover, check_joints, compare, search,
};
use sn_width::NoMemory;
use std::alloc::Global;
use std::marker::Model;
use table_lines::{TableFault, read_lines};

/// A filter list: the first of its rules that contains a packet decides it. Contracts see its rules in the order of the file, at
/// most 1,024: whether each permits, and the least and the greatest value of each of its five fields.
#[derive(Drop)]
pub struct Acl {
    rules: Vec<Rule>,
}

impl Model for Acl {
    ghost use Rattle.std.specs.Prelude.{List};
    ghost use Rattle.acl_rules.specs.declared.rule.Rule.{Rule};
    ghost use Rattle.acl_model.specs.Rules.{AreRules};

    ghost Value = { List Rule };

    ghost view = { λ a. a.rules.items };

    ghost invariant = { λ a. AreRules a.rules.items };
}

impl Acl {
    /// The rules, in the order of the file.
    pub fn rules(&self) -> &[Rule]
        ensures rules { result.now ≡ self.now }
        ensures each { All IsRule self.now }
        ensures most { length self.now ≤ 1024 }
    {
        &self.rules
    }

    /// A packet that the rule of this number decides, or a cover of it by earlier rules, which shows that it decides none. Nothing
    /// is promised about the choice of the packet or cover, or about time.
    pub fn fate(&self, alloc: Global, rule: u32) -> Result<Fate, NoMemory>
        requires { rule < length self.now }
        ensures { IfOk result (λ fate. IsFate self.now rule (fate_seen fate)) }
    {
        search::fate(alloc, &self.rules, rule)
    }

    /// Whether the cover is accepted for the rule of this number; then the rule decides no packet.
    pub fn check_cover(&self, alloc: Global, rule: u32, cover: &[Cover]) -> Result<bool, NoMemory>
        requires { rule < length self.now }
        ensures accepted { IfOk result (λ yes. yes ≡ accepted self.now rule cover.now) }
        ensures hidden { IfOk result (λ yes. IsTrue yes → IsHidden self.now rule) }
    {
        check_cover(alloc, &self.rules, rule, cover)
    }

    /// Whether the lists permit the same packets: covers that show it, or a packet in which they differ. Nothing is promised
    /// about the choice of the packet or covers, or about time.
    pub fn compare(&self, alloc: Global, other: &Acl) -> Result<Verdict, NoMemory>
        ensures { IfOk result (λ verdict. IsVerdict self.now other.now (verdict_seen verdict)) }
    {
        compare(alloc, self.rules(), other.rules())
    }

    /// Whether the covers are accepted for the lists; then these permit the same packets.
    pub fn check_joints(
        &self,
        alloc: Global,
        other: &Acl,
        joints: &[JointCover],
    ) -> Result<bool, NoMemory>
        ensures accepted { IfOk result (λ yes. IsTrue yes → IsAccepted self.now other.now (map joint_seen joints.now)) }
        ensures refused { IfOk result (λ yes. IsAccepted self.now other.now (map joint_seen joints.now) → IsTrue yes) }
        ensures same { IfOk result (λ yes. IsTrue yes → AreSame self.now other.now) }
    {
        check_joints(alloc, self.rules(), other.rules(), joints)
    }
}

/// The fault of a list whose lines have this one.
fn acl_fault(fault: TableFault) -> AclFault
    requires { (line earlier : ℕ) → fault ≡ Conflict line earlier → ⊥ }
    ensures { IsFaultOf fault result }
{
    match fault {
        TableFault::BadLine { line } => AclFault::BadLine { line },
        TableFault::Limit { line } => AclFault::Limit { line },
        TableFault::NoMemory => AclFault::NoMemory,
        TableFault::Conflict { .. } => unreachable!(),
    }
}

/// The list that a file has, or its first line that is no rule or past the limit.
pub fn read_acl(alloc: Global, bytes: &[u8]) -> Result<Acl, AclFault>
    ensures { Reads bytes.now result }
{
    let mut rules = Rules {
        rules: Vec::new(alloc),
    };
    match read_lines(bytes, &mut rules) {
        Ok(()) => Ok(Acl { rules: rules.rules }),
        Err(fault) => Err(acl_fault(fault)),
    }
}
