//! Accepted injections.

ghost use Rattle.std.specs.Prelude.{◌≡◌, ◌≤◌, length, filter, Some, None};
ghost use Rattle.std.specs.List.{AllByRecursion};
ghost use Rattle.job_items.specs.AtomRules.{width_of};
ghost use Rattle.net_check.specs.Places.{node_position};
ghost use Rattle.sn_width.specs.declared.ids.NodeId.{NodeId as NodeOf};
ghost use Rattle.net_check.specs.Keeping.{HasWidth, KeepsRules, line_items};
ghost use Rattle.net_check.specs.Sound.{IsAcceptedEntry};
ghost use Rattle.net_check.specs.Network.{entry, is_unknown, network, unknown_count};

use crate::laws::accepted_parts_keep_the_rules;
use crate::net::Net;
use sefl_syntax::{RawField, RawInjection, Target};
use sn_width::NodeId;
use std::marker::Model;

/// The bound on the choices of cases that decisions try, where no other is given.
pub const USUAL_CHOICES: u64 = 4096;

/// The injection of an accepted job, with a bound on the choices of cases that decisions on its packets try. Contracts see the
/// job's own injection, the node that it names, and the bound.
pub struct Injection {
    raw: RawInjection,
    node: NodeId,
    most_choices: u64,
}

impl Model for Injection {
    ghost use Rattle.std.specs.Coded.{codes};
    ghost use Rattle.sefl_syntax.specs.contracts.cond.Cond as the_cond;
    ghost use Rattle.net_check.specs.Network.{EntryParts, entry};
    ghost use Rattle.net_check.specs.Keeping.{IsKeptEntry};

    ghost Value = { EntryParts };

    ghost coded = { Prim.hlevel (codes, the_cond.the_row.coded) };

    ghost view = { λ i. record { raw = i.raw; node = i.node; most_choices = i.most_choices } };

    ghost invariant = { λ i. IsKeptEntry (entry (record { raw = i.raw; node = i.node; most_choices = i.most_choices })) };
}

// Written out, and not derived, so that the proof of a function that lets one go sees a call.
impl Drop for Injection {
    fn drop(self) {
        let Injection {
            raw,
            node: _,
            most_choices: _,
        } = self;
        drop(raw);
    }
}

impl Injection {
    /// The injection of the job that the net is of.
    pub(crate) fn of(net: &Net, raw: RawInjection) -> Injection
        requires sound { (node : NodeOf) → node_position (network net.now).own raw.node ≡ Some node.0
            → IsAcceptedEntry (entry (record { raw = raw; node = node; most_choices = USUAL_CHOICES })) }
        requires named { node_position (network net.now).own raw.node ≡ None → ⊥ }
        ensures raw { result.raw ≡ raw }
        ensures node { node_position (network net.now).own raw.node ≡ Some result.node.0 }
        ensures bound { result.most_choices ≡ USUAL_CHOICES }
    {
        fields_have_widths(&raw.fields);
        let node = net.node_id(&raw.node).unwrap();
        Injection {
            raw,
            node,
            most_choices: USUAL_CHOICES,
        }
    }

    /// Gives it another bound on the choices of cases.
    pub fn set_choices(&mut self, most_choices: u64)
        ensures { self.new ≡ record self.old { most_choices = most_choices } }
    {
        self.most_choices = most_choices;
    }

    /// The bound on the choices of cases that decisions on its packets try.
    pub fn most_choices(&self) -> u64
        ensures { result ≡ self.now.most_choices }
    {
        self.most_choices
    }

    /// Says that the injection is of a job that breaks no rule. It does nothing.
    pub fn keeps_the_rules(&self)
        ensures accepted { IsAcceptedEntry (entry self.now) }
        ensures lines { AllByRecursion KeepsRules (line_items (entry self.now).own) }
        ensures widths { AllByRecursion HasWidth (entry self.now).own.fields }
    {
        let _raw = &self.raw;
        accepted_parts_keep_the_rules();
    }

    /// The injection as the job has it.
    pub fn raw(&self) -> &RawInjection
        ensures { result.now ≡ self.now.raw }
    {
        &self.raw
    }

    /// The node and the input port that the packet enters.
    pub fn place(&self) -> (NodeId, u32)
        ensures { result ≡ (self.now.node, self.now.raw.port) }
    {
        (self.node, self.raw.port)
    }

    /// How many fields have an unknown value.
    #[tactic(auto, using(crate::proofs::CountLemmas::unknown_fields))]
    pub fn unknowns(&self) -> usize
        ensures { result ≡ unknown_count (entry self.now) }
    {
        unknowns_of(&self.raw.fields)
    }
}

/// How many of the fields have an unknown value.
fn unknowns_of(fields: &[RawField]) -> usize
    ensures { result ≡ length (filter is_unknown fields.now) }
{
    fields.iter().filter(|field| field.value.is_none()).count()
}

/// Says that each field has a width.
fn fields_have_widths(fields: &[RawField])
    ensures { AllByRecursion HasWidth fields.now }
{
    for field in fields {
        let _bits = bits_of(&field.target);
    }
}

/// The width of a reference in bits, from 1 to 128.
fn bits_of(target: &Target) -> u8
    ensures value { result ≡ width_of target.now }
    ensures least { 1 ≤ result }
    ensures most { result ≤ 128 }
{
    target.width().bits()
}
