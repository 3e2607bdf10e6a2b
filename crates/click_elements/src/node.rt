//! The nodes of elements.

ghost use Rattle.std.specs.Prelude.{◌≡◌, length, IfOk};
ghost use Rattle.sefl_syntax.specs.Views.{code_tree, node_tree};
ghost use Rattle.click_elements.specs.Classes.{seen_class};
ghost use Rattle.click_elements.specs.Nodes as nodes;

use crate::class::{Class, Pattern};
use crate::code::{dec_ip_ttl_code, drop_code, ether_encap_code, strip_code, tee_code};
use crate::filter::{ip_classifier_code, ip_filter_code};
use crate::mirror::{ether_mirror_code, ip_mirror_code};
use sefl_syntax::{Instr, RawNode};
use sn_width::NoMemory;
use std::alloc::Global;
use table_nodes::one_input;

/// The outputs of a Tee without an argument are below this number.
const MOST_OUTPUTS: u64 = 1024;

/// What is connected of an element's outputs.
#[derive(Clone, Copy)]
pub struct Leads {
    /// Whether output 1 is.
    pub second: bool,
    /// One more than the largest one below 1024; 0 where none is.
    pub widest: u32,
}

fn most_of_tee(outputs: Option<u32>) -> u64
    ensures { result ≡ nodes.most_of_tee outputs }
{
    match outputs {
        None => MOST_OUTPUTS,
        Some(outputs) => u64::from(outputs),
    }
}

/// How many outputs an element may have.
pub fn most_outputs(class: &Class) -> u64
    ensures { result ≡ nodes.most_outputs (seen_class class.now) }
{
    match class {
        Class::DecIpTtl => 2,
        Class::EtherMirror => 1,
        Class::IpMirror => 1,
        Class::Tee(outputs) => most_of_tee(*outputs),
        Class::Discard => 0,
        Class::Strip => 1,
        Class::EtherEncap { .. } => 1,
        Class::IpFilter(_) => 1,
        Class::IpClassifier(patterns) => patterns.len() as u64,
    }
}

fn tee_outputs(outputs: Option<u32>, leads: Leads) -> u32
    ensures { result ≡ nodes.tee_outputs outputs leads }
{
    match outputs {
        Some(outputs) => outputs,
        None => { if leads.widest == 0 { 1 } else { leads.widest } }
    }
}

fn count_of(patterns: &[Pattern]) -> Result<u32, NoMemory>
    ensures { IfOk result (λ count. length patterns.now ≡ count) }
{
    match u32::try_from(patterns.len()) {
        Ok(count) => Ok(count),
        Err(_) => Err(NoMemory),
    }
}

/// How many outputs an element has.
fn outputs_of(class: &Class, leads: Leads) -> Result<u32, NoMemory>
    ensures { IfOk result (λ outputs. outputs ≡ nodes.outputs_of (seen_class class.now) leads) }
{
    match class {
        Class::DecIpTtl => Ok(if leads.second { 2 } else { 1 }),
        Class::EtherMirror => Ok(1),
        Class::IpMirror => Ok(1),
        Class::Tee(outputs) => Ok(tee_outputs(*outputs, leads)),
        Class::Discard => Ok(0),
        Class::Strip => Ok(1),
        Class::EtherEncap { .. } => Ok(1),
        Class::IpFilter(_) => Ok(1),
        Class::IpClassifier(patterns) => count_of(patterns),
    }
}

fn input_code(alloc: Global, class: &Class, leads: Leads) -> Result<Vec<Instr>, NoMemory>
    ensures { IfOk result (λ code. code_tree code.items ≡ nodes.input_code (seen_class class.now) leads) }
{
    match class {
        Class::DecIpTtl => dec_ip_ttl_code(alloc, leads.second),
        Class::EtherMirror => ether_mirror_code(alloc),
        Class::IpMirror => ip_mirror_code(alloc),
        Class::Tee(outputs) => tee_code(alloc, tee_outputs(*outputs, leads)),
        Class::Discard => drop_code(alloc),
        Class::Strip => strip_code(alloc),
        Class::EtherEncap {
            kind,
            source,
            destination,
        } => ether_encap_code(alloc, *kind, *source, *destination),
        Class::IpFilter(rules) => ip_filter_code(alloc, rules),
        Class::IpClassifier(patterns) => {
            ip_classifier_code(alloc, count_of(patterns)?, patterns)
        }
    }
}

/// The node of an element: one input port, and an output port for each output.
pub fn class_node(alloc: Global, class: &Class, leads: Leads) -> Result<RawNode, NoMemory>
    ensures { IfOk result (λ node. node_tree node ≡ nodes.class_node (seen_class class.now) leads) }
{
    let outputs = outputs_of(class, leads)?;
    let code = input_code(alloc, class, leads)?;
    one_input(alloc, outputs, code)
}
