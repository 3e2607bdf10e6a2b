//! The laws of Click elements, one for each class.

ghost use Rattle.std.specs.Prelude.{◌≡◌, ℕ, List, Option, Ok};
ghost use Rattle.std.specs.declared.cmp.Ordering.TheVariants.{Equal};
ghost use Rattle.sn_width.specs.declared.faults.LayoutFault.{LayoutFault};
ghost use Rattle.sn_tree.specs.Pairs.{IsAscending};
ghost use Rattle.cell_stacks.specs.declared.cell.Cell.{Cell};
ghost use Rattle.cell_stacks.specs.Stacks.{NoneEmpty};
ghost use Rattle.cell_stacks.specs.Cells.{pushed, popped, with_top, top_value};
ghost use Rattle.net_check.specs.Network.{network};
ghost use Rattle.click_elements.specs.declared.class.Primitive.{Primitive};
ghost use Rattle.click_elements.specs.Classes as class;
ghost use Rattle.click_elements.specs.Classes.{RuleSeen};
ghost use Rattle.click_elements.specs.Nodes.{tee_outputs};
ghost use Rattle.click_model.specs.Nets.{leads_of};
ghost use Rattle.sefl_meaning.specs.Carried.{scene_at};
ghost use Rattle.sefl_meaning.specs.View.{carried_of};
ghost use Rattle.model_laws.specs.Rows as rows;
ghost use Rattle.model_laws.specs.Elements.{RunsAs};

use cell_stacks::Cell as StackCell;
use cell_stacks::laws::{change_of_a_stack, push_then_pop, set_then_read};
use click_model::ClickConfig;
use net_check::Net;
use sefl_meaning::State;
use sn_width::{NameId, NodeId, Num};
use std::alloc::Global;

/// A cell that is put on some stack, takes a value and is removed leaves the stacks as they were.
pub fn hold_then_pop<K: Ord, V: Drop>()
    ensures { (absent : LayoutFault) (key : K) (width : ℕ) (stacks put : List (K × List (Cell V)))
        → ((a b : K) → K.cmp a b ≡ Equal → a ≡ b) → IsAscending K.cmp stacks → NoneEmpty stacks
        → pushed K.cmp key width stacks ≡ Ok put → (value : V)
        → (holding : List (K × List (Cell V))) × (with_top K.cmp absent key width value put ≡ Ok holding)
        × (top_value K.cmp absent key width holding ≡ Ok value) × (popped K.cmp absent key width holding ≡ Ok stacks) }
{
    change_of_a_stack::<K, StackCell<V>>();
    push_then_pop::<K, V>();
    set_then_read::<K, V>();
}

/// Discard: every packet is dropped.
pub fn discard_run(
    config: &ClickConfig,
    element: u32,
    net: &Net,
    node: NodeId,
    state: &State,
    values: &[Num],
)
    ensures { RunsAs config.now element (network net.now) node values.now (carried_of state.now) class.discard
        (λ e unknowns. rows.dropped) }
{}

/// Tee: an equal copy leaves by each output.
pub fn tee_run(
    config: &ClickConfig,
    element: u32,
    net: &Net,
    node: NodeId,
    state: &State,
    values: &[Num],
)
    ensures { (outputs : Option ℕ) → RunsAs config.now element (network net.now) node values.now (carried_of state.now)
        (class.tee outputs)
        (λ e unknowns. rows.tee_row (tee_outputs outputs (leads_of e.name config.now.connections))
        (carried_of state.now)) }
{}

/// DecIPTTL: a packet whose time to live is at most 1 leaves by output 1 if that is connected, and is
/// dropped if not; any other leaves by output 0, with a time to live that is less by 1.
pub fn dec_ip_ttl_run(
    config: &ClickConfig,
    element: u32,
    net: &Net,
    node: NodeId,
    state: &State,
    values: &[Num],
)
    ensures { RunsAs config.now element (network net.now) node values.now (carried_of state.now) class.dec_ip_ttl
        (λ e unknowns. rows.dec_ip_ttl_row (scene_at (network net.now) node)
        (leads_of e.name config.now.connections).second (carried_of state.now)) }
{}

/// EtherMirror: the addresses of the Ethernet header are exchanged. That the metadata are stacks is told by
/// a call that takes memory.
pub fn ether_mirror_run(
    alloc: Global,
    config: &ClickConfig,
    element: u32,
    net: &Net,
    node: NodeId,
    state: &State,
    values: &[Num],
)
    ensures { RunsAs config.now element (network net.now) node values.now (carried_of state.now) class.ether_mirror
        (λ e unknowns. rows.ether_mirror_row (scene_at (network net.now) node) (carried_of state.now)) }
{
    let _stacks = state.scopes.metas(alloc);
    hold_then_pop::<(Option<NodeId>, NameId), Num>();
}

/// IPMirror: the addresses of the IP header are exchanged, and the ports where the protocol is TCP or UDP.
/// That the metadata are stacks is told by a call that takes memory.
pub fn ip_mirror_run(
    alloc: Global,
    config: &ClickConfig,
    element: u32,
    net: &Net,
    node: NodeId,
    state: &State,
    values: &[Num],
)
    ensures { RunsAs config.now element (network net.now) node values.now (carried_of state.now) class.ip_mirror
        (λ e unknowns. rows.ip_mirror_row (scene_at (network net.now) node) (carried_of state.now)) }
{
    let _stacks = state.scopes.metas(alloc);
    hold_then_pop::<(Option<NodeId>, NameId), Num>();
}

/// Strip: the cells of the Ethernet header are removed, and its tag.
pub fn strip_run(
    config: &ClickConfig,
    element: u32,
    net: &Net,
    node: NodeId,
    state: &State,
    values: &[Num],
)
    ensures { RunsAs config.now element (network net.now) node values.now (carried_of state.now) class.strip
        (λ e unknowns. rows.strip_row (scene_at (network net.now) node) (carried_of state.now)) }
{}

/// EtherEncap: an Ethernet header with the arguments is put before that of IP.
pub fn ether_encap_run(
    config: &ClickConfig,
    element: u32,
    net: &Net,
    node: NodeId,
    state: &State,
    values: &[Num],
)
    ensures { (kind source destination : ℕ)
        → RunsAs config.now element (network net.now) node values.now (carried_of state.now)
        (class.ether_encap kind source destination)
        (λ e unknowns. rows.ether_encap_row (scene_at (network net.now) node) kind source destination
        (carried_of state.now)) }
{}

/// IPFilter: the first rule that a packet passes lets it through or drops it, and one that passes none is
/// dropped.
pub fn ip_filter_run(
    config: &ClickConfig,
    element: u32,
    net: &Net,
    node: NodeId,
    state: &State,
    values: &[Num],
)
    ensures { (rules : List RuleSeen) → RunsAs config.now element (network net.now) node values.now
        (carried_of state.now) (class.ip_filter rules)
        (λ e unknowns. rows.ip_filter_row (scene_at (network net.now) node) rules (carried_of state.now)) }
{}

/// IPClassifier: a packet leaves by the output of the first pattern that it passes, and one that passes
/// none is dropped.
pub fn ip_classifier_run(
    config: &ClickConfig,
    element: u32,
    net: &Net,
    node: NodeId,
    state: &State,
    values: &[Num],
)
    ensures { (patterns : List (List Primitive))
        → RunsAs config.now element (network net.now) node values.now (carried_of state.now)
        (class.ip_classifier patterns)
        (λ e unknowns. rows.ip_classifier_row (scene_at (network net.now) node) 0 patterns (carried_of state.now)) }
{}
