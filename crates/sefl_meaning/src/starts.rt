//! Laws of what is explored from an injection. Each is the contract of a function that does nothing.

ghost use Rattle.std.specs.Prelude.{◌≡◌, ◌↔◌, ℕ, Bool, List, Ok};
ghost use Rattle.std.specs.List.{AllByRecursion};
ghost use Rattle.sn_width.specs.declared.ids.NodeId.{NodeId};
ghost use Rattle.cell_stacks.specs.Outcome as outcome;
ghost use Rattle.net_check.specs.Keeping.{HasWidth};
ghost use Rattle.net_check.specs.Sound.{AreOfOneJob, IsAcceptedNet};
ghost use Rattle.sefl_meaning.specs.Network.{Network, Entry};
ghost use Rattle.sefl_meaning.specs.Carried.{Carried, scene_at};
ghost use Rattle.sefl_meaning.specs.Ids.{CarriesOwn, HasOwnIds, IsNode, IsOwnWalk};
ghost use Rattle.sefl_meaning.specs.Injected.{Starts, injected, passages_from, unknown_count};
ghost use Rattle.sefl_meaning.specs.Runs.{Progress};
ghost use Rattle.sefl_meaning.specs.Start.{Start, StartsAt, start_of, start_valued, tree_from};
ghost use Rattle.sefl_meaning.specs.Taken.{walks_of};
ghost use Rattle.sefl_meaning.specs.Trees as trees;
ghost use Rattle.sefl_meaning.specs.Valued.{Respects};
ghost use Rattle.sefl_meaning.specs.Values.{Values, numbers};
ghost use Rattle.sefl_meaning.specs.Walks as walks;

use crate::laws::{
    Truths, accepted_injections_go, runs_are_ways, valuing_commutes, widths_are_kept,
};
use net_check::laws::{found_names_ascend, names_are_known, packets_enter_a_node};
use net_check::table_laws::{codes_have_places, links_are_told, positions_have_names};

/// What is explored from an injection: the walks of a packet are those of its tree over numbers, a packet
/// starts exactly where all tests are true there, functions that respect the operations commute with it,
/// and an accepted injection has one.
pub fn injections_have_a_start<V: Drop, F: Truths, W: Drop, G: Truths>()
    ensures walks { (net : Network) (i : Entry) (v : List ℕ) (hops : ℕ) (s : Carried ℕ)
        → walks_of (tree_from (numbers v (unknown_count i)) net i hops s) ≡ passages_from net i v hops s }
    ensures starts { (net : Network) (i : Entry) (v : List ℕ) (hops : ℕ) (s : Carried ℕ)
        → Starts net i v s ↔ StartsAt net i v hops s }
    ensures valued { (fits : ℕ → V → Bool) (o : Values V F.Truth) (p : Values W G.Truth) (f : V → W)
        (g : F.Truth → G.Truth) → Respects fits o p f g
        → (net : Network) (i : Entry) (hops : ℕ) → start_of p net i hops
        ≡ outcome.on_ok (start_valued f g) (start_of o net i hops) }
    ensures goes { (o : Values V F.Truth) (net : Network) (i : Entry) (hops : ℕ) → AreOfOneJob net i
        → AllByRecursion HasWidth i.own.fields
        → (start : Start V F.Truth) × (start_of o net i hops ≡ Ok start) }
{
    runs_are_ways();
    valuing_commutes::<V, F, W, G>();
    widths_are_kept::<V, F>();
    accepted_injections_go::<V, F>();
}

/// The nodes, tags and metadata names that a run of an accepted net names are the net's own: from an
/// injection of its job, at each port, in all that is carried on the way, and on each walk of a packet.
pub fn ids_are_the_nets_own<V: Drop, F: Truths>()
    ensures injection { (o : Values V F.Truth) (net : Network) (i : Entry) → AreOfOneJob net i
        → (s : Carried V) → injected o (scene_at net i.node) i.own ≡ Ok s → IsNode net i.node × CarriesOwn net s }
    ensures trees { (o : Values V F.Truth) (net : Network) → IsAcceptedNet net
        → (hops port : ℕ) (node : NodeId) (p : Progress V) → IsNode net node → CarriesOwn net p.state
        → HasOwnIds net (trees.enter o net hops node port p) }
    ensures walks { (net : Network) → IsAcceptedNet net
        → (v : List ℕ) (unknowns hops port : ℕ) (node : NodeId) (p : Progress ℕ) → IsNode net node
        → CarriesOwn net p.state
        → AllByRecursion (IsOwnWalk net) (walks.enter net v unknowns hops node port p) }
{
    runs_are_ways();
    found_names_ascend();
    names_are_known();
    packets_enter_a_node();
    codes_have_places();
    links_are_told();
    positions_have_names();
}
