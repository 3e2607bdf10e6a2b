//! Hops, which are counted at input ports alone.

ghost use Rattle.std.specs.Prelude.{◌≡◌, ℕ, List, map};
ghost use Rattle.sn_width.specs.declared.ids.NodeId.{NodeId};
ghost use Rattle.sefl_meaning.specs.Network.{Network};
ghost use Rattle.sefl_meaning.specs.Runs.{Progress};
ghost use Rattle.sefl_meaning.specs.Walks.{by_way_of, place_at};
ghost use Rattle.cell_values.specs.Hops.{AreLeft, behind_arrival, from_port};

use sefl_syntax::Side;

/// How many hops are left behind the code of a port that is arrived at with `hops`; None at an input port with no hop left, whose
/// code does not run.
#[tactic(auto, using(crate::proofs::Arriving::less_inward, crate::proofs::Arriving::goes_inward))]
pub fn hops_behind(side: Side, hops: u32) -> Option<u32>
    ensures left { AreLeft side hops result }
    ensures walks { (net : Network) (v : List ℕ) (unknowns : ℕ) (node : NodeId) (port : ℕ) (p : Progress ℕ)
        → from_port net v unknowns side hops node port p
        ≡ map (by_way_of (place_at node side port) p) (behind_arrival net v unknowns side node port result p) }
{
    match side {
        Side::Inward => hops.checked_sub(1),
        Side::Outward => Some(hops),
    }
}
