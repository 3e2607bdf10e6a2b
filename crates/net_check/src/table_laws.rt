//! Laws of the definitions of places. Each is the contract of a function that does nothing.

ghost use Rattle.std.specs.Prelude.{◌≡◌, ℕ, List, length, None, Some};
ghost use Rattle.sefl_syntax.specs.declared.net.Side.{Side};
ghost use Rattle.sefl_syntax.specs.Trees.{CodeTree, NetTree};
ghost use Rattle.job_items.specs.Items.{Place, code_items};
ghost use Rattle.job_items.specs.Nodes.{ports_of};
ghost use Rattle.net_check.specs.Laws.{IsCodePlace, AreInstrSites, AreLoose, IsLinked, IsNamed, place_on};
ghost use Rattle.net_check.specs.Places.{Port, code_of, code_place, code_size, link_from, node_position};

/// A port's code has a place exactly where the port has code: the node has the code at its index, and
/// the item at its site begins it.
pub fn codes_have_places()
    ensures none { (net : NetTree) (node port : ℕ) (side : Side)
        → code_place net node side port ≡ None → code_of net node side port ≡ None }
    ensures some { (net : NetTree) (node port : ℕ) (side : Side) (place : ℕ × ℕ)
        → code_place net node side port ≡ Some place → (code : CodeTree) × IsCodePlace net node side port place code }
{}

/// The site of an instruction is that of its port's code, plus one, plus the number of the code's
/// instructions that begin before it.
pub fn instrs_have_sites()
    ensures sites { (net : NetTree) (node port : ℕ) (side : Side) (place : ℕ × ℕ) (code : CodeTree)
        (found : IsCodePlace net node side port place code)
        → AreInstrSites net place.0 (place_on (ports_of found.decl.body) side) code }
    ensures count { (place : Place) (code : CodeTree) → length (code_items place code) ≡ code_size code }
{}

/// The position of a name is that of a node that has it, and a name without one is no node's.
pub fn positions_have_names()
    ensures some { (net : NetTree) (name : List ℕ) (node : ℕ)
        → node_position net name ≡ Some node → IsNamed net node name }
    ensures none { (net : NetTree) (name : List ℕ) (node : ℕ)
        → node_position net name ≡ None → IsNamed net node name → ⊥ }
{}

/// What is told of an output port is where a link of the net leads that leaves it; where nothing is told
/// no link leaves it and leads to a node.
pub fn links_are_told()
    ensures some { (net : NetTree) (node port : ℕ) (end : Port)
        → link_from net node port ≡ Some end → IsLinked (node_position net) net.links (node, port) end }
    ensures none { (net : NetTree) (node port : ℕ)
        → link_from net node port ≡ None → AreLoose (node_position net) net.links (node, port) }
{}
