//! The law of the nodes of tables.

ghost use Rattle.std.specs.Prelude.{◌≡◌, ℕ, List, Ok};
ghost use Rattle.sefl_syntax.specs.declared.net.Side.{Side};
ghost use Rattle.sefl_syntax.specs.Trees.{NodeTree};
ghost use Rattle.job_items.specs.AtomRules.{width_of};
ghost use Rattle.net_check.specs.Network.{code_at, network};
ghost use Rattle.table_nodes.specs.Exits.{code_in, exits};
ghost use Rattle.table_nodes.specs.TableNodes.{destination};
ghost use Rattle.sefl_meaning.specs.Carried.{read_at, scene_at};
ghost use Rattle.sefl_meaning.specs.View.{carried_of};
ghost use Rattle.model_laws.specs.Leaving.{leaves_by};
ghost use Rattle.model_laws.specs.Tables.{IsTableNode};

use net_check::Net;
use sefl_meaning::State;
use sefl_syntax::TableKind;
use sn_width::{NodeId, Num};

/// Copies of a packet whose destination reads the address leave the node of a table by exactly the ports
/// that `exits` gives for that address, whatever was chosen on the way there.
pub fn table_run(
    net: &Net,
    node: NodeId,
    kind: TableKind,
    state: &State,
    address: Num,
    values: &[Num],
)
    requires reads { read_at (scene_at (network net.now) node) (width_of (destination kind)) (destination kind)
        (carried_of state.now) ≡ Ok address }
    ensures { (tree : NodeTree) → IsTableNode kind tree
        → ((side : Side) (port : ℕ) → code_at (network net.now) node side port ≡ code_in tree side port)
        → (unknowns begun : ℕ) (choices : List ℕ)
        → leaves_by (network net.now) values.now unknowns node
        (record { state = carried_of state.now; choices = choices; begun = begun })
        ≡ exits tree address }
{}
