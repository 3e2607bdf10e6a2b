//! The runs of boxes that a job names as tables.

ghost use Rattle.std.specs.Prelude.{◌≡◌, ◌<◌, ◌^◌, ℕ, List, Ok, Some, slice_get};
ghost use Rattle.sefl_syntax.specs.Trees.{DeclTree, JobTree, table};
ghost use Rattle.job_items.specs.AtomRules.{width_of};
ghost use Rattle.table_nodes.specs.TableNodes.{bits_of, destination};
ghost use Rattle.net_check.specs.Network.{network};
ghost use Rattle.net_check.specs.Sound.{IsNetOf};
ghost use Rattle.sefl_meaning.specs.Carried.{read_at, scene_at};
ghost use Rattle.sefl_meaning.specs.View.{carried_of};
ghost use Rattle.command_edge.specs.Files.{Files};
ghost use Rattle.command_runs.specs.Tables.{IsFilled};
ghost use Rattle.model_laws.specs.Boxes.{LeavesByFile};

use crate::tables::table_run;
use fib_model::laws::fib_files_send;
use mac_model::laws::mac_files_send;
use net_check::Net;
use sefl_meaning::State;
use sefl_syntax::{Style, TableKind};
use sn_width::{NodeId, Num};

/// In the net of a job whose tables have code: copies of a packet whose destination reads the address leave
/// a box that the job names as a table by exactly the ports that the table in its file gives for the address,
/// in each style, whatever was chosen on the way there.
pub fn table_box_run(
    net: &Net,
    node: NodeId,
    kind: TableKind,
    style: Style,
    state: &State,
    address: Num,
    values: &[Num],
)
    requires fits { address < 2 ^ bits_of kind }
    requires reads { read_at (scene_at (network net.now) node) (width_of (destination kind)) (destination kind)
        (carried_of state.now) ≡ Ok address }
    ensures { (files : Files) (j full : JobTree) (name : List ℕ) (d : DeclTree) → IsFilled files j full
        → IsNetOf full (network net.now)
        → slice_get j.net.nodes node.0 ≡ Some d → d.body ≡ table kind name style
        → LeavesByFile files kind name (network net.now) node values.now (carried_of state.now) address }
{
    mac_files_send();
    fib_files_send();
    table_run(net, node, kind, state, address, values);
}
