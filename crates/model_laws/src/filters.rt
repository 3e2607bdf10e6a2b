//! The law of the nodes of filter lists.

ghost use Rattle.std.specs.Prelude.{◌≡◌, ℕ, List};
ghost use Rattle.sefl_syntax.specs.declared.net.Side.{Side};
ghost use Rattle.sefl_syntax.specs.declared.net.Side.TheVariants.{Inward};
ghost use Rattle.net_check.specs.Network.{code_at, network};
ghost use Rattle.table_nodes.specs.Exits.{code_in};
ghost use Rattle.acl_model.specs.Nodes.{acl_node, fields};
ghost use Rattle.sefl_meaning.specs.Carried.{scene_at};
ghost use Rattle.sefl_meaning.specs.View.{carried_of};
ghost use Rattle.sefl_meaning.specs.Walks.{run_port};
ghost use Rattle.model_laws.specs.Elements.{progress};
ghost use Rattle.model_laws.specs.Filters.{AllRead, filter_row};
ghost use Rattle.model_laws.specs.Outcomes.{outcome};

use acl_model::Acl;
use net_check::Net;
use sefl_meaning::State;
use sefl_syntax::Style;
use sn_width::{NodeId, Num};

/// A packet that enters the node of a filter list leaves by port 0, as it came, exactly where the first rule that contains it
/// permits; any other fails with the text `denied`, whatever was chosen on the way there.
pub fn acl_run(
    acl: &Acl,
    style: Style,
    net: &Net,
    node: NodeId,
    state: &State,
    packet: [Num; 5],
    values: &[Num],
)
    requires style { style ≡ Style.Egress → ⊥ }
    requires codes { (side : Side) (port : ℕ) → code_at (network net.now) node side port
        ≡ code_in (acl_node style acl.now) side port }
    requires reads { AllRead (scene_at (network net.now) node) fields packet (carried_of state.now) }
    ensures { (unknowns begun : ℕ) (choices : List ℕ)
        → outcome (run_port (network net.now) values.now unknowns node Inward 0
        (progress (carried_of state.now) choices begun))
        ≡ filter_row acl.now packet (carried_of state.now) }
{
    let _rules = acl.rules();
}
