//! What a run finds at a port: its code, its link, and the end where its code failed.

ghost use Rattle.std.specs.Prelude.{◌≡◌, suc, IfOk};
ghost use Rattle.sefl_syntax.specs.Views.{code_tree};
ghost use Rattle.net_check.specs.Network.{code_at, network};
ghost use Rattle.sefl_meaning.specs.Network.{code_of, link_of};
ghost use Rattle.sefl_meaning.specs.declared.walk.End.TheVariants.{Failed as FailedAt};

use net_check::{Net, behind_item};
use sefl_meaning::{End, Failure};
use sefl_syntax::{Instr, Side};
use sn_width::{NoMemory, NodeId, Site};

/// The site of a port's code; 0 where it has none.
fn code_site(net: &Net, node: NodeId, side: Side, port: u32) -> u32
    ensures { result ≡ (code_of (network net.now) node side port).0 }
{
    match net.code_site(node, side, port) {
        None => 0,
        Some(site) => site.0,
    }
}

/// The site of the first instruction of a port's code; an error where its number would not fit.
pub fn first_site(net: &Net, node: NodeId, side: Side, port: u32) -> Result<u32, NoMemory>
    ensures { IfOk result (λ site. site ≡ suc (code_of (network net.now) node side port).0) }
{
    behind_item(code_site(net, node, side, port))
}

/// The code of a port; none where it has no code, or where there is no such node.
pub fn code_of<'a>(net: &'a Net, node: NodeId, side: Side, port: u32) -> &'a [Instr]
    ensures { code_tree result.now ≡ code_at (network net.now) node side port }
{
    if node.0 >= net.node_count() {
        return &[];
    }
    net.code(node, side, port)
}

/// The node and the input port that the link from an output port leads to; None exactly where there is no link, and what leaves there
/// is delivered.
#[tactic(auto, using(crate::proofs::Linking::link_known))]
pub fn link_of(net: &Net, node: NodeId, port: u32) -> Option<(NodeId, u32)>
    ensures { result ≡ link_of (network net.now) node port }
{
    net.link(node, port)
}

/// The end of a run that failed at a site.
pub fn failed_at(failure: Failure, site: u32) -> End
    ensures { result ≡ FailedAt failure (record { 0 = site }) }
{
    End::Failed {
        failure,
        site: Site(site),
    }
}
