//! What a reference reads in a state.

ghost use Rattle.std.specs.Prelude.{◌≡◌};
ghost use Rattle.cell_stacks.specs.Outcome.{lent};
ghost use Rattle.net_check.specs.Network.{network};
ghost use Rattle.sefl_meaning.specs.Carried.{base_tag, owner_of, read_at, scene_at};
ghost use Rattle.sefl_meaning.specs.Network.{name_id, tag_id};

use lin_term::Term;
use net_check::Net;
use sefl_syntax::{Addr, Name, Scope, Target};
use sn_width::{LayoutFault, NameId, NodeId, TagId, Width};
use sym_state::SymState;

/// The id of a tag name.
fn tag_of(net: &Net, name: &Name) -> TagId
    ensures { result ≡ tag_id (network net.now) name.now }
{
    match net.tag_id(name) {
        None => TagId(net.tag_count()),
        Some(id) => id,
    }
}

/// The id of a metadata name.
fn name_of(net: &Net, name: &Name) -> NameId
    ensures { result ≡ name_id (network net.now) name.now }
{
    match net.name_id(name) {
        None => NameId(net.name_count()),
        Some(id) => id,
    }
}

/// The tag that an address is counted from.
fn base_of(net: &Net, addr: &Addr) -> Option<TagId>
    ensures { result ≡ base_tag (network net.now) addr.now }
{
    match &addr.tag {
        None => None,
        Some(tag) => Some(tag_of(net, tag)),
    }
}

/// Whose metadata a name is at a node.
fn owner_of(scope: Scope, node: NodeId) -> Option<NodeId>
    ensures { result ≡ owner_of scope node }
{
    match scope {
        Scope::Global => None,
        Scope::Local => Some(node),
    }
}

/// What a reference reads at a width, where the code of a node begins. No variable of a For is bound there.
pub(crate) fn read<'a>(
    net: &Net,
    node: NodeId,
    state: &'a SymState,
    width: Width,
    target: &Target,
) -> Result<&'a Term, LayoutFault>
    ensures { lent result ≡ read_at (scene_at (network net.now) node) width target.now state.now.carried }
{
    match target {
        Target::Header { addr, .. } => {
            state.layers().read(base_of(net, addr), addr.offset, width)
        }
        Target::Meta { scope, name, .. } => {
            state
                .scopes()
                .read(owner_of(*scope, node), name_of(net, name), width)
        }
        Target::Bound { .. } => Err(LayoutFault::NoMeta),
    }
}
