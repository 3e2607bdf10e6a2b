//! Where code runs.

ghost use Rattle.std.specs.Prelude.{◌≡◌};
ghost use Rattle.sefl_meaning.specs.Carried.{base_tag, bound_key, owner_of};
ghost use Rattle.sefl_meaning.specs.Network.{name_id, tag_id};
ghost use Rattle.net_check.specs.Network.{network};

use net_check::Net;
use sefl_meaning::Iteration;
use sefl_syntax::{Addr, Name, Scope};
use sn_tree::Shared;
use sn_width::{LayoutFault, NameId, NodeId, TagId};

/// Where code runs: in a box of a net, in the iterations of the Fors round it, the innermost on top.
#[derive(Clone, Copy)]
pub struct Scene<'a> {
    pub net: &'a Net,
    pub node: NodeId,
    pub iterations: &'a Shared<Iteration>,
}

impl<'a> Scene<'a> {
    /// The id of a tag name.
    pub fn tag_id(&self, name: &Name) -> TagId
        ensures { result ≡ tag_id (network self.now.net.now) name.now }
    {
        match self.net.tag_id(name) {
            None => TagId(self.net.tag_count()),
            Some(id) => id,
        }
    }

    /// The id of a metadata name.
    pub fn name_id(&self, name: &Name) -> NameId
        ensures { result ≡ name_id (network self.now.net.now) name.now }
    {
        match self.net.name_id(name) {
            None => NameId(self.net.name_count()),
            Some(id) => id,
        }
    }

    /// The tag that an address is counted from.
    pub fn base(&self, addr: &Addr) -> Option<TagId>
        ensures { result ≡ base_tag (network self.now.net.now) addr.now }
    {
        match &addr.tag {
            None => None,
            Some(tag) => Some(self.tag_id(tag)),
        }
    }

    /// The owner of metadata.
    pub fn owner(&self, scope: Scope) -> Option<NodeId>
        ensures { result ≡ owner_of scope self.now.node }
    {
        match scope {
            Scope::Global => None,
            Scope::Local => Some(self.node),
        }
    }

    /// The metadata that the innermost For with the variable stands at.
    pub fn bound(&self, var: &Name) -> Result<(Option<NodeId>, NameId), LayoutFault>
        ensures { result ≡ bound_key self.now.iterations.now var.now }
    {
        for iteration in self.iterations.iter() {
            if *var == iteration.var {
                return Ok((iteration.owner, iteration.name));
            }
        }
        Err(LayoutFault::NoMeta)
    }
}
