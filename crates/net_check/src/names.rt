//! Nodes by name.

ghost use Rattle.std.specs.Prelude.{◌≡◌, ℕ, List, cond, map, position, bytes_eq, IfOk, OnOk, None, Some};
ghost use Rattle.std.specs.Option.{option_or};
ghost use Rattle.sefl_syntax.specs.Views.{decl_tree};
ghost use Rattle.net_check.specs.Lookups.{position_at};
ghost use Rattle.net_check.specs.Places.{has_name};

use crate::sizes::id_of;
use sefl_syntax::{Name, NodeDecl};
use sn_width::{NoMemory, NodeId};
use std::alloc::Global;
use std::collections::BTreeMap;

/// The ids of nodes by their names. Of nodes of one name the first counts.
pub(crate) fn ids_of(alloc: Global, nodes: &[NodeDecl]) -> Result<BTreeMap<Name, NodeId>, NoMemory>
    ensures { IfOk result (λ ids. (name : List ℕ) → position_at ids.entries name
        ≡ position (has_name name) (map decl_tree nodes.now)) }
{
    let mut ids = BTreeMap::new(alloc);
    for (number, node) in nodes.iter().enumerate() {
        enter_name(&mut ids, &node.name, id_of(number)?)?;
    }
    Ok(ids)
}

/// Enters the id, unless the name has one.
fn enter_name(ids: &mut BTreeMap<Name, NodeId>, name: &Name, id: NodeId) -> Result<(), NoMemory>
    ensures { OnOk result ((other : List ℕ) → position_at ids.new.entries other
        ≡ option_or (position_at ids.old.entries other) (cond (bytes_eq other name.now) (Some id.0) None)) }
{
    if ids.contains_key(name) {
        return Ok(());
    }
    let own = name.clone()?;
    ids.insert(own, id)?;
    Ok(())
}
