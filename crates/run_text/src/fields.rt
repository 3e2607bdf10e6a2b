//! What a packet carries.

ghost use Rattle.std.specs.Prelude.{map};
ghost use Rattle.serde_json.specs.Data.{string};
ghost use Rattle.net_check.specs.Network.{network};
ghost use Rattle.run_text.specs.Tokens.{Gains};
ghost use Rattle.run_text.specs.Held.{held_head, held_meta};
ghost use Rattle.run_text.specs.Names.{meta_name, tag_name};
ghost use Rattle.run_text.specs.Forms.{owner_data, head_data, meta_data, tag_data, heads_data, metas_data, tags_data, fields_data};

use crate::JsonText;
use crate::cells::{CellValue, write_cells};
use crate::json_laws::{lists_are_written, objects_are_written};
use crate::names::{name_text, node_text, tag_text};
use cell_stacks::Cell;
use net_check::Net;
use sn_width::{NameId, NoMemory, NodeId, TagId};
use std::alloc::Global;

/// The name of the owner, null for a global.
#[tactic(auto, unfolding(crate::specs::Forms::owner_data))]
fn write_owner(out: &mut JsonText, net: &Net, owner: Option<NodeId>) -> Result<(), NoMemory>
    ensures { Gains (owner_data (network net.now) owner) result out.old out.new }
{
    match owner {
        None => out.null(),
        Some(node) => out.string(node_text(net, node)),
    }
}

fn write_meta_name(out: &mut JsonText, net: &Net, name: NameId) -> Result<(), NoMemory>
    ensures { Gains (string (meta_name (network net.now) name)) result out.old out.new }
{
    out.string(name_text(net, name))
}

fn write_tag_name(out: &mut JsonText, net: &Net, tag: TagId) -> Result<(), NoMemory>
    ensures { Gains (string (tag_name (network net.now) tag)) result out.old out.new }
{
    out.string(tag_text(net, tag))
}

#[tactic(auto, unfolding(crate::specs::Forms::head_data))]
/// An address in bits, and its cells.
pub fn write_head<V: CellValue>(
    alloc: Global,
    out: &mut JsonText,
    address: i32,
    cells: &[Cell<V>],
) -> Result<(), NoMemory>
    ensures { Gains (head_data V.given address cells.now) result out.old out.new }
{
    lists_are_written();
    out.begin_list()?;
    out.integer(address)?;
    write_cells(alloc, out, cells)?;
    out.end_list()?;
    Ok(())
}

#[tactic(auto, unfolding(crate::specs::Forms::heads_data))]
fn write_heads<V: CellValue>(
    alloc: Global,
    out: &mut JsonText,
    heads: &[(i32, Vec<Cell<V>>)],
) -> Result<(), NoMemory>
    ensures { Gains (heads_data V.given (map held_head heads.now)) result out.old out.new }
{
    out.begin_list()?;
    for (address, cells) in heads {
        write_head(alloc, out, *address, cells)?;
    }
    out.end_list()?;
    Ok(())
}

#[tactic(auto, unfolding(crate::specs::Forms::meta_data))]
/// The name of the owner, null for a global, a name of metadata, and its cells.
pub fn write_meta<V: CellValue>(
    alloc: Global,
    out: &mut JsonText,
    net: &Net,
    owner: Option<NodeId>,
    name: NameId,
    cells: &[Cell<V>],
) -> Result<(), NoMemory>
    ensures { Gains (meta_data V.given (network net.now) owner name cells.now) result out.old out.new }
{
    lists_are_written();
    out.begin_list()?;
    write_owner(out, net, owner)?;
    write_meta_name(out, net, name)?;
    write_cells(alloc, out, cells)?;
    out.end_list()?;
    Ok(())
}

#[tactic(auto, unfolding(crate::specs::Forms::metas_data))]
fn write_metas<V: CellValue>(
    alloc: Global,
    out: &mut JsonText,
    net: &Net,
    metas: &[(Option<NodeId>, NameId, Vec<Cell<V>>)],
) -> Result<(), NoMemory>
    ensures { Gains (metas_data V.given (network net.now) (map held_meta metas.now)) result out.old out.new }
{
    out.begin_list()?;
    for (owner, name, cells) in metas {
        write_meta(alloc, out, net, *owner, *name, cells)?;
    }
    out.end_list()?;
    Ok(())
}

/// The name of a tag, and an address in bits.
pub fn write_tag(out: &mut JsonText, net: &Net, tag: TagId, address: i32) -> Result<(), NoMemory>
    ensures { Gains (tag_data (network net.now) (tag, address)) result out.old out.new }
{
    lists_are_written();
    out.begin_list()?;
    write_tag_name(out, net, tag)?;
    out.integer(address)?;
    out.end_list()?;
    Ok(())
}

#[tactic(auto, unfolding(crate::specs::Forms::tags_data))]
fn write_tags(out: &mut JsonText, net: &Net, tags: &[(TagId, i32)]) -> Result<(), NoMemory>
    ensures { Gains (tags_data (network net.now) tags.now) result out.old out.new }
{
    out.begin_list()?;
    for (tag, address) in tags {
        write_tag(out, net, *tag, *address)?;
    }
    out.end_list()?;
    Ok(())
}

/// Tags with their addresses, header cells by address, and metadata with the name of the owner, null
/// for a global. All addresses are in bits. An id that is none of the net's has an empty name.
#[tactic(auto, unfolding(crate::specs::Forms::fields_data))]
pub fn write_fields<V: CellValue>(
    alloc: Global,
    out: &mut JsonText,
    net: &Net,
    tags: &[(TagId, i32)],
    heads: &[(i32, Vec<Cell<V>>)],
    metas: &[(Option<NodeId>, NameId, Vec<Cell<V>>)],
) -> Result<(), NoMemory>
    ensures { Gains (fields_data V.given (network net.now)
        (record { tags = tags.now; heads = map held_head heads.now; metas = map held_meta metas.now }))
        result out.old out.new }
{
    objects_are_written();
    out.begin_object()?;
    out.key("heads")?;
    write_heads(alloc, out, heads)?;
    out.key("metas")?;
    write_metas(alloc, out, net, metas)?;
    out.key("tags")?;
    write_tags(out, net, tags)?;
    out.end_object()?;
    Ok(())
}
