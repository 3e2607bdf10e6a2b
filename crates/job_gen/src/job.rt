//! The job: its boxes, the links between them, and the packet that comes into the first.

ghost use Rattle.std.specs.Prelude.{◌≡◌, ◌<◌, ◌++◌, map, IfOk, OnOk};
ghost use Rattle.std.specs.List.{flat_map};
ghost use Rattle.sefl_syntax.specs.Views.{decl_tree, injection_tree, job_tree};
ghost use Rattle.job_gen.specs.Grown.{box_name, box_of, grown, injection, link_to, links_of, numbers_from, unknown};

use crate::router::{destination, network_layer, router, time_to_live};
use crate::split::splits;
use sefl_syntax::{Addr, Body, Job, Link, Name, NodeDecl, RawField, RawInjection, RawNet, Target};
use sn_width::NoMemory;
use std::alloc::Global;

#[tactic(auto, using(crate::proofs::BoxNames::box_name_is_name))]
fn box_name(alloc: Global, number: u32) -> Result<Name, NoMemory>
    ensures { IfOk result (λ name. name ≡ box_name number) }
{
    let text = format!(in alloc; "n{number}")?;
    let Some(name) = Name::of(alloc, &text)? else {
        unreachable!();
    };
    Ok(name)
}

fn boxes_of(alloc: Global, seed: u64, boxes: u32) -> Result<Vec<NodeDecl>, NoMemory>
    ensures { IfOk result (λ decls. map decl_tree decls.items ≡ map (box_of seed) (numbers_from 0 boxes)) }
{
    let splits = splits(alloc, seed, boxes)?;
    let mut decls = Vec::new(alloc);
    for number in 0..boxes {
        let node = router(alloc, splits[number as usize].cut)?;
        decls.push(NodeDecl {
            name: box_name(alloc, number)?,
            body: Body::Code(node),
        })?;
    }
    Ok(decls)
}

/// Adds a link to the box, where it is one of `boxes` boxes.
fn add_link(
    links: &mut Vec<Link>,
    alloc: Global,
    boxes: u32,
    number: u32,
    port: u32,
    child: u64,
) -> Result<(), NoMemory>
    ensures { OnOk result (links.new.items ≡ links.old.items ++ link_to boxes number port child) }
{
    if child >= u64::from(boxes) {
        return Ok(());
    }
    links.push(Link {
        from: box_name(alloc, number)?,
        from_port: port,
        to: box_name(alloc, child as u32)?,
        to_port: 0,
    })?;
    Ok(())
}

fn links_of(alloc: Global, boxes: u32) -> Result<Vec<Link>, NoMemory>
    ensures { IfOk result (λ links. links.items ≡ flat_map (links_of boxes) (numbers_from 0 boxes)) }
{
    let mut links = Vec::new(alloc);
    for number in 0..boxes {
        let first = 2 * u64::from(number) + 1;
        add_link(&mut links, alloc, boxes, number, 0, first)?;
        add_link(&mut links, alloc, boxes, number, 1, first + 1)?;
    }
    Ok(links)
}

fn unknown(target: Target) -> RawField
    ensures { result ≡ unknown target }
{
    RawField {
        target,
        value: None,
    }
}

fn injection(alloc: Global) -> Result<RawInjection, NoMemory>
    ensures { IfOk result (λ i. injection_tree i ≡ injection) }
{
    let addr = Addr {
        tag: None,
        offset: 112,
    };
    let mut tags = Vec::new(alloc);
    tags.push((network_layer(alloc)?, addr))?;
    let mut fields = Vec::new(alloc);
    fields.push(unknown(time_to_live(alloc)?))?;
    fields.push(unknown(destination(alloc)?))?;
    Ok(RawInjection {
        node: box_name(alloc, 0)?,
        port: 0,
        tags,
        fields,
        tests: Vec::new(alloc),
    })
}

/// The job of `boxes` boxes that grows from the seed, as a tree: box i is linked to the boxes 2i + 1 and 2i + 2, and cuts the
/// addresses that come to it in two, at a place that the seed draws. Each box counts the packet's time to live down, and fails
/// where it is at most 1.
pub fn grow(alloc: Global, seed: u64, boxes: u32) -> Result<Job, NoMemory>
    ensures { IfOk result (λ job. job_tree job ≡ grown seed boxes) }
{
    let nodes = boxes_of(alloc, seed, boxes)?;
    let links = links_of(alloc, boxes)?;
    let injection = injection(alloc)?;
    Ok(Job {
        net: RawNet { nodes, links },
        injection,
        asks: Vec::new(alloc),
    })
}
