//! Fields of headers, as the cells of a job.

ghost use Rattle.std.specs.Prelude.{◌≡◌, ◌≤◌, IsTrue, Some, IfOk};
ghost use Rattle.sefl_syntax.specs.Name.{is_name};
ghost use Rattle.table_nodes.specs.Fields.{cell};

use sefl_syntax::{Addr, Name, Target};
use sn_width::{NoMemory, Width};
use std::alloc::Global;

/// A field of a header: of Ethernet (IEEE 802.3) 48, 48 and 16 bits, of IPv4 (RFC 791) 8, 8, 32 and 32
/// bits, of TCP (RFC 9293) and UDP (RFC 768) 16 bits each.
#[derive(Clone, Copy)]
pub enum Field {
    FrameDestination,
    FrameSource,
    FrameType,
    TimeToLive,
    Protocol,
    SourceAddress,
    DestinationAddress,
    SourcePort,
    DestinationPort,
}

/// The name that a text is.
pub fn named(alloc: Global, text: &str) -> Result<Name, NoMemory>
    requires { IsTrue (is_name text.now) }
    ensures { IfOk result (λ name. name ≡ text.now) }
{
    let Some(name) = Name::of(alloc, text)? else {
        unreachable!();
    };
    Ok(name)
}

/// The width of this many bits.
pub fn width_of(bits: u8) -> Width
    requires least { 1 ≤ bits }
    requires most { bits ≤ 128 }
    ensures { result ≡ bits }
{
    let Some(width) = Width::new(bits) else {
        unreachable!();
    };
    width
}

fn past(alloc: Global, tag: &str, offset: i32, bits: u8) -> Result<Target, NoMemory>
    requires name { IsTrue (is_name tag.now) }
    requires least { 1 ≤ bits }
    requires most { bits ≤ 128 }
    ensures { IfOk result (λ target. target ≡ Target.Header (record { tag = Some tag.now; offset = offset }) bits) }
{
    let addr = Addr {
        tag: Some(named(alloc, tag)?),
        offset,
    };
    Ok(Target::Header {
        addr,
        width: width_of(bits),
    })
}

/// The cell of a field.
pub fn cell(alloc: Global, field: Field) -> Result<Target, NoMemory>
    ensures { IfOk result (λ target. target ≡ cell field) }
{
    match field {
        Field::FrameDestination => past(alloc, "L2", 0, 48),
        Field::FrameSource => past(alloc, "L2", 48, 48),
        Field::FrameType => past(alloc, "L2", 96, 16),
        Field::TimeToLive => past(alloc, "L3", 64, 8),
        Field::Protocol => past(alloc, "L3", 72, 8),
        Field::SourceAddress => past(alloc, "L3", 96, 32),
        Field::DestinationAddress => past(alloc, "L3", 128, 32),
        Field::SourcePort => past(alloc, "L4", 0, 16),
        Field::DestinationPort => past(alloc, "L4", 16, 16),
    }
}

/// The same cell; the texts of names are shared.
pub(crate) fn copied(cell: &Target) -> Result<Target, NoMemory>
    ensures { IfOk result (λ target. target ≡ cell.now) }
{
    Ok(match cell {
        Target::Header { addr, width } => Target::Header {
            addr: Addr {
                tag: addr.tag.clone()?,
                offset: addr.offset,
            },
            width: *width,
        },
        Target::Meta { scope, name, width } => Target::Meta {
            scope: *scope,
            name: name.clone()?,
            width: *width,
        },
        Target::Bound { var, width } => Target::Bound {
            var: var.clone()?,
            width: *width,
        },
    })
}
