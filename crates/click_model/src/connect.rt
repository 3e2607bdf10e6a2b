//! The connections of a configuration.

ghost use Rattle.std.specs.Prelude.{◌≡◌, ◌<◌, true, Some, length, get_or, map, option_map, All, IfSome, IfOk, OnOk};
ghost use Rattle.std.specs.List.{list_any};
ghost use Rattle.sefl_lex.specs.Words.{is_name};
ghost use Rattle.click_text.specs.Items.{seen_item};
ghost use Rattle.click_model.specs.Connections.{is_output, seen_connected, joined_to, may_leave_by, may_leave, clashes, use_wrong, with_use, connected, connected_from, nothing_connected};

use crate::declare::{Known, known_of, name_of};
use crate::flaw::{Flaw, Wrong, noted};
use click_text::Item;
use sefl_syntax::{Link, Name};
use sn_width::NoMemory;
use std::alloc::Global;
use std::collections::{BTreeMap, BTreeSet};

/// What was connected so far.
#[derive(Drop)]
pub(crate) struct Connected {
    /// The outputs that connections leave by.
    pub used: BTreeSet<(Name, u32)>,
    pub links: Vec<Link>,
    pub flaw: Option<Flaw>,
}

fn first_of<'a>(items: &[Item<'a>]) -> Item<'a>
    requires { 0 < length items.now }
    ensures { result ≡ get_or items.now 0 result }
{
    items[0]
}

/// The item that a connection leads to from the one before, if there is one.
fn joined_to<'a>(items: &[Item<'a>]) -> Option<Item<'a>>
    requires { All (λ item. is_name item.name.now ≡ true) items.now }
    ensures name { IfSome result (λ item. is_name item.name.now ≡ true) }
    ensures item { option_map seen_item result ≡ joined_to (map seen_item items.now) }
{
    let item = *items.first()?;
    if item.joined { Some(item) } else { None }
}

fn may_leave_by(most: Option<u64>, port: u32) -> bool
    ensures { result ≡ may_leave_by most port }
{
    match most {
        None => true,
        Some(most) => u64::from(port) < most,
    }
}

fn may_leave(known: Option<Known>, port: u32) -> bool
    ensures { result ≡ may_leave known port }
{
    match known {
        None => true,
        Some(known) => may_leave_by(known.most, port),
    }
}

fn is_used(used: &BTreeSet<(Name, u32)>, output: &(Name, u32)) -> bool
    ensures { result ≡ list_any (is_output output.now) used.now.keys }
{
    used.contains(output)
}

/// Whether a connection from the output to the input takes a port that is not free.
fn clashes(
    known: Option<Known>,
    used: &BTreeSet<(Name, u32)>,
    output: &(Name, u32),
    input: u32,
) -> bool
    ensures { result ≡ clashes known used.now.keys output.now input }
{
    input != 0 || !may_leave(known, output.1) || is_used(used, output)
}

fn use_wrong(clashes: bool, known: Option<Known>) -> Option<Wrong>
    ensures { result ≡ use_wrong clashes known }
{
    if clashes {
        return Some(Wrong::PortClash);
    }
    match known {
        None => Some(Wrong::NoElement),
        Some(_) => None,
    }
}

fn link_of(output: &(Name, u32), to: Name, to_port: u32) -> Result<Link, NoMemory>
    ensures { IfOk result (λ link. link ≡ record {
      from = output.now.0;
      from_port = output.now.1;
      to = to;
      to_port =
          to_port;
    }) }
{
    Ok(Link {
        from: output.0.clone()?,
        from_port: output.1,
        to,
        to_port,
    })
}

impl Connected {
    fn connect(
        &mut self,
        alloc: Global,
        line: u64,
        output: (Name, u32),
        known: Option<Known>,
        next: Item<'_>,
    ) -> Result<(), NoMemory>
        requires { is_name next.name.now ≡ true }
        ensures { OnOk result (seen_connected self.new
            ≡ with_use (seen_connected self.old) line output known (Some (seen_item next.entry))) }
    {
        let to = name_of(alloc, next.name)?;
        let link = link_of(&output, to, next.input)?;
        let clashes = clashes(known, &self.used, &output, next.input);
        self.flaw = noted(self.flaw, line, use_wrong(clashes, known));
        self.links.push(link)?;
        self.used.insert(output)?;
        Ok(())
    }

    /// An item, and the one that a connection leads to from it.
    fn take(
        &mut self,
        alloc: Global,
        names: &BTreeMap<Name, Known>,
        item: Item<'_>,
        next: Option<Item<'_>>,
    ) -> Result<(), NoMemory>
        requires name { is_name item.name.now ≡ true }
        requires next { IfSome next (λ next. is_name next.name.now ≡ true) }
        ensures { OnOk result (seen_connected self.new
            ≡ connected names.now.entries (seen_connected self.old) (seen_item item.entry)
            (option_map seen_item next.entry)) }
    {
        let name = name_of(alloc, item.name)?;
        let known = known_of(names, &name);
        let Some(next) = next else {
            self.flaw = noted(self.flaw, item.line, use_wrong(false, known));
            return Ok(());
        };
        self.connect(alloc, item.line, (name, item.output), known, next)
    }
}

/// What all these items connect.
pub(crate) fn connect_all(
    alloc: Global,
    names: &BTreeMap<Name, Known>,
    items: &[Item<'_>],
    flaw: Option<Flaw>,
) -> Result<Connected, NoMemory>
    requires { All (λ item. is_name item.name.now ≡ true) items.now }
    ensures { IfOk result (λ all. seen_connected all
        ≡ connected_from names.now.entries (nothing_connected flaw) (map seen_item items.now)) }
{
    let mut all = Connected {
        used: BTreeSet::new(alloc),
        links: Vec::new(alloc),
        flaw,
    };
    let mut left = items;
    loop {
        let [_, rest @ ..] = left else {
            return Ok(all);
        };
        all.take(alloc, names, first_of(left), joined_to(rest))?;
        left = rest;
    }
}
