//! The declarations of a configuration.

ghost use Rattle.std.specs.Prelude.{◌≡◌, ◌+◌, true, bytes_eq, map, All, IfOk, OnOk};
ghost use Rattle.std.specs.Map.{lookup};
ghost use Rattle.sefl_lex.specs.Words.{is_name};
ghost use Rattle.click_text.specs.Items.{seen_item};
ghost use Rattle.click_model.specs.Declarations.{seen_element, made, seen_made, seen_declared, most_of, class_wrong, first_wrong, with_name, with_element, with_declaration, declared, declared_from, nothing_declared};

use crate::class::made;
use crate::element::Element;
use crate::flaw::{Flaw, Wrong, noted};
use click_elements::{Class, most_outputs};
use click_text::Item;
use sefl_syntax::Name;
use sn_width::NoMemory;
use std::alloc::Global;
use std::collections::BTreeMap;
use std::str;

/// The most declarations of a configuration.
const MOST_ELEMENTS: u64 = 10_000;

/// The first declaration of a name.
#[derive(Clone, Copy)]
pub(crate) struct Known {
    pub line: u64,
    /// How many outputs the element may have; None where any.
    pub most: Option<u64>,
}

/// What was declared so far.
#[derive(Drop)]
pub(crate) struct Declared {
    pub names: BTreeMap<Name, Known>,
    /// Those whose classes and arguments are good.
    pub elements: Vec<Element>,
    /// How many declarations there were.
    pub count: u64,
    pub flaw: Option<Flaw>,
}

/// The name that a word is.
pub(crate) fn name_of(alloc: Global, word: &[u8]) -> Result<Name, NoMemory>
    requires { is_name word.now ≡ true }
    ensures { IfOk result (λ name. name ≡ word.now) }
{
    let Ok(text) = str::from_utf8(word) else {
        unreachable!();
    };
    let Some(name) = Name::of(alloc, text)? else {
        unreachable!();
    };
    Ok(name)
}

/// What is known of a name.
pub(crate) fn known_of(names: &BTreeMap<Name, Known>, name: &Name) -> Option<Known>
    ensures { result ≡ lookup (bytes_eq name.now) names.now.entries }
{
    names.get(name).copied()
}

fn most_of(class: &Result<Class, Wrong>) -> Option<u64>
    ensures { result ≡ most_of (seen_made class.now) }
{
    match class {
        Ok(class) => Some(most_outputs(class)),
        Err(_) => None,
    }
}

fn class_wrong(class: &Result<Class, Wrong>) -> Option<Wrong>
    ensures { result ≡ class_wrong (seen_made class.now) }
{
    match class {
        Ok(_) => None,
        Err(wrong) => Some(*wrong),
    }
}

/// What is wrong with a declaration, the lowest number first.
fn first_wrong(first: Option<Known>, count: u64, wrong: Option<Wrong>) -> Option<Wrong>
    ensures { result ≡ first_wrong first count wrong }
{
    if let Some(first) = first {
        let earlier = first.line;
        return Some(Wrong::Conflict { earlier });
    }
    if count == MOST_ELEMENTS {
        return Some(Wrong::Limit);
    }
    wrong
}

/// Keeps the first declaration of a name.
fn put_name(
    names: &mut BTreeMap<Name, Known>,
    name: &Name,
    known: Known,
    first: Option<Known>,
) -> Result<(), NoMemory>
    ensures { OnOk result (names.new.entries ≡ with_name names.old.entries name.now known first) }
{
    match first {
        Some(_) => Ok(()),
        None => {
            let name = name.clone()?;
            names.insert(name, known)?;
            Ok(())
        }
    }
}

fn put_element(
    elements: &mut Vec<Element>,
    name: Name,
    class: Result<Class, Wrong>,
) -> Result<(), NoMemory>
    ensures { OnOk result (map seen_element elements.new.items
        ≡ with_element (map seen_element elements.old.items) name (seen_made class)) }
{
    match class {
        Err(_) => Ok(()),
        Ok(class) => {
            elements.push(Element { name, class })?;
            Ok(())
        }
    }
}

fn count_more(count: u64) -> Result<u64, NoMemory>
    ensures { IfOk result (λ more. more ≡ count + 1) }
{
    match count.checked_add(1) {
        Some(more) => Ok(more),
        None => Err(NoMemory),
    }
}

impl Declared {
    fn add(&mut self, line: u64, name: Name, class: Result<Class, Wrong>) -> Result<(), NoMemory>
        ensures { OnOk result (seen_declared self.new
            ≡ with_declaration (seen_declared self.old) line name (seen_made class)
            (lookup (bytes_eq name) self.old.names.entries)) }
    {
        let first = known_of(&self.names, &name);
        let most = most_of(&class);
        let wrong = first_wrong(first, self.count, class_wrong(&class));
        self.flaw = noted(self.flaw, line, wrong);
        self.count = count_more(self.count)?;
        put_name(&mut self.names, &name, Known { line, most }, first)?;
        put_element(&mut self.elements, name, class)
    }

    fn declare(&mut self, alloc: Global, item: Item<'_>) -> Result<(), NoMemory>
        requires { is_name item.name.now ≡ true }
        ensures { OnOk result (seen_declared self.new
            ≡ declared (seen_declared self.old) (seen_item item.entry) (seen_item item.entry).class) }
    {
        let Some(word) = item.class else {
            return Ok(());
        };
        let name = name_of(alloc, item.name)?;
        let class = made(alloc, word, item.arguments)?;
        self.add(item.line, name, class)
    }
}

/// What all these items declare.
pub(crate) fn declare_all(alloc: Global, items: &[Item<'_>]) -> Result<Declared, NoMemory>
    requires { All (λ item. is_name item.name.now ≡ true) items.now }
    ensures { IfOk result (λ all. seen_declared all ≡ declared_from nothing_declared (map seen_item items.now)) }
{
    let mut all = Declared {
        names: BTreeMap::new(alloc),
        elements: Vec::new(alloc),
        count: 0,
        flaw: None,
    };
    for item in items {
        all.declare(alloc, *item)?;
    }
    Ok(all)
}
