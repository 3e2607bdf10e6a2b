//! Classes with their arguments.

ghost use Rattle.std.specs.Prelude.{◌≡◌, option_map, IfOk};
ghost use Rattle.click_elements.specs.Classes.{seen_class, class_named};
ghost use Rattle.click_model.specs.Arguments.{arguments};
ghost use Rattle.click_model.specs.Classes.{bare, tee_with, tee_of, strip_with, encap, encap_of, class_with};
ghost use Rattle.click_model.specs.Declarations.{made, seen_made};

use crate::flaw::Wrong;
use crate::pattern::patterns_of;
use crate::rule::rules_of;
use crate::words::{is_empty, mac_of, number_to, one, only};
use click_elements::{Class, ClassName, class_named};
use click_text::arguments_text;
use sn_width::{NoMemory, Num};
use std::alloc::Global;
use table_lines::{Separator, next_piece};

/// A class that has no arguments.
fn bare(class: Class, text: &[u8]) -> Option<Class>
    ensures { option_map seen_class result ≡ bare (seen_class class) (arguments text.now) }
{
    if is_empty(text) { Some(class) } else { None }
}

fn tee_with(outputs: Option<u32>) -> Option<Class>
    ensures { option_map seen_class result ≡ tee_with outputs }
{
    let outputs = outputs?;
    if outputs >= 1 {
        Some(Class::Tee(Some(outputs)))
    } else {
        None
    }
}

fn tee_of(text: &[u8]) -> Option<Class>
    ensures { option_map seen_class result ≡ tee_of (arguments text.now) }
{
    if is_empty(text) {
        return Some(Class::Tee(None));
    }
    tee_with(number_to(1024, one(text)))
}

fn strip_with(bytes: Option<u32>) -> Option<Class>
    ensures { option_map seen_class result ≡ strip_with bytes }
{
    if bytes? == 14 {
        Some(Class::Strip)
    } else {
        None
    }
}

fn encap(kind: Option<u32>, source: Option<u64>, destination: Option<u64>) -> Option<Class>
    ensures { option_map seen_class result ≡ encap kind source destination }
{
    let kind = Num::from(kind?);
    let source = Num::from(source?);
    let destination = Num::from(destination?);
    Some(Class::EtherEncap {
        kind,
        source,
        destination,
    })
}

/// A type, a source and a destination.
fn encap_of(text: &[u8]) -> Option<Class>
    ensures { option_map seen_class result ≡ encap_of (arguments text.now) }
{
    let (kind, behind) = next_piece(text, Separator::Comma);
    let (source, behind) = next_piece(behind?, Separator::Comma);
    let (destination, behind) = next_piece(behind?, Separator::Comma);
    match behind {
        Some(_) => None,
        None => encap(
            number_to(65_535, only(kind)),
            mac_of(only(source)),
            mac_of(only(destination)),
        ),
    }
}

fn filter_of(alloc: Global, text: &[u8]) -> Result<Option<Class>, NoMemory>
    ensures { IfOk result (λ class. option_map seen_class class ≡ class_with ClassName.IpFilter (arguments text.now)) }
{
    match rules_of(alloc, text)? {
        Some(rules) => Ok(Some(Class::IpFilter(rules))),
        None => Ok(None),
    }
}

fn classifier_of(alloc: Global, text: &[u8]) -> Result<Option<Class>, NoMemory>
    ensures { IfOk result (λ class. option_map seen_class class
        ≡ class_with ClassName.IpClassifier (arguments text.now)) }
{
    match patterns_of(alloc, text)? {
        Some(patterns) => Ok(Some(Class::IpClassifier(patterns))),
        None => Ok(None),
    }
}

/// The class with these arguments, if it takes them.
fn class_with(alloc: Global, name: ClassName, text: &[u8]) -> Result<Option<Class>, NoMemory>
    ensures { IfOk result (λ class. option_map seen_class class ≡ class_with name (arguments text.now)) }
{
    match name {
        ClassName::DecIpTtl => Ok(bare(Class::DecIpTtl, text)),
        ClassName::EtherMirror => Ok(bare(Class::EtherMirror, text)),
        ClassName::IpMirror => Ok(bare(Class::IpMirror, text)),
        ClassName::Tee => Ok(tee_of(text)),
        ClassName::Discard => Ok(bare(Class::Discard, text)),
        ClassName::Strip => Ok(strip_with(number_to(14, one(text)))),
        ClassName::EtherEncap => Ok(encap_of(text)),
        ClassName::IpFilter => filter_of(alloc, text),
        ClassName::IpClassifier => classifier_of(alloc, text),
    }
}

/// The class that a declaration says, or what is wrong with it.
pub(crate) fn made(
    alloc: Global,
    word: &[u8],
    written: &[u8],
) -> Result<Result<Class, Wrong>, NoMemory>
    ensures { IfOk result (λ class. seen_made class ≡ made (class_named word.now) written.now) }
{
    let Some(name) = class_named(word) else {
        return Ok(Err(Wrong::NoClass));
    };
    let text = arguments_text(alloc, written)?;
    match class_with(alloc, name, &text)? {
        Some(class) => Ok(Ok(class)),
        None => Ok(Err(Wrong::BadArgument)),
    }
}
