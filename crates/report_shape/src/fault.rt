//! The first place of a value that has not its form.

ghost use Rattle.std.specs.Prelude.{◌≡◌, ℕ, List, Bool, map, string_bytes, option_map, IfOk};
ghost use Rattle.serde_json.specs.View.{view, number_view, items_view, members_view};
ghost use Rattle.report_shape.specs.Held.{text_form, field_of, parts_of};
ghost use Rattle.report_shape.specs.Faults.{number_fits, is_within, text_fits, fault, items_fault, members_fault, is_whole, pointer_to, unless};

use crate::form::{Field, Parts, Texts};
use crate::large::large_of;
use crate::order::is_reduced;
use crate::part::Part;
use crate::pick::{Refused, is_one_of, list_parts, object_fields, part_at, part_of};
use crate::table::form_for;
use serde_json::{Map, Number, Value};
use sn_width::NoMemory;
use std::alloc::Global;

/// The texts that a reader knows: places, and names of nodes, metadata and tags.
pub trait Names {
    ghost use Rattle.report_shape.specs.declared.part.Part.{Part};

    ghost knows: { Self → Part → List ℕ → Bool };

    /// Whether the text is one that is known for the part.
    fn is_known(&self, alloc: Global, part: Part, text: &str) -> Result<bool, NoMemory>
        ensures { IfOk result (λ known. known ≡ knows self.now part text.now) };
}

fn number_fits(range: Option<(i128, i128)>, number: &Number) -> bool
    ensures { result ≡ number_fits range (number_view number.now) }
{
    let Some((least, greatest)) = range else {
        return false;
    };
    if let Some(count) = number.as_u64() {
        return is_within(least, greatest, i128::from(count));
    }
    match number.as_i64() {
        Some(value) => value < 0 && is_within(least, greatest, i128::from(value)),
        None => false,
    }
}

fn is_within(least: i128, greatest: i128, value: i128) -> bool
    ensures { result ≡ is_within (least, greatest) value }
{
    least <= value && value <= greatest
}

fn text_fits<N: Names>(
    alloc: Global,
    names: &N,
    part: Part,
    form: Texts,
    text: &str,
) -> Result<bool, NoMemory>
    ensures { IfOk result (λ holds. holds ≡ text_fits (N.knows names.now) part (text_form form) text.now) }
{
    match form {
        Texts::Refused => Ok(false),
        Texts::Any => Ok(true),
        Texts::Words(words) => Ok(is_one_of(text, words)),
        Texts::Large => Ok(large_of(alloc, text)?.is_some()),
        Texts::Known => names.is_known(alloc, part, text),
    }
}

fn is_whole(alloc: Global, reduced: bool, list: &Value) -> Result<bool, NoMemory>
    ensures { IfOk result (λ holds. holds ≡ is_whole reduced (view list.now)) }
{
    if reduced {
        is_reduced(alloc, list)
    } else {
        Ok(true)
    }
}

// The value itself, or what stands at the step below it.
fn pointer_to(alloc: Global, step: Refused) -> Result<String, NoMemory>
    ensures { IfOk result (λ text. string_bytes text ≡ pointer_to (option_map (λ s. s.now) step.entry)) }
{
    match step {
        None => Ok(String::new(alloc)),
        Some(step) => Ok(format!(in alloc; "/{step}")?),
    }
}

fn unless(alloc: Global, holds: bool) -> Option<String>
    ensures { option_map string_bytes result ≡ unless holds }
{
    if holds {
        None
    } else {
        Some(String::new(alloc))
    }
}

/// The first place of the value that has not the part's form, as a JSON Pointer. None where it has it.
#[cycle(fault)]
pub(crate) fn first_fault<N: Names>(
    value: &Value,
    alloc: Global,
    names: &N,
    part: Part,
) -> Result<Option<String>, NoMemory>
    ensures { IfOk result (λ found. option_map string_bytes found ≡ fault (N.knows names.now) part (view value.now)) }
{
    let form = form_for(part);
    match value {
        Value::Null => Ok(unless(alloc, form.null)),
        Value::Bool(_) => Ok(Some(String::new(alloc))),
        Value::Number(number) => Ok(unless(alloc, number_fits(form.number, number))),
        Value::String(text) => Ok(unless(alloc, text_fits(alloc, names, part, form.text, text)?)),
        Value::Array(items) => match list_parts(form.list, items) {
            Err(step) => Ok(Some(pointer_to(alloc, step)?)),
            Ok(parts) => match items_fault(items, alloc, names, parts)? {
                Some(found) => Ok(Some(found)),
                None => Ok(unless(alloc, is_whole(alloc, form.reduced, value)?)),
            },
        },
        Value::Object(members) => match object_fields(form.object, members) {
            Err(step) => Ok(Some(pointer_to(alloc, step)?)),
            Ok(fields) => members_fault(members, alloc, names, fields),
        },
    }
}

#[cycle(fault)]
fn items_fault<N: Names>(
    items: &Vec<Value>,
    alloc: Global,
    names: &N,
    parts: Parts,
) -> Result<Option<String>, NoMemory>
    ensures { IfOk result (λ found. option_map string_bytes found
        ≡ items_fault (N.knows names.now) (parts_of parts) 0 (items_view items.now.items)) }
{
    let mut number = 0;
    for item in items {
        if let Some(found) = first_fault(item, alloc, names, part_at(parts, number))? {
            return Ok(Some(format!(in alloc; "/{number}{found}")?));
        }
        number += 1;
    }
    Ok(None)
}

#[cycle(fault)]
fn members_fault<N: Names>(
    members: &Map<String, Value>,
    alloc: Global,
    names: &N,
    fields: &[Field],
) -> Result<Option<String>, NoMemory>
    ensures { IfOk result (λ found. option_map string_bytes found
        ≡ members_fault (N.knows names.now) (map field_of fields.now) (members_view members.now.entries)) }
{
    for (key, value) in members {
        if let Some(found) = first_fault(value, alloc, names, part_of(fields, key))? {
            return Ok(Some(format!(in alloc; "/{key}{found}")?));
        }
    }
    Ok(None)
}
