//! What the items of a list and the members of an object have to be.

ghost use Rattle.std.specs.Prelude.{◌≡◌, map, option_map};
ghost use Rattle.serde_json.specs.View.{view, items_view, members_view};
ghost use Rattle.serde_json.specs.Find.{get_member};
ghost use Rattle.report_shape.specs.Forms.{by_word, by_number};
ghost use Rattle.report_shape.specs.Held.{list_form, parts_of, object_form, fields_of, field_of, row_of_held, named_of, word_of, number_of, lent_words, told_fields, told_parts};
ghost use Rattle.report_shape.specs.Faults.{is_one_of, one_or_more_parts, row_of, fits_row, row_named, row_by_head, list_parts, part_at, keys_are, with_keys, if_keys, for_word, for_number, object_fields, part_of};

use crate::form::{Field, Lists, Objects, Parts};
use crate::part::Part;
use serde_json::{Map, Value};

/// The step at which a value is refused, none for the value itself.
pub(crate) type Refused = Option<&'static str>;

pub(crate) fn is_one_of(text: &str, words: &[&'static str]) -> bool
    ensures { result ≡ is_one_of text.now (lent_words words.now) }
{
    for word in words {
        if *word == text {
            return true;
        }
    }
    false
}

#[tactic(auto, using(crate::proofs::Views::one_or_more_of_these))]
fn one_or_more_parts(part: Part, items: &[Value]) -> Result<Parts, Refused>
    ensures { told_parts result ≡ one_or_more_parts part (items_view items.now) }
{
    match items {
        [] => Err(None),
        [_, ..] => Ok(Parts::Same(part)),
    }
}

fn row_of(rows: &'static [&'static [Part]], count: usize) -> Result<Parts, Refused>
    ensures { told_parts result ≡ row_of (map row_of_held rows.now) count }
{
    for row in rows {
        let length = row.len();
        if length == count {
            return Ok(Parts::InOrder(row));
        }
    }
    Err(None)
}

fn fits_row(least: usize, row: &'static [Part], count: usize) -> Result<Parts, Refused>
    ensures { told_parts result ≡ fits_row least row.now count }
{
    if least <= count && count <= row.len() {
        Ok(Parts::InOrder(row))
    } else {
        Err(None)
    }
}

fn row_named(
    rows: &'static [(&'static str, usize, &'static [Part])],
    name: &str,
    count: usize,
) -> Result<Parts, Refused>
    ensures { told_parts result ≡ row_named (map named_of rows.now) name.now count }
{
    for (word, least, row) in rows {
        if *word == name {
            return fits_row(*least, row, count);
        }
    }
    Err(Some("0"))
}

#[tactic(auto, using(crate::proofs::Views::count_items))]
fn row_by_head(
    rows: &'static [(&'static str, usize, &'static [Part])],
    items: &[Value],
) -> Result<Parts, Refused>
    ensures { told_parts result ≡ row_by_head (map named_of rows.now) (items_view items.now) }
{
    match items {
        [] => Err(None),
        [head, ..] => match head.as_str() {
            None => Err(Some("0")),
            Some(name) => row_named(rows, name, items.len()),
        },
    }
}

#[tactic(auto, using(crate::proofs::Views::count_items))]
pub(crate) fn list_parts(form: Lists, items: &[Value]) -> Result<Parts, Refused>
    ensures { told_parts result ≡ list_parts (list_form form) (items_view items.now) }
{
    match form {
        Lists::Refused => Err(None),
        Lists::Of(part) => Ok(Parts::Same(part)),
        Lists::OneOrMore(part) => one_or_more_parts(part, items),
        Lists::Rows(rows) => row_of(rows, items.len()),
        Lists::Headed(rows) => row_by_head(rows, items),
    }
}

pub(crate) fn part_at(parts: Parts, number: usize) -> Part
    ensures { result ≡ part_at (parts_of parts) number }
{
    match parts {
        Parts::Same(part) => part,
        Parts::InOrder(row) => row.get(number).copied().unwrap_or(Part::Nothing),
    }
}

fn keys_are(fields: &[Field], members: &Map<String, Value>) -> bool
    ensures { result ≡ keys_are (map field_of fields.now) (members_view members.now.entries) }
{
    let mut number = 0;
    for (key, _value) in members {
        if number == fields.len() || fields[number].0 != key.as_str() {
            return false;
        }
        number += 1;
    }
    number == fields.len()
}

fn with_keys(
    lists: &'static [&'static [Field]],
    members: &Map<String, Value>,
) -> Result<&'static [Field], Refused>
    ensures { told_fields result ≡ with_keys (map fields_of lists.now) (members_view members.now.entries) }
{
    for fields in lists {
        if keys_are(fields, members) {
            return Ok(fields);
        }
    }
    Err(None)
}

fn if_keys(
    fields: &'static [Field],
    members: &Map<String, Value>,
) -> Result<&'static [Field], Refused>
    ensures { told_fields result ≡ if_keys (map field_of fields.now) (members_view members.now.entries) }
{
    if keys_are(fields, members) {
        Ok(fields)
    } else {
        Err(None)
    }
}

fn for_word(
    key: &'static str,
    forms: &'static [(&'static str, &'static [Field])],
    name: &str,
    members: &Map<String, Value>,
) -> Result<&'static [Field], Refused>
    ensures { told_fields result ≡ for_word key.now (map word_of forms.now) name.now
        (members_view members.now.entries) }
{
    for (word, fields) in forms {
        if *word == name {
            return if_keys(fields, members);
        }
    }
    Err(Some(key))
}

fn for_number(
    key: &'static str,
    forms: &'static [(u64, u64, &'static [Field])],
    number: u64,
    members: &Map<String, Value>,
) -> Result<&'static [Field], Refused>
    ensures { told_fields result ≡ for_number key.now (map number_of forms.now) number
        (members_view members.now.entries) }
{
    for (least, greatest, fields) in forms {
        if *least <= number && number <= *greatest {
            return if_keys(fields, members);
        }
    }
    Err(Some(key))
}

fn member<'v>(members: &'v Map<String, Value>, key: &str) -> Option<&'v Value>
    ensures { option_map (λ v. view v.now) result ≡ get_member key.now (members_view members.now.entries) }
{
    members.get(key)
}

fn by_word(
    key: &'static str,
    forms: &'static [(&'static str, &'static [Field])],
    members: &Map<String, Value>,
) -> Result<&'static [Field], Refused>
    ensures { told_fields result ≡ object_fields (by_word key.now (map word_of forms.now))
        (members_view members.now.entries) }
{
    match member(members, key) {
        None => Err(None),
        Some(value) => match value.as_str() {
            None => Err(Some(key)),
            Some(name) => for_word(key, forms, name, members),
        },
    }
}

fn by_number(
    key: &'static str,
    forms: &'static [(u64, u64, &'static [Field])],
    members: &Map<String, Value>,
) -> Result<&'static [Field], Refused>
    ensures { told_fields result ≡ object_fields (by_number key.now (map number_of forms.now))
        (members_view members.now.entries) }
{
    match member(members, key) {
        None => Err(None),
        Some(value) => match value.as_u64() {
            None => Err(Some(key)),
            Some(number) => for_number(key, forms, number, members),
        },
    }
}

pub(crate) fn object_fields(
    form: Objects,
    members: &Map<String, Value>,
) -> Result<&'static [Field], Refused>
    ensures { told_fields result ≡ object_fields (object_form form) (members_view members.now.entries) }
{
    match form {
        Objects::Refused => Err(None),
        Objects::Of(lists) => with_keys(lists, members),
        Objects::ByWord(key, forms) => by_word(key, forms, members),
        Objects::ByNumber(key, forms) => by_number(key, forms, members),
    }
}

pub(crate) fn part_of(fields: &[Field], key: &str) -> Part
    ensures { result ≡ part_of (map field_of fields.now) key.now }
{
    for (name, part) in fields {
        if *name == key {
            return *part;
        }
    }
    Part::Nothing
}
