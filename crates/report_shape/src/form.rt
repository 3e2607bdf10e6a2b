//! What a JSON value has to be, by its kind.

use crate::part::Part;

/// What a text has to be.
#[derive(Clone, Copy)]
pub enum Texts {
    Refused,
    Any,
    /// One of these.
    Words(&'static [&'static str]),
    /// The decimal digits of a number from `2^64` to `2^128 - 1`.
    Large,
    /// One that the reader knows for the part.
    Known,
}

/// What the items of a list are.
#[derive(Clone, Copy)]
pub enum Parts {
    Same(Part),
    InOrder(&'static [Part]),
}

/// What a list has to be.
#[derive(Clone, Copy)]
pub enum Lists {
    Refused,
    /// Any number of these.
    Of(Part),
    /// One or more of these.
    OneOrMore(Part),
    /// One of these rows, by the number of items.
    Rows(&'static [&'static [Part]]),
    /// A row by its first item, which is a text, and how many of its items come at least: the last ones may be left out.
    Headed(&'static [(&'static str, usize, &'static [Part])]),
}

/// A member of an object: its key, and what it holds.
pub type Field = (&'static str, Part);

/// What an object has to be: exactly the keys of a list of fields, which ascend.
#[derive(Clone, Copy)]
pub enum Objects {
    Refused,
    /// One of these lists, by its keys.
    Of(&'static [&'static [Field]]),
    /// A list by the text of a member.
    ByWord(&'static str, &'static [(&'static str, &'static [Field])]),
    /// A list by the number of a member, from a least to a greatest one.
    ByNumber(&'static str, &'static [(u64, u64, &'static [Field])]),
}

/// What a value has to be, by its kind. No part holds a truth value.
#[derive(Clone, Copy)]
pub struct Form {
    pub null: bool,
    /// The least and the greatest number.
    pub number: Option<(i128, i128)>,
    pub text: Texts,
    pub list: Lists,
    /// Whether the list, a cell, has to hold a reduced term besides.
    pub reduced: bool,
    pub object: Objects,
}
