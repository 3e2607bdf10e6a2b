//! The elements of a configuration.

use click_elements::Class;
use sefl_syntax::Name;

/// An element: its name, and its class with the arguments.
#[derive(Drop)]
pub(crate) struct Element {
    pub name: Name,
    pub class: Class,
}
