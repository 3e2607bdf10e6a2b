//! What an instruction names: header cells, metadata, and what a For stands at.

ghost use Rattle.std.specs.Prelude.{◌≡◌, Some};
ghost use Rattle.sefl_syntax.specs.TermText.{addr_text, scope_text, target_text};
ghost use Rattle.sefl_syntax.specs.Widths.{width_of};

use crate::name::Name;
use sn_width::Width;
use std::fmt;

/// Whose metadata a name is: everyone's, or the box's whose code runs.
#[derive(Clone, Copy, PartialEq, Eq)]
pub enum Scope {
    Global,
    Local,
}

/// A bit address: `offset` bits from a tag, or from bit 0 where there is no tag.
#[derive(PartialEq, Eq, Drop)]
pub struct Addr {
    pub tag: Option<Name>,
    pub offset: i32,
}

/// A cell of `width` bits.
#[derive(PartialEq, Eq, Drop)]
pub enum Target {
    /// The header cell that begins at the address.
    Header {
        addr: Addr,
        width: Width,
    },
    /// The metadata of that name.
    Meta {
        scope: Scope,
        name: Name,
        width: Width,
    },
    /// The metadata that the innermost For with that variable stands at.
    Bound {
        var: Name,
        width: Width,
    },
}

impl Target {
    /// The width of the reference.
    pub fn width(&self) -> Width
        ensures { result ≡ width_of self.now }
    {
        match self {
            Target::Header { width, .. } => *width,
            Target::Meta { width, .. } => *width,
            Target::Bound { width, .. } => *width,
        }
    }
}

impl fmt::Display for Scope {
    ghost output = { λ scope. Some (scope_text scope) };

    fn fmt<W: fmt::Write>(&self, f: &mut fmt::Formatter<W>) -> fmt::Result {
        f.write_str(match self {
            Scope::Global => "global",
            Scope::Local => "local",
        })
    }
}

impl fmt::Display for Addr {
    ghost output = { λ addr. Some (addr_text addr) };

    #[tactic(auto, unfolding(crate::specs::TermText::addr_text))]
    fn fmt<W: fmt::Write>(&self, f: &mut fmt::Formatter<W>) -> fmt::Result {
        let offset = self.offset;
        match &self.tag {
            None => write!(f, "{offset}"),
            Some(tag) if offset < 0 => write!(f, "{tag}{offset}"),
            Some(tag) => write!(f, "{tag}+{offset}"),
        }
    }
}

impl fmt::Display for Target {
    ghost output = { λ target. Some (target_text target) };

    #[tactic(auto, unfolding(crate::specs::TermText::target_text))]
    fn fmt<W: fmt::Write>(&self, f: &mut fmt::Formatter<W>) -> fmt::Result {
        match self {
            Target::Header { addr, width } => {
                let width = width.bits();
                write!(f, "head {addr}:{width}")
            }
            Target::Meta { scope, name, width } => {
                let width = width.bits();
                write!(f, "{scope} {name}:{width}")
            }
            Target::Bound { var, width } => {
                let width = width.bits();
                write!(f, "${var}:{width}")
            }
        }
    }
}
