//! Where an instruction stands.

ghost use Rattle.std.specs.Prelude.{◌≡◌, ◌∷◌, true, false, bytes_eq, length, nat_lt, IfSome, IsNone, IsTrue, ◌↔◌};
ghost use Rattle.std.specs.List.{list_any};
ghost use Rattle.job_items.specs.AtomRules.{is_loose, has_loose};
ghost use Rattle.job_items.specs.Gathered.{lent};
ghost use Rattle.job_items.specs.Places.{vars_of, place_of};
ghost use Rattle.job_items.specs.Items.{within};

use crate::atom::Atom;
use sefl_syntax::{Name, Side, Target};

/// The variables of the Fors round an instruction: of at most two, since a third is refused.
#[derive(Clone, Copy)]
pub(crate) enum Vars<'a> {
    Free,
    One(&'a Name),
    Two { inner: &'a Name, outer: &'a Name },
}

/// Where an instruction stands: how many output ports its node has, the side of its port, and the
/// variables of the Fors round it.
#[derive(Clone, Copy)]
pub(crate) struct Place<'a> {
    pub outs: u32,
    pub side: Side,
    pub vars: Vars<'a>,
}

impl<'a> Vars<'a> {
    /// Whether one of the Fors has this variable.
    fn has(self, name: &Name) -> bool
        ensures { result ≡ list_any (bytes_eq name.now) (vars_of self.entry) }
    {
        match self {
            Vars::Free => false,
            Vars::One(inner) => name == inner,
            Vars::Two { inner, outer } => name == inner || name == outer,
        }
    }

    /// With the variable of one more For, where there are not two.
    fn with(self, var: &'a Name) -> Option<Vars<'a>>
        ensures none { IsNone result ↔ IsTrue (nat_lt 1 (length (vars_of self.entry))) }
        ensures some { IfSome result (λ vars. vars_of vars ≡ var.now ∷ vars_of self.entry) }
    {
        match self {
            Vars::Free => Some(Vars::One(var)),
            Vars::One(outer) => Some(Vars::Two { inner: var, outer }),
            Vars::Two { .. } => None,
        }
    }

    /// Whether the reference is a Bound with a variable that no For has.
    pub(crate) fn is_loose(self, target: &Target) -> bool
        ensures { result ≡ is_loose (vars_of self.entry) target.now }
    {
        match target {
            Target::Header { .. } => false,
            Target::Meta { .. } => false,
            Target::Bound { var, .. } => !self.has(var),
        }
    }
}

impl<'a> Place<'a> {
    /// The place in the body of a For; None where there are two Fors round it already.
    pub(crate) fn within(self, var: &'a Name) -> Option<Place<'a>>
        ensures none { IsNone result ↔ IsTrue (nat_lt 1 (length (vars_of self.entry.vars))) }
        ensures some { IfSome result (λ place. place_of place ≡ within (place_of self.entry) var.now) }
    {
        let vars = self.vars.with(var)?;
        Some(Place {
            outs: self.outs,
            side: self.side,
            vars,
        })
    }
}

/// Whether some reference of these atoms is a Bound with a variable that no For has.
pub(crate) fn any_loose(vars: Vars<'_>, atoms: &[Atom<'_>]) -> bool
    ensures { result ≡ list_any (has_loose (vars_of vars.entry)) atoms.now }
{
    for atom in atoms {
        if has_loose(vars, atom.reads()) {
            return true;
        }
    }
    false
}

fn has_loose(vars: Vars<'_>, reads: &[&Target]) -> bool
    ensures { result ≡ list_any (is_loose (vars_of vars.entry)) (lent reads.now) }
{
    for target in reads {
        if vars.is_loose(target) {
            return true;
        }
    }
    false
}
