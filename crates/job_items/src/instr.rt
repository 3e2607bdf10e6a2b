//! The rules on one instruction.

ghost use Rattle.std.specs.Prelude.{◌≡◌, ◌&&◌, nat_le};
ghost use Rattle.std.specs.List.{list_any};
ghost use Rattle.sefl_syntax.specs.Views.{instr_tree};
ghost use Rattle.job_items.specs.Atoms.{instr_atoms};
ghost use Rattle.job_items.specs.Items.{instr_item};
ghost use Rattle.job_items.specs.Places.{place_of};
ghost use Rattle.job_items.specs.Progress.{progress_of, Begins};
ghost use Rattle.job_items.specs.Rules.{leaves_past, leaves, leaves_nowhere, copies_of, is_outward, is_empty, early_breach};

use crate::atom::Atom;
use crate::atoms::{any_mixed, any_reversed, any_too_wide, instr_atoms};
use crate::halt::Halt;
use crate::place::{Place, any_loose};
use crate::rule::{Breach, Rule};
use crate::tally::{Tally, first_breach};
use sefl_syntax::{Instr, Side};
use std::alloc::Global;

/// Counts an instruction; the first rule or limit that it breaks, but for that on nested Fors.
pub(crate) fn begin_instr<'a>(
    alloc: Global,
    tally: &mut Tally<'a>,
    place: Place<'a>,
    instr: &'a Instr,
) -> Result<(), Halt>
    ensures { Begins (progress_of tally.old) (instr_item (place_of place.entry) (instr_tree instr.now)) result
        (progress_of tally.new) }
{
    let atoms = instr_atoms(alloc, instr)?;
    let early = early_breach(place, instr, &atoms);
    tally.add_instr(instr)?;
    tally.weigh(&atoms, early, 0, copies_of(instr))
}

/// The first rule before that on limits that the instruction breaks.
fn early_breach(place: Place<'_>, instr: &Instr, atoms: &[Atom<'_>]) -> Option<Breach>
    requires { atoms.now ≡ instr_atoms (instr_tree instr.now) }
    ensures { result ≡ early_breach (instr_item (place_of place.entry) (instr_tree instr.now)) }
{
    first_breach(&[
        (
            leaves_past(place.outs, instr),
            Breach::Breaks(Rule::PortRange),
        ),
        (any_mixed(atoms), Breach::Breaks(Rule::WidthMismatch)),
        (any_too_wide(atoms), Breach::Breaks(Rule::TooWide)),
        (any_loose(place.vars, atoms), Breach::Breaks(Rule::Unbound)),
        (
            leaves(instr) && is_outward(place.side),
            Breach::Breaks(Rule::OutForward),
        ),
        (leaves_nowhere(instr), Breach::Breaks(Rule::EmptyFork)),
        (any_reversed(atoms), Breach::Breaks(Rule::BadRanges)),
    ])
}

fn is_outward(side: Side) -> bool
    ensures { result ≡ is_outward side }
{
    match side {
        Side::Inward => false,
        Side::Outward => true,
    }
}

/// Whether the instruction leaves by a port that is not below the number of output ports.
fn leaves_past(outs: u32, instr: &Instr) -> bool
    ensures { result ≡ leaves_past outs (instr_tree instr.now) }
{
    match instr {
        Instr::Forward(port) => outs <= *port,
        Instr::Fork(ports) => is_some_past(outs, ports),
        _ => false,
    }
}

fn is_some_past(outs: u32, ports: &[u32]) -> bool
    ensures { result ≡ list_any (nat_le outs) ports.now }
{
    ports.iter().any(|port| outs <= *port)
}

/// Whether the instruction is Forward or Fork.
fn leaves(instr: &Instr) -> bool
    ensures { result ≡ leaves (instr_tree instr.now) }
{
    matches!(instr, Instr::Forward(_) | Instr::Fork(_))
}

/// Whether the instruction is a Fork that lists no port.
fn leaves_nowhere(instr: &Instr) -> bool
    ensures { result ≡ leaves_nowhere (instr_tree instr.now) }
{
    match instr {
        Instr::Fork(ports) => is_empty(ports),
        _ => false,
    }
}

fn is_empty(ports: &[u32]) -> bool
    ensures { result ≡ is_empty ports.now }
{
    match ports {
        [] => true,
        [_, ..] => false,
    }
}

/// How many ports a Fork lists; 0 of other instructions.
fn copies_of(instr: &Instr) -> u64
    ensures { result ≡ copies_of (instr_tree instr.now) }
{
    match instr {
        Instr::Fork(ports) => ports.len() as u64,
        _ => 0,
    }
}
