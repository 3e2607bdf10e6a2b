//! What the items so far have, and the limits on it.

ghost use Rattle.std.specs.Prelude.{◌≡◌, ◌+◌, OnOk, IfOk, Some, None, Option};
ghost use Rattle.sefl_syntax.specs.Views.{instr_tree};
ghost use Rattle.job_items.specs.AtomRules.{ranges_in, meta_name};
ghost use Rattle.job_items.specs.Gathered.{lent};
ghost use Rattle.job_items.specs.Rules.{with_names, with_text, names_in, with_atoms, with_instr, count_of, limit_rows, first_breach, no_counts};
ghost use Rattle.job_items.specs.Progress.{progress_of, lent_texts, IsNoMemory, Weighs};
ghost use Rattle.std.specs.List.{flat_map};

use crate::atom::Atom;
use crate::halt::Halt;
use crate::rule::{Breach, Rule, Which};
use sefl_syntax::{Instr, Name, Target, Text};
use sn_width::NoMemory;
use std::alloc::Global;
use std::collections::BTreeSet;

/// How many items are passed, and what they have.
#[derive(Drop)]
pub(crate) struct Tally<'a> {
    pub site: u64,
    pub nodes: u64,
    pub names: BTreeSet<&'a Name>,
    pub patterns: BTreeSet<&'a Text>,
    pub instructions: u64,
    pub ranges: u64,
    pub fields: u64,
    pub tests: u64,
    pub asks: u64,
}

impl<'a> Tally<'a> {
    /// Before the first item.
    pub(crate) fn new(alloc: Global) -> Tally<'a>
        ensures { progress_of result ≡ record { site = 0; counts = no_counts } }
    {
        Tally {
            site: 0,
            nodes: 0,
            names: BTreeSet::new(alloc),
            patterns: BTreeSet::new(alloc),
            instructions: 0,
            ranges: 0,
            fields: 0,
            tests: 0,
            asks: 0,
        }
    }

    /// Passes an item.
    pub(crate) fn step(&mut self) -> Result<(), Halt>
        ensures passed { OnOk result (progress_of self.new
            ≡ record (progress_of self.old) { site = self.old.site + 1 }) }
        ensures no_memory { IsNoMemory result }
    {
        self.site = one_more(self.site)?;
        Ok(())
    }

    /// Counts an instruction, and notes its pattern if it is a For.
    pub(crate) fn add_instr(&mut self, instr: &'a Instr) -> Result<(), NoMemory>
        ensures { OnOk result (progress_of self.new ≡ record (progress_of self.old) {
          counts = with_instr (progress_of self.old).counts (instr_tree instr.now);
        }) }
    {
        self.instructions = one_more(self.instructions)?;
        match instr {
            Instr::For { pattern, .. } => self.add_pattern(pattern),
            _ => Ok(()),
        }
    }

    /// Counts a field of the injection.
    pub(crate) fn add_field(&mut self) -> Result<(), NoMemory>
        ensures { OnOk result (self.new ≡ record self.old { fields = self.old.fields + 1 }) }
    {
        self.fields = one_more(self.fields)?;
        Ok(())
    }

    /// Counts a test of the injection.
    pub(crate) fn add_test(&mut self) -> Result<(), NoMemory>
        ensures { OnOk result (self.new ≡ record self.old { tests = self.old.tests + 1 }) }
    {
        self.tests = one_more(self.tests)?;
        Ok(())
    }

    /// Counts an ask.
    pub(crate) fn add_ask(&mut self) -> Result<(), NoMemory>
        ensures { OnOk result (self.new ≡ record self.old { asks = self.old.asks + 1 }) }
    {
        self.asks = one_more(self.asks)?;
        Ok(())
    }

    /// Counts a node.
    pub(crate) fn add_node(&mut self) -> Result<(), NoMemory>
        ensures { OnOk result (self.new ≡ record self.old { nodes = self.old.nodes + 1 }) }
    {
        self.nodes = one_more(self.nodes)?;
        Ok(())
    }

    /// Notes a pattern.
    fn add_pattern(&mut self, pattern: &'a Text) -> Result<(), NoMemory>
        ensures { OnOk result (progress_of self.new ≡ record (progress_of self.old) {
          counts = record (progress_of self.old).counts
              { patterns = with_text (progress_of self.old).counts.patterns pattern.now };
        }) }
    {
        self.patterns.insert(pattern)?;
        Ok(())
    }

    /// Counts what these atoms have.
    pub(crate) fn add_atoms(&mut self, atoms: &[Atom<'a>]) -> Result<(), NoMemory>
        ensures { OnOk result (progress_of self.new ≡ record (progress_of self.old) {
          counts = with_atoms (progress_of self.old).counts atoms.now;
        }) }
    {
        note_names(&mut self.names, atoms)?;
        self.ranges = add_ranges(self.ranges, atoms)?;
        Ok(())
    }

    /// Counts what these atoms have. Then the breach that was found before, or that of the first
    /// limit that is passed; `ports` and `copies` are the item's own counts.
    pub(crate) fn weigh(
        &mut self,
        atoms: &[Atom<'a>],
        early: Option<Breach>,
        ports: u64,
        copies: u64,
    ) -> Result<(), Halt>
        ensures { Weighs (progress_of self.old) atoms.now early ports copies result (progress_of self.new) }
    {
        if let Some(breach) = early {
            return Err(Halt::Broken(breach));
        }
        self.add_atoms(atoms)?;
        match self.limit_breach(ports, copies) {
            Some(breach) => Err(Halt::Broken(breach)),
            None => Ok(()),
        }
    }

    /// The count that a limit is on; 0 for those on one node or one Fork.
    pub(crate) fn count_of(&self, which: Which) -> u64
        ensures { result ≡ count_of which (progress_of self.now).counts }
    {
        match which {
            Which::Nodes => self.nodes,
            Which::Ports => 0,
            Which::Names => self.names.len() as u64,
            Which::Patterns => self.patterns.len() as u64,
            Which::Instructions => self.instructions,
            Which::Ranges => self.ranges,
            Which::Copies => 0,
            Which::Fields => self.fields,
            Which::Tests => self.tests,
            Which::Asks => self.asks,
        }
    }

    /// The first limit that is passed.
    fn limit_breach(&self, ports: u64, copies: u64) -> Option<Breach>
        ensures { result ≡ first_breach (limit_rows (progress_of self.now).counts ports copies) }
    {
        let ports_limit = Rule::Limit {
            which: Which::Ports,
            count: ports,
        };
        let copies_limit = Rule::Limit {
            which: Which::Copies,
            count: copies,
        };
        first_breach(&[
            (self.nodes > 10_000, Breach::Passes(Which::Nodes)),
            (ports > 1_024, Breach::Breaks(ports_limit)),
            (self.names.len() > 1_024, Breach::Passes(Which::Names)),
            (self.patterns.len() > 256, Breach::Passes(Which::Patterns)),
            (
                self.instructions > 1_000_000,
                Breach::Passes(Which::Instructions),
            ),
            (self.ranges > 4_000_000, Breach::Passes(Which::Ranges)),
            (copies > 1_024, Breach::Breaks(copies_limit)),
            (self.fields > 256, Breach::Passes(Which::Fields)),
            (self.tests > 256, Breach::Passes(Which::Tests)),
            (self.asks > 256, Breach::Passes(Which::Asks)),
        ])
    }
}

/// The breach of the first row that holds.
pub(crate) fn first_breach(rows: &[(bool, Breach)]) -> Option<Breach>
    ensures { result ≡ first_breach rows.now }
{
    for (holds, breach) in rows {
        if *holds {
            return Some(*breach);
        }
    }
    None
}

/// A count and one more; no count passes 2^64 - 1.
pub(crate) fn one_more(count: u64) -> Result<u64, NoMemory>
    ensures { IfOk result (λ n. n ≡ count + 1) }
{
    if count == u64::MAX {
        return Err(NoMemory);
    }
    Ok(count + 1)
}

/// A count and the ranges of these atoms.
fn add_ranges(count: u64, atoms: &[Atom<'_>]) -> Result<u64, NoMemory>
    ensures { IfOk result (λ n. n ≡ count + ranges_in atoms.now) }
{
    let mut sum = count;
    for atom in atoms {
        let more = atom.range_count() as u64;
        if more > u64::MAX - sum {
            return Err(NoMemory);
        }
        sum += more;
    }
    Ok(sum)
}

/// Adds the names that these atoms have.
fn note_names<'a>(names: &mut BTreeSet<&'a Name>, atoms: &[Atom<'a>]) -> Result<(), NoMemory>
    ensures { OnOk result (lent_texts names.new.keys ≡ with_names (lent_texts names.old.keys) (names_in atoms.now)) }
{
    for atom in atoms {
        note_reads(names, atom.reads())?;
    }
    Ok(())
}

/// Adds the names that these references have.
fn note_reads<'a>(names: &mut BTreeSet<&'a Name>, reads: &[&'a Target]) -> Result<(), NoMemory>
    ensures { OnOk result (lent_texts names.new.keys
        ≡ with_names (lent_texts names.old.keys) (flat_map meta_name (lent reads.now))) }
{
    for target in reads {
        note_target(names, target)?;
    }
    Ok(())
}

fn note_target<'a>(names: &mut BTreeSet<&'a Name>, target: &'a Target) -> Result<(), NoMemory>
    ensures { OnOk result (lent_texts names.new.keys ≡ with_names (lent_texts names.old.keys) (meta_name target.now)) }
{
    match target {
        Target::Header { .. } => Ok(()),
        Target::Bound { .. } => Ok(()),
        Target::Meta { name, .. } => {
            names.insert(name)?;
            Ok(())
        }
    }
}
