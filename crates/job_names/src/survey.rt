//! The walk over the nodes of a job, item by item.

ghost use Rattle.std.specs.Prelude.{◌≡◌, ◌+◌, OnOk, map, fold};
ghost use Rattle.sefl_syntax.specs.Views.{instr_tree, code_tree, port_tree, body_tree, decl_tree};
ghost use Rattle.job_items.specs.Nodes.{codes_of};
ghost use Rattle.job_names.specs.Lent.{surveyed_by};
ghost use Rattle.job_names.specs.Occurrences.{with_first};
ghost use Rattle.job_names.specs.Surveyed.{nothing_surveyed, passed, patterned, begun, surveyed_instr, surveyed_code, surveyed_port, surveyed_decl};

use crate::mentions::Mentions;
use indexmap::IndexMap;
use sefl_syntax::{Body, Instr, NodeDecl, PortCode, Text};
use sn_width::NoMemory;
use std::alloc::Global;

/// The names of the items that are passed, their number, and the patterns, each with the site of
/// the first For that has it.
#[derive(Drop)]
pub(crate) struct Survey<'a> {
    pub mentions: Mentions<'a>,
    pub site: u64,
    pub patterns: IndexMap<Text, u64>,
}

impl<'a> Survey<'a> {
    /// Before the first item.
    pub(crate) fn new(alloc: Global) -> Survey<'a>
        ensures { surveyed_by result ≡ nothing_surveyed }
    {
        Survey {
            mentions: Mentions::new(alloc),
            site: 0,
            patterns: IndexMap::new(alloc),
        }
    }

    /// Passes an item.
    fn step(&mut self) -> Result<(), NoMemory>
        ensures { OnOk result (surveyed_by self.new ≡ passed (surveyed_by self.old)) }
    {
        if self.site == u64::MAX {
            return Err(NoMemory);
        }
        self.site += 1;
        Ok(())
    }

    /// Passes nodes with their code.
    pub(crate) fn pass_nodes(&mut self, nodes: &'a [NodeDecl]) -> Result<(), NoMemory>
        ensures { OnOk result (surveyed_by self.new
            ≡ fold surveyed_decl (surveyed_by self.old) (map decl_tree nodes.now)) }
    {
        for node in nodes {
            self.pass_node(node)?;
        }
        Ok(())
    }

    fn pass_node(&mut self, node: &'a NodeDecl) -> Result<(), NoMemory>
        ensures { OnOk result (surveyed_by self.new ≡ surveyed_decl (surveyed_by self.old) (decl_tree node.now)) }
    {
        self.step()?;
        self.pass_body(&node.body)
    }

    /// Passes the code of a node; a table that has not been read has none.
    fn pass_body(&mut self, body: &'a Body) -> Result<(), NoMemory>
        ensures { OnOk result (surveyed_by self.new
            ≡ fold surveyed_port (surveyed_by self.old) (codes_of (body_tree body.now))) }
    {
        match body {
            Body::Code(node) => self.pass_ports(&node.codes),
            Body::Table { .. } => Ok(()),
        }
    }

    fn pass_ports(&mut self, ports: &'a [PortCode]) -> Result<(), NoMemory>
        ensures { OnOk result (surveyed_by self.new
            ≡ fold surveyed_port (surveyed_by self.old) (map port_tree ports.now)) }
    {
        for port in ports {
            self.pass_port(port)?;
        }
        Ok(())
    }

    fn pass_port(&mut self, port: &'a PortCode) -> Result<(), NoMemory>
        ensures { OnOk result (surveyed_by self.new ≡ surveyed_port (surveyed_by self.old) (port_tree port.now)) }
    {
        self.step()?;
        pass_code(self, &port.code)
    }

    /// Passes an instruction, without those in its blocks.
    fn begin(&mut self, instr: &'a Instr) -> Result<(), NoMemory>
        ensures { OnOk result (surveyed_by self.new ≡ begun (surveyed_by self.old) (instr_tree instr.now)) }
    {
        self.mentions.add_instr(instr)?;
        self.note_loop(instr)?;
        self.step()
    }

    /// Notes the pattern, if the instruction is a For.
    fn note_loop(&mut self, instr: &'a Instr) -> Result<(), NoMemory>
        ensures { OnOk result (surveyed_by self.new ≡ patterned (surveyed_by self.old) (instr_tree instr.now)) }
    {
        match instr {
            Instr::For { pattern, .. } => note_pattern(&mut self.patterns, pattern, self.site),
            _ => Ok(()),
        }
    }
}

/// Notes a pattern with its site, unless the pattern is there.
fn note_pattern(
    patterns: &mut IndexMap<Text, u64>,
    pattern: &Text,
    site: u64,
) -> Result<(), NoMemory>
    ensures { OnOk result (patterns.new.entries ≡ with_first patterns.old.entries (pattern.now, site)) }
{
    if patterns.contains_key(pattern) {
        return Ok(());
    }
    let pattern = pattern.clone()?;
    patterns.insert(pattern, site)?;
    Ok(())
}

/// Passes instructions with those in their blocks.
#[cycle(pass_code)]
fn pass_code<'a>(survey: &mut Survey<'a>, code: &'a [Instr]) -> Result<(), NoMemory>
    ensures { OnOk result (surveyed_by survey.new ≡ surveyed_code (surveyed_by survey.old) (code_tree code.now)) }
{
    for instr in code {
        pass_instr(survey, instr)?;
    }
    Ok(())
}

/// Passes an instruction with those in its blocks.
#[cycle(pass_code)]
fn pass_instr<'a>(survey: &mut Survey<'a>, instr: &'a Instr) -> Result<(), NoMemory>
    ensures { OnOk result (surveyed_by survey.new ≡ surveyed_instr (surveyed_by survey.old) (instr_tree instr.now)) }
{
    survey.begin(instr)?;
    match instr {
        Instr::If { first, other, .. } => {
            pass_code(survey, first)?;
            pass_code(survey, other)
        }
        Instr::For { body, .. } => pass_code(survey, body),
        Instr::Block(body) => pass_code(survey, body),
        _ => Ok(()),
    }
}
