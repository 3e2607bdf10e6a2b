//! The metadata names and the tag names that the parts of a job mention.

ghost use Rattle.std.specs.Prelude.{◌≡◌, OnOk, map, fold};
ghost use Rattle.sefl_syntax.specs.Views.{expr_tree, summand_trees, cond_tree, cond_trees, instr_tree, injection_tree, ask_tree};
ghost use Rattle.job_items.specs.Rules.{with_text};
ghost use Rattle.job_names.specs.Lent.{lent_names, noted_by};
ghost use Rattle.job_names.specs.Noted.{nothing_noted, noted_meta, noted_tag, noted_addr, noted_target, noted_expr, noted_summands, noted_cond, noted_conds, noted_instr, noted_line, noted_field, noted_injection, noted_ask};

use sefl_syntax::{Addr, Ask, Cond, Expr, Instr, Name, RawField, RawInjection, Sign, Target};
use sn_width::NoMemory;
use std::alloc::Global;
use std::collections::BTreeSet;

/// The names so far, lent by the job.
#[derive(Drop)]
pub(crate) struct Mentions<'a> {
    pub metas: BTreeSet<&'a Name>,
    pub tags: BTreeSet<&'a Name>,
}

impl<'a> Mentions<'a> {
    /// No names.
    pub(crate) fn new(alloc: Global) -> Mentions<'a>
        ensures { noted_by result ≡ nothing_noted }
    {
        Mentions {
            metas: BTreeSet::new(alloc),
            tags: BTreeSet::new(alloc),
        }
    }

    fn add_meta(&mut self, name: &'a Name) -> Result<(), NoMemory>
        ensures { OnOk result (noted_by self.new ≡ noted_meta (noted_by self.old) name.now) }
    {
        note_name(&mut self.metas, name)
    }

    fn add_tag(&mut self, name: &'a Name) -> Result<(), NoMemory>
        ensures { OnOk result (noted_by self.new ≡ noted_tag (noted_by self.old) name.now) }
    {
        note_name(&mut self.tags, name)
    }

    fn add_addr(&mut self, addr: &'a Addr) -> Result<(), NoMemory>
        ensures { OnOk result (noted_by self.new ≡ noted_addr (noted_by self.old) addr.now) }
    {
        match &addr.tag {
            None => Ok(()),
            Some(name) => self.add_tag(name),
        }
    }

    fn add_target(&mut self, target: &'a Target) -> Result<(), NoMemory>
        ensures { OnOk result (noted_by self.new ≡ noted_target (noted_by self.old) target.now) }
    {
        match target {
            Target::Header { addr, .. } => self.add_addr(addr),
            Target::Meta { name, .. } => self.add_meta(name),
            Target::Bound { .. } => Ok(()),
        }
    }

    /// Adds the names of an instruction, without those of the instructions in its blocks.
    pub(crate) fn add_instr(&mut self, instr: &'a Instr) -> Result<(), NoMemory>
        ensures { OnOk result (noted_by self.new ≡ noted_instr (noted_by self.old) (instr_tree instr.now)) }
    {
        match instr {
            Instr::Allocate(target) => self.add_target(target),
            Instr::Deallocate(target) => self.add_target(target),
            Instr::AssignAny(target) => self.add_target(target),
            Instr::Assign { target, value } => {
                self.add_target(target)?;
                add_expr(self, value)
            }
            Instr::CreateTag { name, addr } => {
                self.add_tag(name)?;
                self.add_addr(addr)
            }
            Instr::SetTag { name, addr } => {
                self.add_tag(name)?;
                self.add_addr(addr)
            }
            Instr::DestroyTag(name) => self.add_tag(name),
            Instr::Constrain(test) => add_cond(self, test),
            Instr::If { test, .. } => add_cond(self, test),
            Instr::Fail(_) => Ok(()),
            Instr::For { .. } => Ok(()),
            Instr::Forward(_) => Ok(()),
            Instr::Fork(_) => Ok(()),
            Instr::Block(_) => Ok(()),
            Instr::NoOp => Ok(()),
        }
    }

    /// Adds the names of the lines of an injection.
    pub(crate) fn add_injection(&mut self, injection: &'a RawInjection) -> Result<(), NoMemory>
        ensures { OnOk result (noted_by self.new ≡ noted_injection (noted_by self.old) (injection_tree injection.now)) }
    {
        self.add_lines(&injection.tags)?;
        self.add_fields(&injection.fields)?;
        self.add_tests(&injection.tests)
    }

    fn add_lines(&mut self, lines: &'a [(Name, Addr)]) -> Result<(), NoMemory>
        ensures { OnOk result (noted_by self.new ≡ fold noted_line (noted_by self.old) lines.now) }
    {
        for line in lines {
            self.add_line(line)?;
        }
        Ok(())
    }

    fn add_line(&mut self, line: &'a (Name, Addr)) -> Result<(), NoMemory>
        ensures { OnOk result (noted_by self.new ≡ noted_line (noted_by self.old) line.now) }
    {
        self.add_tag(&line.0)?;
        self.add_addr(&line.1)
    }

    fn add_fields(&mut self, fields: &'a [RawField]) -> Result<(), NoMemory>
        ensures { OnOk result (noted_by self.new ≡ fold noted_field (noted_by self.old) fields.now) }
    {
        for field in fields {
            self.add_target(&field.target)?;
        }
        Ok(())
    }

    fn add_tests(&mut self, tests: &'a [Cond]) -> Result<(), NoMemory>
        ensures { OnOk result (noted_by self.new ≡ fold noted_cond (noted_by self.old) (map cond_tree tests.now)) }
    {
        for test in tests {
            add_cond(self, test)?;
        }
        Ok(())
    }

    /// Adds the names of questions.
    pub(crate) fn add_asks(&mut self, asks: &'a [Ask]) -> Result<(), NoMemory>
        ensures { OnOk result (noted_by self.new ≡ fold noted_ask (noted_by self.old) (map ask_tree asks.now)) }
    {
        for ask in asks {
            self.add_ask(ask)?;
        }
        Ok(())
    }

    fn add_ask(&mut self, ask: &'a Ask) -> Result<(), NoMemory>
        ensures { OnOk result (noted_by self.new ≡ noted_ask (noted_by self.old) (ask_tree ask.now)) }
    {
        match ask {
            Ask::Reach { test, .. } => add_cond(self, test),
            Ask::Invariant { target, .. } => self.add_target(target),
            Ask::Visible { target, .. } => self.add_target(target),
        }
    }
}

/// Adds a name to a set.
fn note_name<'a>(names: &mut BTreeSet<&'a Name>, name: &'a Name) -> Result<(), NoMemory>
    ensures { OnOk result (lent_names names.new.keys ≡ with_text (lent_names names.old.keys) name.now) }
{
    names.insert(name)?;
    Ok(())
}

/// Adds the names of an expression.
#[cycle(add_expr)]
fn add_expr<'a>(mentions: &mut Mentions<'a>, expr: &'a Expr) -> Result<(), NoMemory>
    ensures { OnOk result (noted_by mentions.new ≡ noted_expr (noted_by mentions.old) (expr_tree expr.now)) }
{
    match expr {
        Expr::Const(_) => Ok(()),
        Expr::Read(target) => mentions.add_target(target),
        Expr::Sum { first, rest } => {
            add_expr(mentions, first)?;
            add_summands(mentions, rest)
        }
    }
}

/// Adds those of the further members of a sum.
#[cycle(add_expr)]
fn add_summands<'a>(
    mentions: &mut Mentions<'a>,
    summands: &'a [(Sign, Expr)],
) -> Result<(), NoMemory>
    ensures { OnOk result (noted_by mentions.new ≡ noted_summands (noted_by mentions.old)
        (summand_trees summands.now)) }
{
    for (_, operand) in summands {
        add_expr(mentions, operand)?;
    }
    Ok(())
}

/// Adds the names of a condition.
#[cycle(add_cond)]
fn add_cond<'a>(mentions: &mut Mentions<'a>, cond: &'a Cond) -> Result<(), NoMemory>
    ensures { OnOk result (noted_by mentions.new ≡ noted_cond (noted_by mentions.old) (cond_tree cond.now)) }
{
    match cond {
        Cond::True => Ok(()),
        Cond::Compare { left, right, .. } => {
            add_expr(mentions, left)?;
            add_expr(mentions, right)
        }
        Cond::Member { value, .. } => add_expr(mentions, value),
        Cond::And(members) => add_conds(mentions, members),
        Cond::Or(members) => add_conds(mentions, members),
        Cond::Not(member) => add_cond(mentions, member),
    }
}

/// Adds those of the members of a chain.
#[cycle(add_cond)]
fn add_conds<'a>(mentions: &mut Mentions<'a>, conds: &'a [Cond]) -> Result<(), NoMemory>
    ensures { OnOk result (noted_by mentions.new ≡ noted_conds (noted_by mentions.old) (cond_trees conds.now)) }
{
    for member in conds {
        add_cond(mentions, member)?;
    }
    Ok(())
}
