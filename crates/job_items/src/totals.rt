//! What a whole job has, whatever is wrong with it.

ghost use Rattle.std.specs.Prelude.{◌≡◌, map, fold, OnOk, IfOk};
ghost use Rattle.sefl_syntax.specs.Views.{body_tree, port_tree, decl_tree, instr_tree, code_tree, cond_tree, ask_tree, job_tree};
ghost use Rattle.job_items.specs.Items.{job_items};
ghost use Rattle.job_items.specs.Nodes.{codes_of};
ghost use Rattle.job_items.specs.Rules.{no_counts, counted};
ghost use Rattle.job_items.specs.Totals.{counts_of, with_own, with_inner, with_code, with_ports, with_decl, with_nodes, with_field, with_fields, with_test, with_tests, with_ask, with_asks, with_job};

use crate::atoms::{cond_atoms, instr_atoms, lone_atom};
use crate::lines::ask_atoms;
use crate::tally::Tally;
use sefl_syntax::{Ask, Body, Cond, Instr, Job, NodeDecl, PortCode, RawField};
use sn_width::NoMemory;
use std::alloc::Global;

/// What all items of a job have.
pub(crate) fn totals_of<'a>(alloc: Global, job: &'a Job) -> Result<Tally<'a>, NoMemory>
    ensures { IfOk result (λ totals. counts_of totals ≡ fold counted no_counts (job_items (job_tree job.now))) }
{
    let mut tally = Tally::new(alloc);
    count_job(alloc, &mut tally, job)?;
    Ok(tally)
}

fn count_job<'a>(alloc: Global, tally: &mut Tally<'a>, job: &'a Job) -> Result<(), NoMemory>
    ensures { OnOk result (counts_of tally.new ≡ with_job (counts_of tally.old) (job_tree job.now)) }
{
    count_nodes(alloc, tally, &job.net.nodes)?;
    count_fields(alloc, tally, &job.injection.fields)?;
    count_tests(alloc, tally, &job.injection.tests)?;
    count_asks(alloc, tally, &job.asks)
}

fn count_nodes<'a>(
    alloc: Global,
    tally: &mut Tally<'a>,
    decls: &'a [NodeDecl],
) -> Result<(), NoMemory>
    ensures { OnOk result (counts_of tally.new ≡ with_nodes (counts_of tally.old) (map decl_tree decls.now)) }
{
    for decl in decls {
        count_node(alloc, tally, decl)?;
    }
    Ok(())
}

fn count_node<'a>(alloc: Global, tally: &mut Tally<'a>, decl: &'a NodeDecl) -> Result<(), NoMemory>
    ensures { OnOk result (counts_of tally.new ≡ with_decl (counts_of tally.old) (decl_tree decl.now)) }
{
    tally.add_node()?;
    count_body(alloc, tally, &decl.body)
}

fn count_body<'a>(alloc: Global, tally: &mut Tally<'a>, body: &'a Body) -> Result<(), NoMemory>
    ensures { OnOk result (counts_of tally.new ≡ with_ports (counts_of tally.old) (codes_of (body_tree body.now))) }
{
    match body {
        Body::Table { .. } => Ok(()),
        Body::Code(node) => count_ports(alloc, tally, &node.codes),
    }
}

fn count_ports<'a>(
    alloc: Global,
    tally: &mut Tally<'a>,
    codes: &'a [PortCode],
) -> Result<(), NoMemory>
    ensures { OnOk result (counts_of tally.new ≡ with_ports (counts_of tally.old) (map port_tree codes.now)) }
{
    for code in codes {
        count_code(alloc, tally, &code.code)?;
    }
    Ok(())
}

/// Counts instructions, those in blocks too.
#[cycle(count_code)]
fn count_code<'a>(alloc: Global, tally: &mut Tally<'a>, code: &'a [Instr]) -> Result<(), NoMemory>
    ensures { OnOk result (counts_of tally.new ≡ with_code (counts_of tally.old) (code_tree code.now)) }
{
    for instr in code {
        count_instr(alloc, tally, instr)?;
    }
    Ok(())
}

/// Counts an instruction and those in its blocks.
#[cycle(count_code)]
fn count_instr<'a>(alloc: Global, tally: &mut Tally<'a>, instr: &'a Instr) -> Result<(), NoMemory>
    ensures { OnOk result (counts_of tally.new ≡ with_inner (with_own (counts_of tally.old) (instr_tree instr.now))
        (instr_tree instr.now)) }
{
    count_own(alloc, tally, instr)?;
    match instr {
        Instr::If { first, other, .. } => {
            count_code(alloc, tally, first)?;
            count_code(alloc, tally, other)
        }
        Instr::For { body, .. } => count_code(alloc, tally, body),
        Instr::Block(body) => count_code(alloc, tally, body),
        _ => Ok(()),
    }
}

/// Counts an instruction alone.
fn count_own<'a>(alloc: Global, tally: &mut Tally<'a>, instr: &'a Instr) -> Result<(), NoMemory>
    ensures { OnOk result (counts_of tally.new ≡ with_own (counts_of tally.old) (instr_tree instr.now)) }
{
    let atoms = instr_atoms(alloc, instr)?;
    tally.add_instr(instr)?;
    tally.add_atoms(&atoms)
}

fn count_fields<'a>(
    alloc: Global,
    tally: &mut Tally<'a>,
    fields: &'a [RawField],
) -> Result<(), NoMemory>
    ensures { OnOk result (counts_of tally.new ≡ with_fields (counts_of tally.old) fields.now) }
{
    for field in fields {
        count_field(alloc, tally, field)?;
    }
    Ok(())
}

fn count_field<'a>(
    alloc: Global,
    tally: &mut Tally<'a>,
    field: &'a RawField,
) -> Result<(), NoMemory>
    ensures { OnOk result (counts_of tally.new ≡ with_field (counts_of tally.old) field.now) }
{
    let atoms = lone_atom(alloc, &field.target, field.value)?;
    tally.add_field()?;
    tally.add_atoms(&atoms)
}

fn count_tests<'a>(alloc: Global, tally: &mut Tally<'a>, tests: &'a [Cond]) -> Result<(), NoMemory>
    ensures { OnOk result (counts_of tally.new ≡ with_tests (counts_of tally.old) (map cond_tree tests.now)) }
{
    for test in tests {
        count_test(alloc, tally, test)?;
    }
    Ok(())
}

fn count_test<'a>(alloc: Global, tally: &mut Tally<'a>, test: &'a Cond) -> Result<(), NoMemory>
    ensures { OnOk result (counts_of tally.new ≡ with_test (counts_of tally.old) (cond_tree test.now)) }
{
    let atoms = cond_atoms(alloc, test)?;
    tally.add_test()?;
    tally.add_atoms(&atoms)
}

fn count_asks<'a>(alloc: Global, tally: &mut Tally<'a>, asks: &'a [Ask]) -> Result<(), NoMemory>
    ensures { OnOk result (counts_of tally.new ≡ with_asks (counts_of tally.old) (map ask_tree asks.now)) }
{
    for ask in asks {
        count_ask(alloc, tally, ask)?;
    }
    Ok(())
}

fn count_ask<'a>(alloc: Global, tally: &mut Tally<'a>, ask: &'a Ask) -> Result<(), NoMemory>
    ensures { OnOk result (counts_of tally.new ≡ with_ask (counts_of tally.old) (ask_tree ask.now)) }
{
    let atoms = ask_atoms(alloc, ask)?;
    tally.add_ask()?;
    tally.add_atoms(&atoms)
}
