//! The node that a filter list stands for.

ghost use Rattle.std.specs.Prelude.{◌≡◌, ◌++◌, [], ◌∷◌, map, IfOk, OnOk};
ghost use Rattle.sefl_syntax.specs.Views.{code_tree, cond_tree, instr_tree, node_tree};
ghost use Rattle.table_nodes.specs.TableNodes.{alone};
ghost use Rattle.acl_model.specs.Nodes.{acl_code, acl_node, action_code, decision, decisions, denial, is_same, one_of, range_test, rule_decision, rule_test, run_decisions};

use crate::acl::Acl;
use acl_rules::Rule;
use sefl_syntax::{Cond, Expr, Instr, RawNode, Style, Text};
use sn_width::{NoMemory, Num};
use std::alloc::Global;
use table_nodes::{Field, cell, one_input};

/// The fields of a rule, in their order.
const FIELDS: [Field; 5] = [
    Field::Protocol,
    Field::SourceAddress,
    Field::DestinationAddress,
    Field::SourcePort,
    Field::DestinationPort,
];

fn range_test(alloc: Global, field: Field, range: (u32, u32)) -> Result<Cond, NoMemory>
    ensures { IfOk result (λ test. cond_tree test ≡ range_test field range) }
{
    let value = Expr::Read(cell(alloc, field)?);
    let ranges = vec![in alloc; (Num::from(range.0), Num::from(range.1))]?;
    Cond::member(alloc, value, ranges)
}

/// Adds a test. Functions that write code hold none themselves: it would have to be dropped where a later call fails.
fn add_test(tests: &mut Vec<Cond>, test: Cond) -> Result<(), NoMemory>
    ensures { OnOk result (map cond_tree tests.new.items ≡ map cond_tree tests.old.items ++ cond_tree test ∷ []) }
{
    tests.push(test)?;
    Ok(())
}

/// The test of a rule: each field lies in its range.
fn rule_test(alloc: Global, rule: &Rule) -> Result<Cond, NoMemory>
    ensures { IfOk result (λ test. cond_tree test ≡ rule_test rule.now) }
{
    let mut tests = Vec::with_capacity(alloc, FIELDS.len())?;
    for index in 0..5 {
        add_test(
            &mut tests,
            range_test(alloc, FIELDS[index], rule.ranges[index])?,
        )?;
    }
    Ok(Cond::And(tests))
}

fn denial(alloc: Global) -> Result<Instr, NoMemory>
    ensures { IfOk result (λ instr. instr_tree instr ≡ denial) }
{
    Ok(Instr::Fail(Text::of(alloc, "denied")?))
}

fn alone(alloc: Global, instr: Instr) -> Result<Vec<Instr>, NoMemory>
    ensures { IfOk result (λ code. code_tree code.items ≡ alone (instr_tree instr)) }
{
    Ok(vec![in alloc; instr]?)
}

/// What is done with packets that are permitted or denied.
fn action_code(alloc: Global, permits: bool) -> Result<Vec<Instr>, NoMemory>
    ensures { IfOk result (λ code. code_tree code.items ≡ action_code permits) }
{
    if permits {
        alone(alloc, Instr::Forward(0))
    } else {
        alone(alloc, denial(alloc)?)
    }
}

/// The decision about packets that pass the test.
fn decision(alloc: Global, permits: bool, test: Cond) -> Result<Instr, NoMemory>
    ensures { IfOk result (λ instr. instr_tree instr ≡ decision permits (cond_tree test)) }
{
    let first = action_code(alloc, permits)?;
    let other = Vec::new(alloc);
    Ok(Instr::If { test, first, other })
}

/// Adds an instruction.
fn add(code: &mut Vec<Instr>, instr: Instr) -> Result<(), NoMemory>
    ensures { OnOk result (map instr_tree code.new.items ≡ map instr_tree code.old.items ++ instr_tree instr ∷ []) }
{
    code.push(instr)?;
    Ok(())
}

/// A decision for each rule.
fn rule_decisions(alloc: Global, rules: &[Rule]) -> Result<Vec<Instr>, NoMemory>
    ensures { IfOk result (λ code. map instr_tree code.items ≡ map rule_decision rules.now) }
{
    let mut code = Vec::new(alloc);
    for rule in rules {
        let test = rule_test(alloc, rule)?;
        add(&mut code, decision(alloc, rule.permits, test)?)?;
    }
    Ok(code)
}

fn is_same(one: bool, other: bool) -> bool
    ensures { result ≡ is_same one other }
{
    one == other
}

/// One test, or one of several.
fn one_of(tests: Vec<Cond>) -> Cond
    ensures { cond_tree result ≡ one_of (map cond_tree tests.items) }
{
    let mut tests = tests;
    if tests.len() != 1 {
        return Cond::Or(tests);
    }
    let Some(only) = tests.pop() else {
        unreachable!();
    };
    only
}

/// A decision for each longest run of rules with one action.
fn run_decisions(alloc: Global, rules: &[Rule]) -> Result<Vec<Instr>, NoMemory>
    ensures { IfOk result (λ code. map instr_tree code.items ≡ run_decisions rules.now) }
{
    let mut code = Vec::new(alloc);
    let Some((first, rest)) = rules.split_first() else {
        return Ok(code);
    };
    let mut permits = first.permits;
    let mut tests = Vec::new(alloc);
    add_test(&mut tests, rule_test(alloc, first)?)?;
    for rule in rest {
        if !is_same(permits, rule.permits) {
            add(&mut code, decision(alloc, permits, one_of(tests))?)?;
            permits = rule.permits;
            tests = Vec::new(alloc);
        }
        add_test(&mut tests, rule_test(alloc, rule)?)?;
    }
    add(&mut code, decision(alloc, permits, one_of(tests))?)?;
    Ok(code)
}

fn decisions(alloc: Global, style: Style, rules: &[Rule]) -> Result<Vec<Instr>, NoMemory>
    ensures { IfOk result (λ code. map instr_tree code.items ≡ decisions style rules.now) }
{
    match style {
        Style::Chain => rule_decisions(alloc, rules),
        Style::Grouped => run_decisions(alloc, rules),
        Style::Egress => Ok(Vec::new(alloc)),
    }
}

/// The code of the input port.
fn acl_code(alloc: Global, style: Style, rules: &[Rule]) -> Result<Vec<Instr>, NoMemory>
    ensures { IfOk result (λ code. code_tree code.items ≡ acl_code style rules.now) }
{
    let mut code = decisions(alloc, style, rules)?;
    add(&mut code, denial(alloc)?)?;
    Ok(code)
}

/// The node of a list, in style chain or grouped: packets that the list permits leave by output 0, the others fail with the text
/// `denied`.
pub fn acl_node(alloc: Global, acl: &Acl, style: Style) -> Result<RawNode, NoMemory>
    requires { style ≡ Style.Egress → ⊥ }
    ensures { IfOk result (λ node. node_tree node ≡ acl_node style acl.now) }
{
    one_input(alloc, 1, acl_code(alloc, style, acl.rules())?)
}
