//! The code of elements that test packets.

ghost use Rattle.std.specs.Prelude.{◌≡◌, length, map, IfOk};
ghost use Rattle.sefl_syntax.specs.Views.{code_tree, instr_tree};
ghost use Rattle.table_nodes.specs.TableNodes.{guard_instr};
ghost use Rattle.click_elements.specs.Classes.{seen_pattern, seen_rule};
ghost use Rattle.click_elements.specs.Patterns.{pattern_test};
ghost use Rattle.click_elements.specs.Codes.{rule_code, rule_instr, ip_filter_code, pattern_instrs, ip_classifier_code};

use crate::class::{Pattern, Rule};
use crate::code::{add, drop_code, dropped, forward_code};
use crate::pattern::pattern_test;
use sefl_syntax::Instr;
use sn_width::NoMemory;
use std::alloc::Global;
use table_nodes::guard;

fn rule_code(alloc: Global, allows: bool) -> Result<Vec<Instr>, NoMemory>
    ensures { IfOk result (λ code. code_tree code.items ≡ rule_code allows) }
{
    if allows {
        forward_code(alloc, 0)
    } else {
        drop_code(alloc)
    }
}

fn rule_instr(alloc: Global, rule: &Rule) -> Result<Instr, NoMemory>
    ensures { IfOk result (λ instr. instr_tree instr ≡ rule_instr (seen_rule rule.now)) }
{
    let test = pattern_test(alloc, &rule.pattern.primitives)?;
    let first = rule_code(alloc, rule.allows)?;
    let other = Vec::new(alloc);
    Ok(Instr::If { test, first, other })
}

fn rule_instrs(alloc: Global, rules: &[Rule]) -> Result<Vec<Instr>, NoMemory>
    ensures { IfOk result (λ code. map instr_tree code.items ≡ map rule_instr (map seen_rule rules.now)) }
{
    let mut code = Vec::new(alloc);
    for rule in rules {
        code.push(rule_instr(alloc, rule)?)?;
    }
    Ok(code)
}

/// The first rule whose pattern a packet passes decides, and packets that pass none are dropped.
pub(crate) fn ip_filter_code(alloc: Global, rules: &[Rule]) -> Result<Vec<Instr>, NoMemory>
    ensures { IfOk result (λ code. code_tree code.items ≡ ip_filter_code (map seen_rule rules.now)) }
{
    let mut code = rule_instrs(alloc, rules)?;
    add(&mut code, dropped(alloc)?)?;
    Ok(code)
}

fn pattern_instr(alloc: Global, pattern: &Pattern, port: u32) -> Result<Instr, NoMemory>
    ensures { IfOk result (λ instr. instr_tree instr ≡ guard_instr (pattern_test (seen_pattern pattern.now), port)) }
{
    guard(alloc, pattern_test(alloc, &pattern.primitives)?, port)
}

fn pattern_instrs(alloc: Global, ports: u32, patterns: &[Pattern]) -> Result<Vec<Instr>, NoMemory>
    requires { length patterns.now ≡ ports }
    ensures { IfOk result (λ code. map instr_tree code.items ≡ pattern_instrs 0 (map seen_pattern patterns.now)) }
{
    let mut code = Vec::new(alloc);
    for port in 0..ports {
        code.push(pattern_instr(alloc, &patterns[port as usize], port)?)?;
    }
    Ok(code)
}

/// A packet leaves by the output of the first pattern that it passes, and is dropped if it passes none.
pub(crate) fn ip_classifier_code(
    alloc: Global,
    ports: u32,
    patterns: &[Pattern],
) -> Result<Vec<Instr>, NoMemory>
    requires { length patterns.now ≡ ports }
    ensures { IfOk result (λ code. code_tree code.items ≡ ip_classifier_code (map seen_pattern patterns.now)) }
{
    let mut code = pattern_instrs(alloc, ports, patterns)?;
    add(&mut code, dropped(alloc)?)?;
    Ok(code)
}
