//! What is kept beside the formulas of a condition.

ghost use Rattle.std.specs.Prelude.{◌≡◌, ◌∷◌, ◌==◌, if◌then◌else◌, IfOk};
ghost use Rattle.path_cond.specs.Conditions.{broken_after, is_broken_kind, is_simple_on, picks_at};
ghost use Rattle.sn_width.specs.declared.ids.SymId.{SymId as Symbol};

use path_formula::Kind;
use sn_tree::{Shared, Tree};
use sn_width::NoMemory;
use std::alloc::Global;

/// The first broken pick, with that of one more formula.
pub(crate) fn broken_with(broken: Option<u32>, kind: Kind, holds: bool, pick: u32) -> Option<u32>
    ensures { result ≡ broken_after broken (is_broken_kind holds kind) pick }
{
    if broken.is_none() && is_broken(kind, holds) {
        return Some(pick);
    }
    broken
}

fn is_broken(kind: Kind, holds: bool) -> bool
    ensures { result ≡ is_broken_kind holds kind }
{
    match kind {
        Kind::Constant(truth) => truth != holds,
        Kind::Simple { .. } => false,
        Kind::Inside => false,
        Kind::Outside => false,
    }
}

/// The picks of simple formulas, with that of one more formula.
pub(crate) fn simple_with(
    alloc: Global,
    simple: &Tree<u64, Shared<u32>>,
    kind: Kind,
    pick: u32,
) -> Result<Tree<u64, Shared<u32>>, NoMemory>
    ensures { IfOk result (λ tree. (s : Symbol) → picks_at s tree
        ≡ (if is_simple_on s kind then pick ∷ picks_at s simple.now else picks_at s simple.now)) }
{
    match kind {
        Kind::Simple { symbol } => pushed(alloc, simple, symbol.0, pick),
        Kind::Constant(_) => fork(simple),
        Kind::Inside => fork(simple),
        Kind::Outside => fork(simple),
    }
}

fn fork(simple: &Tree<u64, Shared<u32>>) -> Result<Tree<u64, Shared<u32>>, NoMemory>
    ensures { IfOk result (λ tree. tree ≡ simple.now) }
{
    match simple.fork() {
        Ok(tree) => Ok(tree),
        Err(_) => Err(NoMemory),
    }
}

/// With one more pick on top of those at the key.
fn pushed(
    alloc: Global,
    simple: &Tree<u64, Shared<u32>>,
    key: u64,
    pick: u32,
) -> Result<Tree<u64, Shared<u32>>, NoMemory>
    ensures { IfOk result (λ tree. (s : Symbol) → picks_at s tree
        ≡ (if key == s.0 then pick ∷ picks_at s simple.now else picks_at s simple.now)) }
{
    let picks = stack_with(alloc, simple, key, pick)?;
    match simple.with(alloc, key, picks) {
        Ok(tree) => Ok(tree),
        Err(_) => Err(NoMemory),
    }
}

/// One more pick on top of those at the key.
fn stack_with(
    alloc: Global,
    simple: &Tree<u64, Shared<u32>>,
    key: u64,
    pick: u32,
) -> Result<Shared<u32>, NoMemory>
    ensures { IfOk result (λ picks. picks ≡ pick ∷ picks_at (record { 0 = key }) simple.now) }
{
    let picks = match simple.get(&key) {
        Some(picks) => picks.push(alloc, pick),
        None => Shared::empty().push(alloc, pick),
    };
    match picks {
        Ok(picks) => Ok(picks),
        Err(_) => Err(NoMemory),
    }
}
