//! The ranges of each port, by one sweep over spans in order of their first numbers.

ghost use Rattle.std.specs.Prelude.{◌≡◌, ◌++◌, ◌∷◌, [], ℕ, ◌<◌, ◌≤◌, ◌-◌, ◌==◌, ◌&&◌, nat_lt, if◌then◌else◌, length, max, reverse, Option, None, IfSome, IfOk, OnOk, All};
ghost use Rattle.sn_ranges.specs.Ranges.{is_member};
ghost use Rattle.fib_model.specs.Sweeps.{AreOrdered, Fills, Goes, StartFrom, last_port, first_of, others_of, set_at};
ghost use Rattle.table_nodes.specs.TableNodes.{is_port};

use sn_width::{NoMemory, Num};
use std::alloc::Global;

/// Numbers that belong to a port, both ends included.
#[derive(Clone, Copy)]
pub struct Span {
    pub first: Num,
    pub last: Num,
    pub port: usize,
}

/// A span whose first number was passed.
#[derive(Clone, Copy)]
struct Open {
    last: Num,
    port: usize,
}

/// What is known below the start: the ranges of each port. The last span that was opened stands last.
#[derive(Drop)]
struct Sweep {
    sets: Vec<Vec<(Num, Num)>>,
    pending: Vec<Open>,
    start: Num,
}

/// Adds a range to those of a port.
fn note(sets: &mut Vec<Vec<(Num, Num)>>, port: usize, range: (Num, Num)) -> Result<(), NoMemory>
    requires { port < length sets.old.items }
    ensures len { length sets.new.items ≡ length sets.old.items }
    ensures noted { OnOk result ((q : ℕ) → set_at sets.new.items q
        ≡ (if port == q then set_at sets.old.items q ++ range ∷ [] else set_at sets.old.items q)) }
{
    sets[port].push(range)?;
    Ok(())
}

/// The span that was opened last.
fn top(pending: &Vec<Open>) -> Option<Open>
    ensures { result ≡ first_of (reverse pending.now.items) }
{
    pending.last().copied()
}

/// Removes it.
fn pop(pending: &mut Vec<Open>)
    ensures rest { reverse pending.new.items ≡ others_of (reverse pending.old.items) }
    ensures ports { (n : ℕ) → All (λ p. p.port < n) pending.old.items → All (λ p. p.port < n) pending.new.items }
    ensures len { length pending.new.items ≡ length pending.old.items - 1 }
{
    pending.pop();
}

impl Sweep {
    /// All numbers from the start to before this one have the port, or none has.
    fn fill(&mut self, to: Num, found: Option<usize>) -> Result<(), NoMemory>
        requires { IfSome found (λ port. port < length self.old.sets.items) }
        ensures len { length self.new.sets.items ≡ length self.old.sets.items }
        ensures pending { self.new.pending.items ≡ self.old.pending.items }
        ensures start { OnOk result (self.new.start ≡ max self.old.start to) }
        ensures ordered { OnOk result (AreOrdered self.old.sets.items → AreOrdered self.new.sets.items) }
        ensures fills { OnOk result ((whole : ℕ → Option ℕ) → Fills whole self.old
            → ((a : ℕ) → self.old.start ≤ a → a < to → whole a ≡ found) → Fills whole self.new) }
    {
        if to <= self.start {
            return Ok(());
        }
        let Some(port) = found else {
            self.start = to;
            return Ok(());
        };
        note(&mut self.sets, port, (self.start, to - 1))?;
        self.start = to;
        Ok(())
    }

    /// Goes on to a number, where spans that begin later change nothing before it.
    fn move_to(&mut self, to: Num) -> Result<(), NoMemory>
        requires { All (λ p. p.port < length self.old.sets.items) self.old.pending.items }
        ensures len { length self.new.sets.items ≡ length self.old.sets.items }
        ensures ports { All (λ p. p.port < length self.new.sets.items) self.new.pending.items }
        ensures start { OnOk result (self.new.start ≡ max self.old.start to) }
        ensures ordered { OnOk result (AreOrdered self.old.sets.items → AreOrdered self.new.sets.items) }
        ensures goes { OnOk result ((whole : ℕ → Option ℕ) (rest : ℕ → Option ℕ → Option ℕ)
            → ((a : ℕ) (found : Option ℕ) → a < to → rest a found ≡ found)
            → Goes whole rest self.old → Goes whole rest self.new) }
    {
        while let Some(last) = top(&self.pending) {
            if last.last >= to {
                self.fill(to, Some(last.port))?;
                return Ok(());
            }
            self.fill(last.last + 1, Some(last.port))?;
            pop(&mut self.pending);
        }
        self.fill(to, None)?;
        Ok(())
    }
}

/// As many empty sets.
fn no_sets(alloc: Global, ports: usize) -> Result<Vec<Vec<(Num, Num)>>, NoMemory>
    ensures len { IfOk result (λ sets. length sets.items ≡ ports) }
    ensures empty { IfOk result (λ sets. (q : ℕ) → set_at sets.items q ≡ []) }
{
    let mut sets = Vec::new(alloc);
    for _ in 0..ports {
        sets.push(Vec::new(alloc))?;
    }
    Ok(sets)
}

/// For each port the ranges of the numbers before the end that are its own: the last span that covers
/// a number decides. The spans stand in order of their first numbers.
pub fn sets_of(
    alloc: Global,
    ports: usize,
    spans: &[Span],
    end: Num,
) -> Result<Vec<Vec<(Num, Num)>>, NoMemory>
    requires order { StartFrom 0 spans.now }
    requires ports { All (λ span. span.port < ports) spans.now }
    requires end { All (λ span. span.first ≤ end) spans.now }
    ensures len { IfOk result (λ sets. length sets.items ≡ ports) }
    ensures ordered { IfOk result (λ sets. AreOrdered sets.items) }
    ensures sets { IfOk result (λ sets. (a q : ℕ) → is_member (set_at sets.items q) a
        ≡ (nat_lt a end && is_port (last_port spans.now a None) q)) }
{
    let sets = no_sets(alloc, ports)?;
    let mut sweep = Sweep {
        sets,
        pending: Vec::new(alloc),
        start: 0,
    };
    for span in spans {
        sweep.move_to(span.first)?;
        sweep.pending.push(Open {
            last: span.last,
            port: span.port,
        })?;
    }
    sweep.move_to(end)?;
    let Sweep {
        sets,
        pending,
        start,
    } = sweep;
    drop(pending);
    Ok(sets)
}
