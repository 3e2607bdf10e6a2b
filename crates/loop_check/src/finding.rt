//! All paths of an exploration that are cut.

ghost use Rattle.std.specs.Prelude.{◌≡◌, ◌++◌, ◌∷◌, [], IfOk, IfErr, List, length};
ghost use Rattle.net_check.specs.Sound.{AreOfOneJob};
ghost use Rattle.exact_records.specs.Records.{RecordTree};
ghost use Rattle.symbolic_engine.specs.Finds.{found_tree};
ghost use Rattle.path_questions.specs.Deciding.{entry_of, net_of};
ghost use Rattle.loop_check.specs.Finding.{AreFound, IsAnswerTo, SaysIfCut, numbered};

use crate::paths::answer_of;
use loop_meaning::LoopAnswer;
use path_exec::{Observer, Took};
use path_questions::Subject;
use sefl_meaning::{Decision, End};
use sn_width::NoMemory;
use std::alloc::Global;
use std::marker::{Brand, PhantomData};
use symbolic_engine::Found;

/// What is explored: a net from an injection, with `hops` hops.
pub trait Mark {
    ghost use Rattle.std.specs.Prelude.{ℕ};
    ghost use Rattle.net_check.specs.Network.{Entry, Network};

    ghost net: { Network };

    ghost entry: { Entry };

    ghost hops: { ℕ };
}

impl Mark for Brand {
    ghost use Rattle.symbolic_engine.specs.Origins.{no_net};
    ghost use Rattle.loop_check.specs.Finding.{no_entry};

    ghost net = { no_net };

    ghost entry = { no_entry };

    ghost hops = { 0 };
}

/// Finds what each path that is cut tells of loops, and makes no record of what is found. It keeps the answers with the numbers of the
/// records of their paths.
#[derive(Drop)]
pub struct Finding<'a, M: Mark> {
    pub alloc: Global,
    pub subject: Subject<'a>,
    /// The numbers of the records of paths that are cut, each with what is found of it.
    pub found: Vec<(u64, LoopAnswer)>,
    /// How many records there are of what was found.
    pub count: u64,
    pub of: PhantomData<M>,
}

/// What loops tell of what was found behind these decisions; None where it is no path that is cut.
fn found_of(
    alloc: Global,
    subject: &Subject<'_>,
    found: &Found,
    decisions: &[Decision],
) -> Result<Option<LoopAnswer>, NoMemory>
    requires { AreOfOneJob (net_of subject.now) (entry_of subject.now) }
    ensures { IfOk result (SaysIfCut (net_of subject.now) (entry_of subject.now) subject.now.hops
        (found_tree found.now decisions.now)) }
{
    match found {
        Found::Path { state, end, .. } => match end {
            End::Cut => {
                let places = state.places(alloc)?;
                let answer = answer_of(alloc, subject, decisions, &places)?;
                Ok(Some(answer))
            }
            End::Delivered => Ok(None),
            End::Stopped => Ok(None),
            End::Failed { .. } => Ok(None),
        },
        Found::Pruned { .. } => Ok(None),
        Found::Unexplored => Ok(None),
    }
}

/// Adds what is found of the record of this number, if anything. An `Err` leaves all as it was.
fn note(
    number: u64,
    answer: Option<LoopAnswer>,
    found: &mut Vec<(u64, LoopAnswer)>,
) -> Result<(), NoMemory>
    ensures notes { IfOk result (λ done. found.new.items ≡ found.old.items ++ numbered number answer) }
    ensures stays { IfErr result (λ fault. found.new.items ≡ found.old.items) }
{
    match answer {
        None => Ok(()),
        Some(answer) => {
            found.push((number, answer))?;
            Ok(())
        }
    }
}

impl<M: Mark> Finding<'_, M> {
    /// Takes what was found behind these decisions into account. An `Err` leaves all as it was.
    fn keep(&mut self, found: &Found, decisions: &[Decision]) -> Result<(), NoMemory>
        requires { AreOfOneJob (net_of self.old.subject) (entry_of self.old.subject) }
        ensures same { self.new.subject ≡ self.old.subject }
        ensures keeps { IfOk result (λ done. (xs : List RecordTree) → self.old.count ≡ length xs
            → AreFound (IsAnswerTo (net_of self.old.subject) (entry_of self.old.subject) self.old.subject.hops) 0 xs
            self.old.found.items
            → (self.new.count ≡ length (xs ++ found_tree found.now decisions.now ∷ []))
            × AreFound (IsAnswerTo (net_of self.old.subject) (entry_of self.old.subject) self.old.subject.hops) 0
            (xs ++ found_tree found.now decisions.now ∷ []) self.new.found.items) }
        ensures stays { IfErr result (λ fault. (self.new.count ≡ self.old.count)
            × (self.new.found.items ≡ self.old.found.items)) }
    {
        let Some(next) = self.count.checked_add(1) else {
            return Err(NoMemory);
        };
        let answer = found_of(self.alloc, &self.subject, found, decisions)?;
        note(self.count, answer, &mut self.found)?;
        self.count = next;
        Ok(())
    }
}

impl<M: Mark> Observer for Finding<'_, M> {
    ghost use Rattle.std.specs.Prelude.{map};
    ghost use Rattle.net_check.specs.Sound.{AreOfOneJob};
    ghost use Rattle.symbolic_engine.specs.Finds.{handed_tree};
    ghost use Rattle.path_questions.specs.Deciding.{entry_of, net_of};
    ghost use Rattle.loop_check.specs.Finding.{IsFindingOf};

    type Found = Found;

    ghost seen = { λ finding. record {
      StandsFor = λ items. IsFindingOf M.net M.entry M.hops finding.subject finding.found.items finding.count (map handed_tree items);
      StoppedIn = λ items. Unit {0};
      stops = 0;
      target = 0;
      Takes = λ item. AreOfOneJob (net_of finding.subject) (entry_of finding.subject);
    } };

    fn see(&mut self, found: Found, decisions: &[Decision]) -> Took {
        let kept = self.keep(&found, decisions);
        drop(found);
        match kept {
            Ok(()) => Took::More,
            Err(_) => Took::NoMemory,
        }
    }
}
