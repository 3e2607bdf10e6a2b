//! All questions of an exploration.

ghost use Rattle.std.specs.Prelude.{◌≡◌, ◌++◌, ◌∷◌, [], IfOk, List, length};
ghost use Rattle.exact_records.specs.Records.{RecordTree};
ghost use Rattle.path_exec.specs.Handing.{handed};
ghost use Rattle.path_questions.specs.Deciding.{entry_of, net_of};
ghost use Rattle.symbolic_engine.specs.Exploring.{IsHandedBy};
ghost use Rattle.symbolic_engine.specs.Finds.{found_tree};
ghost use Rattle.queries.specs.Holding.{AreKept, IsReady, IsSameAsking};

use crate::keeping::keep_all;
use crate::seen::see_found;
use path_exec::{Observer, Took};
use path_questions::{Kept, Question, Subject, are_found};
use sefl_meaning::Decision;
use sn_width::NoMemory;
use std::alloc::Global;
use std::marker::{Brand, PhantomData};
use symbolic_engine::Found;

/// What is asked: questions about the walks through a net from an injection, with `hops` hops.
pub trait Mark {
    ghost use Rattle.std.specs.Prelude.{ℕ, List};
    ghost use Rattle.net_check.specs.Network.{Entry, Network};
    ghost use Rattle.path_questions.specs.declared.question.Question.{Question};

    ghost net: { Network };

    ghost entry: { Entry };

    ghost hops: { ℕ };

    ghost questions: { List Question };
}

impl Mark for Brand {
    ghost use Rattle.std.specs.Prelude.{[]};
    ghost use Rattle.symbolic_engine.specs.Origins.{no_net};
    ghost use Rattle.queries.specs.Holding.{no_entry};

    ghost net = { no_net };

    ghost entry = { no_entry };

    ghost hops = { 0 };

    ghost questions = { [] };
}

/// Takes what is found into account, and makes no record of it. It keeps the first hit of each question, or the numbers of the records
/// that leave it open.
#[derive(Drop)]
pub struct Asking<'a, M: Mark> {
    pub alloc: Global,
    pub subject: Subject<'a>,
    pub questions: Vec<Question<'a>>,
    pub kept: Vec<Kept>,
    /// How many records were taken into account.
    pub count: u64,
    /// Whether memory ended in the midst of the questions.
    pub failed: bool,
    pub of: PhantomData<M>,
}

impl<M: Mark> Asking<'_, M> {
    /// Takes what was found behind these decisions into account for each question. Where each has its hit no path is followed any more.
    pub(crate) fn keep(&mut self, found: Found, decisions: &[Decision]) -> Result<(), NoMemory>
        requires ready { IsReady self.old.subject self.old.questions.items self.old.kept.items }
        requires found { IsHandedBy (net_of self.old.subject) (entry_of self.old.subject) self.old.subject.hops
            (handed decisions.now found) }
        ensures same { IsSameAsking self.old.subject self.new.subject self.old.questions.items self.new.questions.items
            self.old.failed self.new.failed }
        ensures one_each { length self.new.kept.items ≡ length self.old.kept.items }
        ensures keeps { IfOk result (λ done. (xs : List RecordTree) → self.old.count ≡ length xs
            → AreKept (net_of self.old.subject) (entry_of self.old.subject) self.old.subject.hops xs
            self.old.questions.items self.old.kept.items
            → (self.new.count ≡ length (xs ++ found_tree found decisions.now ∷ []))
            × AreKept (net_of self.old.subject) (entry_of self.old.subject) self.old.subject.hops
            (xs ++ found_tree found decisions.now ∷ []) self.old.questions.items self.new.kept.items) }
    {
        let Some(next) = self.count.checked_add(1) else {
            drop(found);
            return Err(NoMemory);
        };
        if are_found(&self.kept) {
            drop(found);
            self.count = next;
            return Ok(());
        }
        let seen = see_found(
            self.alloc,
            &self.subject,
            &self.questions,
            &self.kept,
            found,
            decisions,
        )?;
        keep_all(
            self.alloc,
            &self.subject,
            &self.questions,
            self.count,
            &seen,
            &mut self.kept,
        )?;
        self.count = next;
        Ok(())
    }
}

impl<M: Mark> Observer for Asking<'_, M> {
    ghost use Rattle.std.specs.Prelude.{map};
    ghost use Rattle.path_questions.specs.Deciding.{entry_of, net_of};
    ghost use Rattle.symbolic_engine.specs.Exploring.{IsHandedBy};
    ghost use Rattle.symbolic_engine.specs.Finds.{handed_tree};
    ghost use Rattle.queries.specs.Holding.{IsAskingOf, IsReady};

    type Found = Found;

    ghost seen = { λ asking. record {
      StandsFor = λ items. IsAskingOf M.net M.entry M.hops M.questions asking.subject asking.questions.items asking.kept.items asking.count
          asking.failed (map handed_tree items);
      StoppedIn = λ items. Unit {0};
      stops = 0;
      target = 0;
      Takes = λ item. IsReady asking.subject asking.questions.items asking.kept.items
          × IsHandedBy (net_of asking.subject) (entry_of asking.subject) asking.subject.hops item;
    } };

    fn see(&mut self, found: Found, decisions: &[Decision]) -> Took {
        if self.failed {
            drop(found);
            return Took::NoMemory;
        }
        match self.keep(found, decisions) {
            Ok(()) => Took::More,
            Err(_) => {
                self.failed = true;
                Took::NoMemory
            }
        }
    }
}
