//! Asking the patterns of a job for its metadata names.

ghost use Rattle.std.specs.Prelude.{◌≡◌, ◌<◌, IfOk, OnOk};
ghost use Rattle.std.specs.Option.{ForSome};
ghost use Rattle.sn_edge.specs.Told.{PatternsKept};
ghost use Rattle.pattern_answers.specs.Answers.{found_as, with_found, AnswersNames, AnswersAll, IfAnswered, OnRefused, refused_site};
ghost use Rattle.pattern_answers.specs.Asking.{IsStep};
ghost use Rattle.pattern_answers.specs.Told.{found_by, bad_site};

use job_names::JobNames;
use sefl_syntax::{Name, Text};
use sn_edge::{Found, Patterns};
use sn_width::{NameId, NoMemory};
use std::alloc::Global;

/// What the patterns of a job answer.
#[derive(Drop)]
pub enum PatternAnswers {
    /// For each pattern, by its index, the ids of the names that it finds, ascending.
    Answered(Vec<Vec<NameId>>),
    /// The first pattern that is refused, by the site of the first For that has it.
    Refused { site: u64 },
}

/// Asks the patterns in order of first occurrence, each for every metadata name ascending, once for
/// each pair. The first Bad ends it.
pub fn found_names<P: Patterns>(
    alloc: Global,
    names: &JobNames,
    patterns: &mut P,
) -> Result<PatternAnswers, NoMemory>
    ensures kept { PatternsKept (P.told patterns.old) (P.told patterns.new) }

    // Each answer is one that `find` may give at that state.
    ensures asked { IfOk result (λ answers. AnswersAll (IsStep P.told P.find_gives)
        names.now.metas names.now.patterns patterns.old answers patterns.new) }
    ensures refused { IfOk result (λ answers. OnRefused answers
        ((P.told patterns.old).refusals < (P.told patterns.new).refusals)) }

    // Where the object tells it.
    ensures found { IfOk result (λ answers. ForSome (P.told patterns.old).matches
        (λ finds. IfAnswered answers (λ lists. lists ≡ found_by finds names.now))) }
    ensures bad { IfOk result (λ answers. ForSome (P.told patterns.old).bad
        (λ is_bad. refused_site answers ≡ bad_site is_bad names.now.metas names.now.patterns)) }
{
    ask_patterns(alloc, names, patterns)
}

fn ask_patterns<P: Patterns>(
    alloc: Global,
    names: &JobNames,
    patterns: &mut P,
) -> Result<PatternAnswers, NoMemory>
    ensures kept { PatternsKept (P.told patterns.old) (P.told patterns.new) }
    ensures asked { IfOk result (λ answers. AnswersAll (IsStep P.told P.find_gives)
        names.now.metas names.now.patterns patterns.old answers patterns.new) }
{
    let mut lists = Vec::new(alloc);
    for index in 0..names.pattern_count() {
        let (pattern, site) = names.pattern(index);
        let Some(ids) = ask_names(alloc, names, patterns, pattern)? else {
            return Ok(PatternAnswers::Refused { site });
        };
        lists.push(ids)?;
    }
    Ok(PatternAnswers::Answered(lists))
}

/// Asks a pattern for every metadata name; the ids of those that it finds, or None if it is refused.
fn ask_names<P: Patterns>(
    alloc: Global,
    names: &JobNames,
    patterns: &mut P,
    pattern: &Text,
) -> Result<Option<Vec<NameId>>, NoMemory>
    ensures kept { PatternsKept (P.told patterns.old) (P.told patterns.new) }
    ensures asked { IfOk result (λ answer. AnswersNames (IsStep P.told P.find_gives)
        pattern.now names.now.metas patterns.old answer patterns.new) }
{
    let mut ids = Vec::new(alloc);
    for id in 0..names.meta_count() {
        let name = names.meta_name(NameId(id));
        let Some(is_found) = ask(alloc, patterns, pattern, name)? else {
            return Ok(None);
        };
        note(&mut ids, NameId(id), is_found)?;
    }
    Ok(Some(ids))
}

/// Asks a pattern for a name: whether it finds it, or None if it is refused.
fn ask<P: Patterns>(
    alloc: Global,
    patterns: &mut P,
    pattern: &Text,
    name: &Name,
) -> Result<Option<bool>, NoMemory>
    ensures kept { PatternsKept (P.told patterns.old) (P.told patterns.new) }
    ensures asked { IfOk result (λ answer. IsStep P.told P.find_gives
        patterns.old pattern.now name.now (found_as answer) patterns.new) }
{
    match patterns.find(alloc, pattern.text(), name.text()) {
        Found::Yes => Ok(Some(true)),
        Found::No => Ok(Some(false)),
        Found::Bad => Ok(None),
        Found::NoMemory => Err(NoMemory),
    }
}

/// Notes a name that is found.
fn note(ids: &mut Vec<NameId>, id: NameId, is_found: bool) -> Result<(), NoMemory>
    ensures { OnOk result (ids.new.items ≡ with_found is_found id ids.old.items) }
{
    if is_found {
        ids.push(id)?;
    }
    Ok(())
}
