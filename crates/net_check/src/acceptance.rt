//! Acceptance.

ghost use Rattle.std.specs.Prelude.{◌≡◌, ◌<◌, ℕ, length, map, IfOk, Some, Err};
ghost use Rattle.std.specs.List.{AllByRecursion};
ghost use Rattle.std.specs.Option.{ForSome};
ghost use Rattle.sn_width.specs.declared.ids.Site.{Site as SiteOf};
ghost use Rattle.sn_edge.specs.Told.{PatternsKept};
ghost use Rattle.sefl_syntax.specs.Views.{job_tree};
ghost use Rattle.job_items.specs.Rules.{refusal};
ghost use Rattle.job_items.specs.declared.rule.Rule.{Rule as RuleOf};
ghost use Rattle.job_items.specs.declared.rule.Rule.TheVariants.{BadPattern};
ghost use Rattle.job_names.specs.Names.{names_of};
ghost use Rattle.pattern_answers.specs.Asking.{IsStep};
ghost use Rattle.pattern_answers.specs.Told.{bad_site, found_by};
ghost use Rattle.net_check.specs.Acceptance.{Asked, IsAcceptedAs, IsBadPattern, IsByPatterns, IsCause, IsRefusedBy};
ghost use Rattle.net_check.specs.Sound.{AreIds, IsSound};
ghost use Rattle.net_check.specs.declared.fault.AcceptFault.TheVariants.{Refused};

use crate::fault::AcceptFault;
use crate::injection::Injection;
use crate::net::Net;
use job_items::{Rule, refusal_of};
use job_names::{JobNames, names_of};
use pattern_answers::{PatternAnswers, found_names};
use sefl_syntax::{Ask, Job};
use sn_edge::Patterns;
use sn_width::{NameId, NoMemory, Site};
use std::alloc::Global;

/// An accepted job: its own nodes, codes and links, injection and asks, and for each pattern the names that it finds.
pub struct Accepted {
    pub net: Net,
    pub injection: Injection,
    pub asks: Vec<Ask>,
}

// Written out, and not derived, so that the proof of a function that lets one go sees a call.
impl Drop for Accepted {
    fn drop(self) {
        let Accepted {
            net,
            injection,
            asks,
        } = self;
        drop(net);
        drop(injection);
        drop(asks);
    }
}

/// Accepts a job, or tells the first item that breaks a rule and the first rule that it breaks. The patterns are asked where
/// no other rule is broken: in order of first occurrence, each for every metadata name ascending, once for each pair, up to
/// the first that is refused.
pub fn accept<P: Patterns>(
    alloc: Global,
    job: Job,
    patterns: &mut P,
) -> Result<Accepted, AcceptFault>
    ensures kept { PatternsKept (P.told patterns.old) (P.told patterns.new) }

    // What is accepted is the job's own, and lists the names for which `find` answered Yes.
    ensures accepted { IfOk result (IsAcceptedAs (job_tree job)) }
    ensures asked { IfOk result (λ a. Asked (IsStep P.told P.find_gives) patterns.old a patterns.new) }
    ensures found { IfOk result (λ a. ForSome (P.told patterns.old).matches
        (λ finds. a.net.found ≡ found_by finds (names_of (job_tree job)))) }

    // A refusal has its cause, and the other way.
    ensures cause { (site : SiteOf) (rule : RuleOf) → result ≡ Err (Refused site rule)
        → IsCause (IsStep P.told P.find_gives) (job_tree job) patterns.old site rule patterns.new }
    ensures raised { (site : SiteOf) → result ≡ Err (Refused site BadPattern)
        → (P.told patterns.old).refusals < (P.told patterns.new).refusals }
    ensures at_refusal { (site : ℕ) (rule : RuleOf) → refusal (job_tree job) ≡ Some (site, rule)
        → IsRefusedBy site rule result }
    ensures unasked { (site : ℕ) (rule : RuleOf) → refusal (job_tree job) ≡ Some (site, rule)
        → patterns.new ≡ patterns.old }
    ensures at_bad { IsSound (job_tree job) → ForSome (P.told patterns.old).bad (λ is_bad.
        IsByPatterns (bad_site is_bad (names_of (job_tree job)).metas (names_of (job_tree job)).patterns) result) }
{
    if let Some(refusal) = refusal_of(alloc, &job)? {
        return Err(AcceptFault::Refused {
            site: refusal.site,
            rule: refusal.rule,
        });
    }
    accept_sound(alloc, job, patterns)
}

/// Accepts a job that breaks no rule, unless a pattern is refused.
fn accept_sound<P: Patterns>(
    alloc: Global,
    job: Job,
    patterns: &mut P,
) -> Result<Accepted, AcceptFault>
    requires { IsSound (job_tree job) }
    ensures kept { PatternsKept (P.told patterns.old) (P.told patterns.new) }
    ensures accepted { IfOk result (IsAcceptedAs (job_tree job)) }
    ensures asked { IfOk result (λ a. Asked (IsStep P.told P.find_gives) patterns.old a patterns.new) }
    ensures found { IfOk result (λ a. ForSome (P.told patterns.old).matches
        (λ finds. a.net.found ≡ found_by finds (names_of (job_tree job)))) }
    ensures cause { (site : SiteOf) (rule : RuleOf) → result ≡ Err (Refused site rule)
        → IsCause (IsStep P.told P.find_gives) (job_tree job) patterns.old site rule patterns.new }
    ensures raised { (site : SiteOf) → result ≡ Err (Refused site BadPattern)
        → (P.told patterns.old).refusals < (P.told patterns.new).refusals }
    ensures at_bad { ForSome (P.told patterns.old).bad (λ is_bad.
        IsByPatterns (bad_site is_bad (names_of (job_tree job)).metas (names_of (job_tree job)).patterns) result) }
{
    let names = names_of(alloc, &job)?;
    let Ok(answers) = found_names(alloc, &names, patterns) else {
        return Err(AcceptFault::NoMemory);
    };
    match answers {
        PatternAnswers::Answered(found) => Ok(assemble(alloc, job, names, found)?),
        PatternAnswers::Refused { site } => Err(bad_pattern_at(site)),
    }
}

/// The refusal of a pattern, by the number of its For.
fn bad_pattern_at(number: u64) -> AcceptFault
    ensures { IsBadPattern number result }
{
    match u32::try_from(number) {
        Ok(number) => AcceptFault::Refused {
            site: Site(number),
            rule: Rule::BadPattern,
        },
        Err(_) => AcceptFault::NoMemory,
    }
}

/// The parts of a job that breaks no rule.
fn assemble(
    alloc: Global,
    job: Job,
    names: JobNames,
    found: Vec<Vec<NameId>>,
) -> Result<Accepted, NoMemory>
    requires sound { IsSound (job_tree job) }
    requires names { names ≡ names_of (job_tree job) }
    requires found { length found.items ≡ length names.patterns }
    requires ids { AllByRecursion (AreIds (length names.metas)) (map (λ ids. ids.items) found.items) }
    ensures parts { IfOk result (IsAcceptedAs (job_tree job)) }
    ensures found { IfOk result (λ a. a.net.found ≡ map (λ ids. ids.items) found.items) }
{
    let (net, injection, asks) = job.into_parts();
    let net = Net::of(alloc, net, names, found)?;
    let injection = Injection::of(&net, injection);
    Ok(Accepted {
        net,
        injection,
        asks,
    })
}
