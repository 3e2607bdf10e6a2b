//! Why a job is refused.

ghost use Rattle.std.specs.Prelude.{◌≡◌, fold, IfOk};
ghost use Rattle.sefl_syntax.specs.Views.{job_tree};
ghost use Rattle.job_items.specs.Items.{job_items};
ghost use Rattle.job_items.specs.Refusals.{named_in};
ghost use Rattle.job_items.specs.Rules.{no_counts, counted, told, refusal};

use crate::job::first_breach_of;
use crate::rule::{Breach, Rule};
use crate::totals::totals_of;
use sefl_syntax::Job;
use sn_width::{NoMemory, Site};
use std::alloc::Global;

/// The first item of a job that breaks a rule, and the first rule that it breaks.
#[derive(Clone, Copy, PartialEq, Eq)]
pub struct Refusal {
    pub site: Site,
    pub rule: Rule,
}

/// Why a job is refused; None exactly where no item of it breaks a rule. Patterns are not looked
/// at, so the rule is never the last one. Where a site passes 2^32 - 1, or a count 2^64 - 1, the
/// answer is NoMemory.
pub fn refusal_of(alloc: Global, job: &Job) -> Result<Option<Refusal>, NoMemory>
    ensures { IfOk result (λ found. named_in found ≡ refusal (job_tree job.now)) }
{
    match first_breach_of(alloc, job)? {
        None => Ok(None),
        Some((number, breach)) => {
            let site = site_of(number)?;
            let rule = told(alloc, job, breach)?;
            Ok(Some(Refusal { site, rule }))
        }
    }
}

/// The site of a number, where it is one.
fn site_of(number: u64) -> Result<Site, NoMemory>
    ensures { IfOk result (λ site. site.0 ≡ number) }
{
    if number > u64::from(u32::MAX) {
        return Err(NoMemory);
    }
    Ok(Site(number as u32))
}

/// The rule of a breach: a limit on the whole job is told with what the job has.
fn told(alloc: Global, job: &Job, breach: Breach) -> Result<Rule, NoMemory>
    ensures { IfOk result (λ rule. rule ≡ told (fold counted no_counts (job_items (job_tree job.now))) breach) }
{
    match breach {
        Breach::Breaks(rule) => Ok(rule),
        Breach::Passes(which) => {
            let totals = totals_of(alloc, job)?;
            let count = totals.count_of(which);
            Ok(Rule::Limit { which, count })
        }
    }
}
