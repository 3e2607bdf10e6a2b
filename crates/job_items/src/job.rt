//! The first item of a job that breaks a rule.

ghost use Rattle.std.specs.Prelude.{◌≡◌, ◌++◌, [], map, IfOk, OnOk};
ghost use Rattle.sefl_syntax.specs.Views.{ask_tree, net_tree, injection_tree, job_tree};
ghost use Rattle.job_items.specs.Items.{ask_item, net_items, tag_items, value_items, injection_items, job_items};
ghost use Rattle.job_items.specs.LentNodes.{lent_nodes};
ghost use Rattle.job_items.specs.LentTags.{lent_tags};
ghost use Rattle.job_items.specs.Nodes.{nodes_after};
ghost use Rattle.job_items.specs.Progress.{progress_of, outcome_from, Follows, Answers};
ghost use Rattle.job_items.specs.Rules.{outcome, no_counts};
ghost use Rattle.job_items.specs.Tags.{tags_after};

use crate::fields::check_fields;
use crate::halt::Halt;
use crate::lines::{check_asks, check_tests};
use crate::links::{check_entry, check_links};
use crate::nodes::check_nodes;
use crate::ports::Ports;
use crate::rule::Breach;
use crate::tags::check_tags;
use crate::tally::Tally;
use indexmap::IndexMap;
use sefl_syntax::{Job, Name, RawInjection, RawNet};
use sn_width::NoMemory;
use std::alloc::Global;
use std::collections::{BTreeMap, BTreeSet};

/// The number of the first item of a job that breaks a rule, and the first rule that it breaks;
/// None exactly where there is no such item.
pub(crate) fn first_breach_of(alloc: Global, job: &Job) -> Result<Option<(u64, Breach)>, NoMemory>
    ensures { IfOk result (Answers (outcome 0 no_counts (job_items (job_tree job.now)))) }
{
    let mut tally = Tally::new(alloc);
    match check_job(alloc, &mut tally, job) {
        Ok(()) => Ok(None),
        Err(Halt::Broken(breach)) => Ok(Some((tally.site, breach))),
        Err(Halt::NoMemory) => Err(NoMemory),
    }
}

fn check_job<'a>(alloc: Global, tally: &mut Tally<'a>, job: &'a Job) -> Result<(), Halt>
    ensures { Follows (outcome_from (progress_of tally.old) (job_items (job_tree job.now))) result
        (progress_of tally.new) }
{
    let mut nodes = IndexMap::new(alloc);
    check_net(alloc, tally, &mut nodes, &job.net)?;
    check_packet(alloc, tally, &nodes, job)
}

/// Passes the injection and the asks.
fn check_packet<'a>(
    alloc: Global,
    tally: &mut Tally<'a>,
    nodes: &IndexMap<&'a Name, Ports>,
    job: &'a Job,
) -> Result<(), Halt>
    ensures { Follows (outcome_from (progress_of tally.old)
        (injection_items (lent_nodes nodes.now.entries) (injection_tree job.now.injection)
        ++ map ask_item (map ask_tree job.now.asks.items)))
        result (progress_of tally.new) }
{
    check_injection(alloc, tally, nodes, &job.injection)?;
    check_asks(alloc, tally, &job.asks)
}

fn check_net<'a>(
    alloc: Global,
    tally: &mut Tally<'a>,
    nodes: &mut IndexMap<&'a Name, Ports>,
    net: &'a RawNet,
) -> Result<(), Halt>
    requires { nodes.old.entries ≡ [] }
    ensures follows { Follows (outcome_from (progress_of tally.old) (net_items (net_tree net.now))) result
        (progress_of tally.new) }
    ensures made { OnOk result (lent_nodes nodes.new.entries ≡ nodes_after [] (net_tree net.now).nodes) }
{
    check_nodes(alloc, tally, nodes, &net.nodes)?;
    let mut used = BTreeSet::new(alloc);
    check_links(tally, nodes, &mut used, &net.links)
}

fn check_injection<'a>(
    alloc: Global,
    tally: &mut Tally<'a>,
    nodes: &IndexMap<&'a Name, Ports>,
    injection: &'a RawInjection,
) -> Result<(), Halt>
    ensures { Follows (outcome_from (progress_of tally.old)
        (injection_items (lent_nodes nodes.now.entries) (injection_tree injection.now))) result
        (progress_of tally.new) }
{
    check_entry(tally, nodes, &injection.node, injection.port)?;
    check_lines(alloc, tally, injection)
}

/// Passes the lines of an injection.
fn check_lines<'a>(
    alloc: Global,
    tally: &mut Tally<'a>,
    injection: &'a RawInjection,
) -> Result<(), Halt>
    ensures { Follows (outcome_from (progress_of tally.old)
        (tag_items [] injection.now.tags.items ++ value_items (tags_after [] injection.now.tags.items)
        (injection_tree injection.now)))
        result (progress_of tally.new) }
{
    let mut tags = BTreeMap::new(alloc);
    check_tags(tally, &mut tags, &injection.tags)?;
    check_values(alloc, tally, &tags, injection)
}

/// Passes the fields and the tests of an injection.
fn check_values<'a>(
    alloc: Global,
    tally: &mut Tally<'a>,
    tags: &BTreeMap<&'a Name, i32>,
    injection: &'a RawInjection,
) -> Result<(), Halt>
    ensures { Follows (outcome_from (progress_of tally.old)
        (value_items (lent_tags tags.now.entries) (injection_tree injection.now))) result (progress_of tally.new) }
{
    check_fields(alloc, tally, tags, &injection.fields)?;
    check_tests(alloc, tally, tags, &injection.fields, &injection.tests)
}
