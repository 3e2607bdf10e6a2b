//! The names and the patterns of a job.

use crate::jobs::{check, job_of, name_of, same_count, text_of};
use job_names::{JobNames, names_of};
use sefl_syntax::Name;
use sn_width::{NameId, TagId};
use std::alloc::Global;
use std::process::Abort;

/// A For (item 3) that sets `c` and then has a For in it (5), behind a tag's instruction, and then a
/// For with the first one's pattern; a packet with a tag, a field behind its tag and a test.
const JOB: &str = "node r 1 -> 0 { in 0 { tag L4 = L3+8; \
    for x in \"^opt\" { set local c:8 = global b:8; for x in \".\" { } } for x in \"^opt\" { } } } \
    inject r.0 { tag L3 = L2+8; field head L3+8:8; where global b:8 == 0; } \
    ask visible global a:8 at in r.0;";

fn names_of_example(rt: &impl Abort, alloc: Global) -> JobNames {
    let job = job_of(rt, alloc, JOB);
    let names = names_of(alloc, &job).expect(rt, "memory");
    drop(job);
    names
}

fn is_meta(names: &JobNames, id: u32, text: &str) -> bool {
    id < names.meta_count() && names.meta_name(NameId(id)).text() == text
}

fn is_tag(names: &JobNames, id: u32, text: &str) -> bool {
    id < names.tag_count() && names.tag_name(TagId(id)).text() == text
}

fn is_pattern(names: &JobNames, index: usize, text: &str, site: u64) -> bool {
    if index >= names.pattern_count() {
        return false;
    }
    let (pattern, own_site) = names.pattern(index);
    pattern.text() == text && own_site == site
}

fn check_order(rt: &impl Abort, names: &JobNames) {
    same_count(rt, u64::from(names.meta_count()), 3);
    same_count(rt, u64::from(names.tag_count()), 3);
    for (id, meta, tag) in [(0, "a", "L2"), (1, "b", "L3"), (2, "c", "L4")] {
        check(rt, is_meta(names, id, meta), meta);
        check(rt, is_tag(names, id, tag), tag);
    }
}

fn check_occurrences(rt: &impl Abort, names: &JobNames) {
    same_count(rt, names.pattern_count() as u64, 2);
    for (index, text, site) in [(0, "^opt", 3), (1, ".", 5)] {
        check(rt, is_pattern(names, index, text, site), text);
    }
}

#[test]
fn names_are_ascending_and_patterns_in_order_of_first_occurrence(rt: HostRuntime) {
    let names = names_of_example(&rt, rt.alloc());
    check_order(&rt, &names);
    check_occurrences(&rt, &names);
    drop(names);
}

/// Whether the name has these ids, as that of metadata and of a tag.
fn has_ids(names: &JobNames, name: &Name, meta: Option<NameId>, tag: Option<TagId>) -> bool {
    names.meta_id(name) == meta && names.tag_id(name) == tag
}

fn check_ids(
    rt: &impl Abort,
    alloc: Global,
    names: &JobNames,
    text: &str,
    meta: Option<NameId>,
    tag: Option<TagId>,
) {
    let name = name_of(rt, alloc, text);
    check(rt, has_ids(names, &name, meta, tag), text);
}

fn check_pattern(
    rt: &impl Abort,
    alloc: Global,
    names: &JobNames,
    text: &str,
    index: Option<usize>,
) {
    let pattern = text_of(rt, alloc, text);
    check(rt, names.pattern_index(&pattern) == index, text);
}

#[test]
fn an_id_is_found_by_name(rt: HostRuntime) {
    let names = names_of_example(&rt, rt.alloc());
    check_ids(&rt, rt.alloc(), &names, "c", Some(NameId(2)), None);
    check_ids(&rt, rt.alloc(), &names, "L2", None, Some(TagId(0)));
    check_pattern(&rt, rt.alloc(), &names, ".", Some(1));
    check_pattern(&rt, rt.alloc(), &names, "opt", None);
    drop(names);
}
