//! The names and the patterns of a job.

ghost use Rattle.std.specs.Prelude.{◌≡◌, ◌<◌, length, position, slice_get, Some, IfOk, bytes_eq};
ghost use Rattle.std.specs.Map.{keys_of};
ghost use Rattle.std.specs.Option.{option_map};
ghost use Rattle.sefl_syntax.specs.Views.{job_tree};
ghost use Rattle.job_names.specs.Lent.{noted_by};
ghost use Rattle.job_names.specs.Names.{names_of};
ghost use Rattle.job_names.specs.Surveyed.{noted_job, surveyed_nodes};

use crate::mentions::Mentions;
use crate::patterns::PatternTable;
use crate::survey::Survey;
use crate::table::NameTable;
use sefl_syntax::{Job, Name, Text};
use sn_width::{NameId, NoMemory, TagId};
use std::alloc::Global;
use std::marker::Model;

/// What occurs in a job by name. Contracts see the metadata names and the tag names, each once,
/// ascending by bytes, and the patterns of Fors in order of first occurrence, each with the site of
/// the first For that has it. An id is a name's index in its list.
#[derive(Drop)]
pub struct JobNames {
    metas: NameTable,
    tags: NameTable,
    patterns: PatternTable,
}

impl Model for JobNames {
    ghost use Rattle.job_names.specs.Names.{Names};

    ghost Value = { Names };

    ghost view = { λ n. record { metas = n.metas; tags = n.tags; patterns = n.patterns } };
}

/// The names and the patterns of a job. More than 2^32 - 1 names, or 2^64 - 1 items, answer
/// NoMemory.
pub fn names_of(alloc: Global, job: &Job) -> Result<JobNames, NoMemory>
    ensures { IfOk result (λ names. names ≡ names_of (job_tree job.now)) }
{
    let survey = survey_of(alloc, job)?;
    let Survey {
        mentions,
        site: _,
        patterns,
    } = survey;
    let Mentions { metas, tags } = mentions;
    let metas = NameTable::of(alloc, &metas)?;
    let tags = NameTable::of(alloc, &tags)?;
    let patterns = PatternTable::of(alloc, patterns)?;
    Ok(JobNames {
        metas,
        tags,
        patterns,
    })
}

/// The walk over the whole job.
fn survey_of(alloc: Global, job: &Job) -> Result<Survey<'_>, NoMemory>
    ensures names { IfOk result (λ survey. noted_by survey.mentions ≡ noted_job (job_tree job.now)) }
    ensures patterns { IfOk result (λ survey. survey.patterns.entries ≡ (surveyed_nodes (job_tree job.now)).patterns) }
{
    let mut survey = Survey::new(alloc);
    survey.pass_nodes(&job.net.nodes)?;
    survey.mentions.add_injection(&job.injection)?;
    survey.mentions.add_asks(&job.asks)?;
    Ok(survey)
}

impl JobNames {
    /// How many metadata names there are.
    pub fn meta_count(&self) -> u32
        ensures { result ≡ length self.now.metas }
    {
        self.metas.len()
    }

    /// How many tag names there are.
    pub fn tag_count(&self) -> u32
        ensures { result ≡ length self.now.tags }
    {
        self.tags.len()
    }

    /// How many patterns there are.
    pub fn pattern_count(&self) -> usize
        ensures { result ≡ length self.now.patterns }
    {
        self.patterns.len()
    }

    /// The metadata name with this id.
    pub fn meta_name(&self, id: NameId) -> &Name
        requires { id.0 < length self.now.metas }
        ensures { slice_get self.now.metas id.0 ≡ Some result.now }
    {
        self.metas.name(id.0)
    }

    /// The tag name with this id.
    pub fn tag_name(&self, id: TagId) -> &Name
        requires { id.0 < length self.now.tags }
        ensures { slice_get self.now.tags id.0 ≡ Some result.now }
    {
        self.tags.name(id.0)
    }

    /// The pattern at an index, with the site of the first For that has it.
    pub fn pattern(&self, index: usize) -> (&Text, u64)
        requires { index < length self.now.patterns }
        ensures { slice_get self.now.patterns index ≡ Some (result.0.now, result.1) }
    {
        self.patterns.row(index)
    }

    /// The id of a metadata name; None exactly where there is no such name.
    pub fn meta_id(&self, name: &Name) -> Option<NameId>
        ensures { option_map (λ id. id.0) result ≡ position (bytes_eq name.now) self.now.metas }
    {
        match self.metas.index_of(name) {
            None => None,
            Some(index) => Some(NameId(index)),
        }
    }

    /// The id of a tag name; None exactly where there is no such name.
    pub fn tag_id(&self, name: &Name) -> Option<TagId>
        ensures { option_map (λ id. id.0) result ≡ position (bytes_eq name.now) self.now.tags }
    {
        match self.tags.index_of(name) {
            None => None,
            Some(index) => Some(TagId(index)),
        }
    }

    /// The index of a pattern; None exactly where there is no such pattern.
    pub fn pattern_index(&self, pattern: &Text) -> Option<usize>
        ensures { result ≡ position (bytes_eq pattern.now) (keys_of self.now.patterns) }
    {
        self.patterns.index_of(pattern)
    }
}
