//! The two versions of the text of jobs.

/// Which version of the text a job is in.
#[derive(Clone, Copy, PartialEq, Eq)]
pub(crate) enum Version {
    /// `tag` sets a tag.
    Old,
    /// `tag` creates a tag, and `retag` sets it.
    New,
}
