//! Where the code of a port stands.

use sn_width::Site;

/// Where the code of a port stands.
#[derive(Clone, Copy, PartialEq, Eq)]
pub struct CodePlace {
    /// The number of the code among the items of the job's text.
    pub site: Site,
    /// The number of the code among those of its node.
    pub index: usize,
}
