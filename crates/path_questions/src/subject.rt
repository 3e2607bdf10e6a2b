//! What questions are about.

use net_check::{Injection, Net};

/// The walks of the injected packets through a net, with `hops` hops.
#[derive(Clone, Copy)]
pub struct Subject<'a> {
    pub net: &'a Net,
    pub injection: &'a Injection,
    pub hops: u32,
}
