//! Questions whose places and fields are found.

use sefl_meaning::Place;
use sefl_syntax::{Cond, Target};
use sn_width::Num;

/// A field of the injection.
#[derive(Clone, Copy)]
pub struct InjectedField<'a> {
    pub target: &'a Target,
    /// Its value, where that is given.
    pub given: Option<Num>,
    /// How many unknown fields stand before it.
    pub number: u64,
}

/// A question about all walks of the injected packets.
#[derive(Clone, Copy)]
pub enum Question<'a> {
    /// Does some packet come to the place and meet the test there?
    Reach {
        place: Place,
        test: &'a Cond,
    },
    /// Does each packet that is delivered at the place have its injected value there?
    Invariant {
        place: Place,
        field: InjectedField<'a>,
    },
    /// Does each packet that comes to the place have its injected value there?
    Visible {
        place: Place,
        field: InjectedField<'a>,
    },
}
