//! Walks of a packet through a net.

use header_layers::Layers;
use metadata_scopes::Scopes;
use sefl_syntax::{Name, Side, Text};
use sn_width::{LayoutFault, NameId, NodeId, Num, Site};

/// What a packet carries, in values of any kind.
#[derive(Drop)]
pub struct Carried<V: Drop> {
    pub layers: Layers<V>,
    pub scopes: Scopes<V>,
}

/// What a packet carries, in numbers.
pub type State = Carried<Num>;

/// What is decided on a walk: the block of an If, the truth of a Constrain, or the copy of a Fork, by
/// the place of its port in the list, from 0. Decisions stand in this order.
#[derive(Clone, Copy, PartialEq, Eq)]
pub enum Decision {
    Then,
    Else,
    Pass,
    Broken,
    Copy(u32),
}

/// A port of a node.
#[derive(Clone, Copy, PartialEq, Eq)]
pub struct Place {
    pub node: NodeId,
    pub side: Side,
    pub port: u32,
}

/// Why an instruction ends a walk.
#[derive(PartialEq, Eq, Drop)]
pub enum Failure {
    Layout(LayoutFault),
    /// A Constrain whose condition is false.
    Constraint,
    /// A Fail, with its text.
    Message { text: Text },
}

/// How a walk ends.
#[derive(PartialEq, Eq, Drop)]
pub enum End {
    /// The code of an input port ran off its end.
    Stopped,
    /// The code of an output port without a link ran off its end.
    Delivered,
    /// The instruction at the site ended it.
    Failed { failure: Failure, site: Site },
    /// An input port was reached with no hop left.
    Cut,
}

/// A walk from the injection's port to its end.
pub struct Walk {
    pub decisions: Vec<Decision>,
    /// The ports that it arrives at, in order.
    pub places: Vec<Place>,
    pub end: End,
    pub state: State,
}

// Written out, and not derived, so that the proof of a function that lets one go sees a call.
impl Drop for Walk {
    fn drop(self) {
        let Walk {
            decisions,
            places,
            end,
            state,
        } = self;
        drop(decisions);
        drop(places);
        drop(end);
        drop(state);
    }
}

/// One iteration of a For: its variable stands for the metadata of that owner, or none for a global, and
/// name. A list of the iterations round an instruction has the innermost last.
#[derive(PartialEq, Eq, Drop)]
pub struct Iteration {
    pub var: Name,
    pub owner: Option<NodeId>,
    pub name: NameId,
}
