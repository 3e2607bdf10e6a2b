//! The rules of acceptance.

/// What a limit counts.
#[derive(Clone, Copy, PartialEq, Eq)]
pub enum Which {
    /// Nodes of the job, at most 10,000.
    Nodes,
    /// Ports of one node on one side, at most 1,024.
    Ports,
    /// Metadata names, at most 1,024.
    Names,
    /// Patterns of Fors, at most 256.
    Patterns,
    /// Instructions, those in blocks too, at most 1,000,000.
    Instructions,
    /// Ranges in all, at most 4,000,000.
    Ranges,
    /// Ports that one Fork lists, at most 1,024.
    Copies,
    /// Fields of the injection, at most 256.
    Fields,
    /// Tests of the injection, at most 256.
    Tests,
    /// Asks, at most 256.
    Asks,
}

/// A rule of acceptance. Of two that one item breaks, the one that stands first here is told.
#[derive(Clone, Copy, PartialEq, Eq)]
pub enum Rule {
    /// An earlier node has the name.
    TwiceNode,
    /// A link or the injection names no node of the job.
    NoNode,
    /// A port is not below the node's number of ports on that side.
    PortRange,
    /// An earlier link leaves the same output port.
    TwoLinks,
    /// The port already has code.
    TwiceCode,
    /// References of one atom or assignment differ in width, or a test of the injection reads a
    /// field at another width.
    WidthMismatch,
    /// A constant, an end of a range or an injected value exceeds the greatest value of its width.
    TooWide,
    /// A variable has no For round it, an address of the injection names a tag that no earlier line
    /// makes, or a test of the injection reads what is not injected.
    Unbound,
    /// Forward or Fork in an output port's code.
    OutForward,
    /// A Fork lists no port.
    EmptyFork,
    /// The first number of a range exceeds its second.
    BadRanges,
    /// An injected field shares a bit or a name with an earlier one.
    Overlap,
    /// A limit is passed. The count is the node's for Ports, the Fork's for Copies, else the job's.
    Limit { which: Which, count: u64 },
    /// A For inside two others.
    NestedFor,
    /// The address of an injected tag or field is outside -2^20 to 2^20 - 1.
    BadAddress,
    /// The pattern of a For is refused.
    BadPattern,
}

/// What an item does wrong, while the job's totals are not known.
#[derive(Clone, Copy, PartialEq, Eq)]
pub enum Breach {
    /// It breaks the rule.
    Breaks(Rule),
    /// With it, a count of the whole job passes its limit.
    Passes(Which),
}
