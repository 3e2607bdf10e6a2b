//! The symbols of the grammar.

/// What is to come in a job's text. Each stands for the tokens of a part of it. Those of texts of
/// version 1, where `retag` has no reading, have names of their own.
#[derive(Clone, Copy, PartialEq, Eq)]
pub enum Symbol {
    /// A whole job.
    Start,
    Version,
    /// Nodes, and what comes behind them.
    Nodes,
    OldNodes,
    /// Links, and what comes behind them.
    Links,
    /// A node behind its name.
    NodeBody,
    OldNodeBody,
    TableKind,
    Style,
    /// The codes of ports, to the closing brace.
    Codes,
    OldCodes,
    Block,
    OldBlock,
    /// Instructions, to the closing brace of their block.
    Instrs,
    OldInstrs,
    /// The right side of an assignment.
    Value,
    /// The ports of a Fork, to the semicolon.
    Ports,
    MorePorts,
    Target,
    Addr,
    AddrSign,
    Operand,
    /// The members of a sum behind its first.
    SumTail,
    /// A condition without `and` and `or`.
    Test,
    /// What ends the construct that a `not` opens; it takes no token.
    NotEnd,
    /// The members of a chain of conditions behind its first.
    TestTail,
    /// A comparison or a membership behind its left side.
    Relation,
    /// Ranges behind a range's first number, to the closing brace.
    RangeTail,
    MoreRanges,
    /// The lines of an injection, to its closing brace.
    Tags,
    Fields,
    Wheres,
    FieldTarget,
    /// The value of a field, where there is one, and the semicolon.
    FieldValue,
    Asks,
    Question,
    Side,
    /// The test of a question, where there is one, and the semicolon.
    With,
    /// Any name.
    Name,
    /// Any number.
    Number,
    /// The number of a port, or of ports: at most 4294967295.
    Port,
    /// At most 1048576.
    Offset,
    /// 1 to 128.
    Width,
    Text,
    Semicolon,
    Colon,
    Dot,
    Equals,
    Arrow,
    OpenBrace,
    CloseParenthesis,
    CloseBracket,
    In,
    Else,
    At,
}
