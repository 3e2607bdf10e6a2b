//! The table of the grammar: the words that may begin what a symbol stands for, and what follows each.

ghost use Rattle.std.specs.Prelude.{◌≡◌, map};
ghost use Rattle.sefl_grammar.specs.Table.{Alternative};
ghost use Rattle.sefl_grammar.specs.Table.{alternatives, alternative_of};

use crate::symbol::Symbol;
use crate::symbol::Symbol::*;

/// A word, and what is to come behind it.
pub(crate) type Alternative = (&'static str, &'static [Symbol]);

/// The words that may come first in a symbol's place, each with what is to come behind it.
pub(crate) fn alternatives(symbol: Symbol) -> &'static [Alternative]
    ensures { map alternative_of result.now ≡ alternatives symbol }
{
    match symbol {
        Start => &[("symnet", &[Version])],
        Version => &[("1", &[Semicolon, OldNodes]), ("2", &[Semicolon, Nodes])],
        Nodes => &[
            ("node", &[Name, NodeBody, Nodes]),
            (
                "link",
                &[Name, Dot, Port, Arrow, Name, Dot, Port, Semicolon, Links],
            ),
            ("inject", &[Name, Dot, Port, OpenBrace, Tags, Asks]),
        ],
        OldNodes => &[
            ("node", &[Name, OldNodeBody, OldNodes]),
            (
                "link",
                &[Name, Dot, Port, Arrow, Name, Dot, Port, Semicolon, Links],
            ),
            ("inject", &[Name, Dot, Port, OpenBrace, Tags, Asks]),
        ],
        Links => &[
            (
                "link",
                &[Name, Dot, Port, Arrow, Name, Dot, Port, Semicolon, Links],
            ),
            ("inject", &[Name, Dot, Port, OpenBrace, Tags, Asks]),
        ],
        NodeBody => &[("=", &[TableKind, Text, Style, Semicolon])],
        OldNodeBody => &[("=", &[TableKind, Text, Style, Semicolon])],
        TableKind => &[("mac", &[]), ("fib", &[])],
        Style => &[("chain", &[]), ("grouped", &[]), ("egress", &[])],
        Codes => &[
            ("in", &[Port, Block, Codes]),
            ("out", &[Port, Block, Codes]),
            ("}", &[]),
        ],
        OldCodes => &[
            ("in", &[Port, OldBlock, OldCodes]),
            ("out", &[Port, OldBlock, OldCodes]),
            ("}", &[]),
        ],
        Block => &[("{", &[Instrs])],
        OldBlock => &[("{", &[OldInstrs])],
        Instrs => &[
            ("}", &[]),
            ("allocate", &[Target, Semicolon, Instrs]),
            ("deallocate", &[Target, Semicolon, Instrs]),
            ("set", &[Target, Equals, Value, Semicolon, Instrs]),
            ("tag", &[Name, Equals, Addr, Semicolon, Instrs]),
            ("retag", &[Name, Equals, Addr, Semicolon, Instrs]),
            ("untag", &[Name, Semicolon, Instrs]),
            ("constrain", &[Test, TestTail, Semicolon, Instrs]),
            ("fail", &[Text, Semicolon, Instrs]),
            ("if", &[Test, TestTail, Block, Else, Block, Instrs]),
            ("for", &[Name, In, Text, Block, Instrs]),
            ("forward", &[Port, Semicolon, Instrs]),
            ("fork", &[Ports, Instrs]),
            ("noop", &[Semicolon, Instrs]),
            ("{", &[Instrs, Instrs]),
        ],
        OldInstrs => &[
            ("}", &[]),
            ("allocate", &[Target, Semicolon, OldInstrs]),
            ("deallocate", &[Target, Semicolon, OldInstrs]),
            ("set", &[Target, Equals, Value, Semicolon, OldInstrs]),
            ("tag", &[Name, Equals, Addr, Semicolon, OldInstrs]),
            ("untag", &[Name, Semicolon, OldInstrs]),
            ("constrain", &[Test, TestTail, Semicolon, OldInstrs]),
            ("fail", &[Text, Semicolon, OldInstrs]),
            ("if", &[Test, TestTail, OldBlock, Else, OldBlock, OldInstrs]),
            ("for", &[Name, In, Text, OldBlock, OldInstrs]),
            ("forward", &[Port, Semicolon, OldInstrs]),
            ("fork", &[Ports, OldInstrs]),
            ("noop", &[Semicolon, OldInstrs]),
            ("{", &[OldInstrs, OldInstrs]),
        ],
        Value => &[
            ("any", &[]),
            ("head", &[Addr, Colon, Width, SumTail]),
            ("global", &[Name, Colon, Width, SumTail]),
            ("local", &[Name, Colon, Width, SumTail]),
            ("$", &[Name, Colon, Width, SumTail]),
            ("(", &[Operand, SumTail, CloseParenthesis, SumTail]),
        ],
        Ports => &[(";", &[])],
        MorePorts => &[(",", &[Port, MorePorts]), (";", &[])],
        Target => &[
            ("head", &[Addr, Colon, Width]),
            ("global", &[Name, Colon, Width]),
            ("local", &[Name, Colon, Width]),
            ("$", &[Name, Colon, Width]),
        ],
        Addr => &[("-", &[Offset])],
        AddrSign => &[("+", &[Offset]), ("-", &[Offset])],
        Operand => &[
            ("head", &[Addr, Colon, Width]),
            ("global", &[Name, Colon, Width]),
            ("local", &[Name, Colon, Width]),
            ("$", &[Name, Colon, Width]),
            ("(", &[Operand, SumTail, CloseParenthesis]),
        ],
        SumTail => &[("+", &[Operand, SumTail]), ("-", &[Operand, SumTail])],
        Test => &[
            ("not", &[Test, NotEnd]),
            ("true", &[]),
            ("[", &[Test, TestTail, CloseBracket]),
            ("head", &[Addr, Colon, Width, SumTail, Relation]),
            ("global", &[Name, Colon, Width, SumTail, Relation]),
            ("local", &[Name, Colon, Width, SumTail, Relation]),
            ("$", &[Name, Colon, Width, SumTail, Relation]),
            (
                "(",
                &[Operand, SumTail, CloseParenthesis, SumTail, Relation],
            ),
        ],
        NotEnd => &[],
        TestTail => &[("and", &[Test, TestTail]), ("or", &[Test, TestTail])],
        Relation => &[
            ("==", &[Operand, SumTail]),
            ("!=", &[Operand, SumTail]),
            ("<", &[Operand, SumTail]),
            ("<=", &[Operand, SumTail]),
            (">", &[Operand, SumTail]),
            (">=", &[Operand, SumTail]),
            ("in", &[OpenBrace, Number, RangeTail]),
        ],
        RangeTail => &[
            ("..", &[Number, MoreRanges]),
            (",", &[Number, RangeTail]),
            ("}", &[]),
        ],
        MoreRanges => &[(",", &[Number, RangeTail]), ("}", &[])],
        Tags => &[
            ("tag", &[Name, Equals, Addr, Semicolon, Tags]),
            ("field", &[FieldTarget, FieldValue, Fields]),
            ("where", &[Test, TestTail, Semicolon, Wheres]),
            ("}", &[]),
        ],
        Fields => &[
            ("field", &[FieldTarget, FieldValue, Fields]),
            ("where", &[Test, TestTail, Semicolon, Wheres]),
            ("}", &[]),
        ],
        Wheres => &[("where", &[Test, TestTail, Semicolon, Wheres]), ("}", &[])],
        FieldTarget => &[
            ("head", &[Addr, Colon, Width]),
            ("global", &[Name, Colon, Width]),
        ],
        FieldValue => &[("=", &[Number, Semicolon]), (";", &[])],
        Asks => &[("ask", &[Question, Asks])],
        Question => &[
            ("reach", &[Side, Name, Dot, Port, With]),
            ("invariant", &[Target, At, Side, Name, Dot, Port, Semicolon]),
            ("visible", &[Target, At, Side, Name, Dot, Port, Semicolon]),
        ],
        Side => &[("in", &[]), ("out", &[])],
        With => &[(";", &[]), ("with", &[Test, TestTail, Semicolon])],
        Name => &[],
        Number => &[],
        Port => &[],
        Offset => &[],
        Width => &[],
        Text => &[],
        Semicolon => &[(";", &[])],
        Colon => &[(":", &[])],
        Dot => &[(".", &[])],
        Equals => &[("=", &[])],
        Arrow => &[("->", &[])],
        OpenBrace => &[("{", &[])],
        CloseParenthesis => &[(")", &[])],
        CloseBracket => &[("]", &[])],
        In => &[("in", &[])],
        Else => &[("else", &[])],
        At => &[("at", &[])],
    }
}
