//! The elements of a text's statements.

ghost use Rattle.std.specs.Prelude.{◌≡◌};
ghost use Rattle.click_text.specs.Tokens.{seen};
ghost use Rattle.click_text.specs.Items.{seen_item, seen_partial, seen_step, blank, with_name, with_class, with_arguments, with_output, with_input, made, step_of};

use crate::numeral::number;
use crate::stage::{Move, Stage, move_of};
use crate::token::Token;

/// An element where it stands in a statement.
#[derive(Clone, Copy)]
pub struct Item<'a> {
    pub line: u64,
    pub name: &'a [u8],
    /// None where the element is not declared there.
    pub class: Option<&'a [u8]>,
    /// With their parentheses; empty where there are none.
    pub arguments: &'a [u8],
    /// Whether a connection leads from the item before it to this one.
    pub joined: bool,
    /// The port of that connection.
    pub input: u32,
    /// The port of the connection to the item behind it.
    pub output: u32,
}

/// How far a statement has come, with the item that is read.
#[derive(Clone, Copy)]
pub(crate) struct Partial<'a> {
    pub stage: Stage,
    pub item: Item<'a>,
}

/// What comes of a token.
#[derive(Clone, Copy)]
pub(crate) enum Step<'a> {
    Refused,
    Goes(Partial<'a>),
    /// The item is whole.
    Puts(Stage),
}

/// Before anything is read of an item.
pub(crate) fn blank<'a>(stage: Stage) -> Partial<'a>
    ensures { seen_partial result ≡ blank stage }
{
    let item = Item {
        line: 0,
        name: &[],
        class: None,
        arguments: &[],
        joined: matches!(stage, Stage::Joining),
        input: 0,
        output: 0,
    };
    Partial { stage, item }
}

fn with_name<'a>(item: Item<'a>, token: Token<'a>) -> Step<'a>
    ensures { seen_step result ≡ with_name (seen_item item.entry) (seen token.entry) }
{
    let mut item = item;
    item.name = token.word;
    item.line = token.line;
    let stage = Stage::Named;
    Step::Goes(Partial { stage, item })
}

fn with_class<'a>(item: Item<'a>, token: Token<'a>) -> Step<'a>
    ensures { seen_step result ≡ with_class (seen_item item.entry) (seen token.entry) }
{
    let mut item = item;
    item.class = Some(token.word);
    let stage = Stage::Classed;
    Step::Goes(Partial { stage, item })
}

fn with_arguments<'a>(item: Item<'a>, token: Token<'a>) -> Step<'a>
    ensures { seen_step result ≡ with_arguments (seen_item item.entry) (seen token.entry) }
{
    let mut item = item;
    item.arguments = token.word;
    let stage = Stage::Argued;
    Step::Goes(Partial { stage, item })
}

fn with_output<'a>(item: Item<'a>, port: Option<u32>) -> Step<'a>
    ensures { seen_step result ≡ with_output (seen_item item.entry) port }
{
    let Some(port) = port else {
        return Step::Refused;
    };
    let mut item = item;
    item.output = port;
    let stage = Stage::OutNumber;
    Step::Goes(Partial { stage, item })
}

fn with_input<'a>(item: Item<'a>, port: Option<u32>) -> Step<'a>
    ensures { seen_step result ≡ with_input (seen_item item.entry) port }
{
    let Some(port) = port else {
        return Step::Refused;
    };
    let mut item = item;
    item.input = port;
    let stage = Stage::InNumber;
    Step::Goes(Partial { stage, item })
}

fn made<'a>(item: Item<'a>, token: Token<'a>, what: Move) -> Step<'a>
    ensures { seen_step result ≡ made (seen_item item.entry) (seen token.entry) what }
{
    match what {
        Move::Refused => Step::Refused,
        Move::Goes(stage) => Step::Goes(Partial { stage, item }),
        Move::Puts(stage) => Step::Puts(stage),
        Move::Names => with_name(item, token),
        Move::Classes => with_class(item, token),
        Move::Argues => with_arguments(item, token),
        Move::Outputs => with_output(item, number(token.word)),
        Move::Inputs => with_input(item, number(token.word)),
    }
}

/// What comes of a token behind what was read of a statement.
pub(crate) fn step_of<'a>(partial: Partial<'a>, token: Token<'a>) -> Step<'a>
    ensures { seen_step result ≡ step_of (seen_partial partial.entry) (seen token.entry) }
{
    made(partial.item, token, move_of(partial.stage, token.kind))
}
