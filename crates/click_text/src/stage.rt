//! What the grammar allows.

ghost use Rattle.std.specs.Prelude.{◌≡◌};
ghost use Rattle.click_text.specs.Stages.{statement_move, element_move, argued_move, classed_move, named_move, name_move, number_move, close_move, arrow_move, move_of};

use crate::token::TokenKind;

/// How far a statement has come.
#[derive(Clone, Copy)]
pub(crate) enum Stage {
    /// Before a statement.
    Between,
    /// Behind an element's name.
    Named,
    /// Behind two colons.
    Declaring,
    /// Behind a class.
    Classed,
    /// Behind arguments.
    Argued,
    /// In arguments that are not closed.
    Unclosed,
    /// In the number of an output port, behind it, and behind its bracket.
    OutOpen,
    OutNumber,
    OutClosed,
    /// Behind an arrow.
    Joining,
    /// In the number of an input port, behind it, and behind its bracket.
    InOpen,
    InNumber,
    InClosed,
    /// Behind the end of the text.
    Ended,
}

/// What a token does.
#[derive(Clone, Copy)]
pub(crate) enum Move {
    /// The grammar does not allow it.
    Refused,
    Goes(Stage),
    /// It ends an element.
    Puts(Stage),
    Names,
    Classes,
    Argues,
    Outputs,
    Inputs,
}

/// Before a statement.
fn statement_move(kind: TokenKind) -> Move
    ensures { result ≡ statement_move kind }
{
    match kind {
        TokenKind::Name => Move::Names,
        TokenKind::End => Move::Goes(Stage::Ended),
        _ => Move::Refused,
    }
}

/// Behind an element with all that belongs to it.
fn element_move(kind: TokenKind) -> Move
    ensures { result ≡ element_move kind }
{
    match kind {
        TokenKind::Arrow => Move::Puts(Stage::Joining),
        TokenKind::Semicolon => Move::Puts(Stage::Between),
        TokenKind::End => Move::Puts(Stage::Ended),
        _ => Move::Refused,
    }
}

/// Where an output port may follow.
fn argued_move(kind: TokenKind) -> Move
    ensures { result ≡ argued_move kind }
{
    match kind {
        TokenKind::OpenPort => Move::Goes(Stage::OutOpen),
        _ => element_move(kind),
    }
}

/// Where arguments may follow, too.
fn classed_move(kind: TokenKind) -> Move
    ensures { result ≡ classed_move kind }
{
    match kind {
        TokenKind::Arguments => Move::Argues,
        TokenKind::OpenArguments => Move::Goes(Stage::Unclosed),
        _ => argued_move(kind),
    }
}

/// Where a class may follow.
fn named_move(kind: TokenKind) -> Move
    ensures { result ≡ named_move kind }
{
    match kind {
        TokenKind::Colons => Move::Goes(Stage::Declaring),
        _ => argued_move(kind),
    }
}

/// Where a name has to follow.
fn name_move(kind: TokenKind, allowed: Move) -> Move
    ensures { result ≡ name_move kind allowed }
{
    match kind {
        TokenKind::Name => allowed,
        _ => Move::Refused,
    }
}

/// Where a number has to follow.
fn number_move(kind: TokenKind, allowed: Move) -> Move
    ensures { result ≡ number_move kind allowed }
{
    match kind {
        TokenKind::Number => allowed,
        _ => Move::Refused,
    }
}

/// Where a bracket has to close.
fn close_move(kind: TokenKind, next: Stage) -> Move
    ensures { result ≡ close_move kind next }
{
    match kind {
        TokenKind::ClosePort => Move::Goes(next),
        _ => Move::Refused,
    }
}

/// Behind an arrow.
fn arrow_move(kind: TokenKind) -> Move
    ensures { result ≡ arrow_move kind }
{
    match kind {
        TokenKind::OpenPort => Move::Goes(Stage::InOpen),
        TokenKind::Name => Move::Names,
        _ => Move::Refused,
    }
}

/// What a token of the kind does.
pub(crate) fn move_of(stage: Stage, kind: TokenKind) -> Move
    ensures { result ≡ move_of stage kind }
{
    match stage {
        Stage::Between => statement_move(kind),
        Stage::Named => named_move(kind),
        Stage::Declaring => name_move(kind, Move::Classes),
        Stage::Classed => classed_move(kind),
        Stage::Argued => argued_move(kind),
        Stage::Unclosed => Move::Refused,
        Stage::OutOpen => number_move(kind, Move::Outputs),
        Stage::OutNumber => close_move(kind, Stage::OutClosed),
        Stage::OutClosed => element_move(kind),
        Stage::Joining => arrow_move(kind),
        Stage::InOpen => number_move(kind, Move::Inputs),
        Stage::InNumber => close_move(kind, Stage::InClosed),
        Stage::InClosed => name_move(kind, Move::Names),
        Stage::Ended => Move::Refused,
    }
}
