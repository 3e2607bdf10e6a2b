//! The words that are left of a text.

ghost use Rattle.std.specs.Prelude.{◌≡◌, ◌≤◌, All, IfOk, length};
ghost use Rattle.sefl_builder.specs.Pieces.{IsPieceOf, piece_words};
ghost use Rattle.sefl_builder.specs.Reading.{Answers, begins_with, begins_name, begins_number};
ghost use Rattle.sefl_builder.specs.Leaves.{key, name, number, number_in, offset, port, skip, text, width};

use crate::misread::Misread;
use crate::names::Names;
use crate::piece::Piece;
use sefl_grammar::{is_same, value_at};
use sefl_lex::{TokenKind, text_body, token_text};
use sefl_syntax::{Name, Text};
use sn_width::{NoMemory, Num, Width};
use std::alloc::Global;
use std::marker::Model;

/// The most that a number of ports, or of a port, is.
const MOST_PORT: Num = 4_294_967_295;

/// The most that an offset is.
const MOST_OFFSET: Num = 1_048_576;

/// The most bits that a cell has.
const MOST_WIDTH: Num = 128;

/// The words that are left of a text. Contracts see the list of them.
#[derive(Drop)]
pub(crate) struct Cursor<'a> {
    alloc: Global,
    text: &'a str,
    left: &'a [Piece],
    names: Names,
}

impl<'a> Model for Cursor<'a> {
    ghost use Rattle.std.specs.Prelude.{List, All};
    ghost use Rattle.sefl_grammar.specs.Word.{Word};
    ghost use Rattle.sefl_builder.specs.Pieces.{IsPieceOf, piece_words};

    ghost Value = { List Word };

    ghost view = { λ c. piece_words c.text.now c.left.now };

    ghost invariant = { λ c. All (IsPieceOf c.text.now) c.left.now };
}

impl<'a> Cursor<'a> {
    /// All words of the text, whose tokens these are of.
    pub(crate) fn new(
        alloc: Global,
        text: &'a str,
        pieces: &'a [Piece],
    ) -> Result<Cursor<'a>, NoMemory>
        requires { All (IsPieceOf text.now) pieces.now }
        ensures { IfOk result (λ words. words ≡ piece_words text.now pieces.now) }
    {
        let names = Names::new(alloc)?;
        Ok(Cursor {
            alloc,
            text,
            left: pieces,
            names,
        })
    }

    /// What memory is taken from.
    pub(crate) fn alloc(&self) -> Global {
        self.alloc
    }

    /// How many words are left.
    pub(crate) fn count(&self) -> usize
        ensures { result ≡ length self.now }
    {
        self.left.len()
    }

    /// Whether the next word is this one.
    pub(crate) fn begins_with(&self, word: &str) -> bool
        ensures { result ≡ begins_with word.now self.now }
    {
        match self.left {
            [] => false,
            [first, ..] => is_same(token_text(self.text, first.token()), word),
        }
    }

    /// Whether the next word is a name.
    pub(crate) fn begins_name(&self) -> bool
        ensures { result ≡ begins_name self.now }
    {
        match self.left {
            [] => false,
            [first, ..] => first.kind == TokenKind::Name,
        }
    }

    /// Whether the next word is a number.
    pub(crate) fn begins_number(&self) -> bool
        ensures { result ≡ begins_number self.now }
    {
        match self.left {
            [] => false,
            [first, ..] => first.kind == TokenKind::Number,
        }
    }

    /// Takes this word.
    #[tactic(auto, unfolding(crate::specs::Leaves::key))]
    pub(crate) fn key(&mut self, word: &str) -> Result<(), Misread>
        ensures { Answers (λ x. x) result self.new (key word.now self.old) }
    {
        let [first, rest @ ..] = self.left else {
            return Err(Misread::Unexpected);
        };
        if !is_same(token_text(self.text, first.token()), word) {
            return Err(Misread::Unexpected);
        }
        self.left = rest;
        Ok(())
    }

    /// Takes any word.
    #[tactic(auto, unfolding(crate::specs::Leaves::skip))]
    pub(crate) fn skip(&mut self) -> Result<(), Misread>
        ensures { Answers (λ x. x) result self.new (skip self.old) }
    {
        let [_, rest @ ..] = self.left else {
            return Err(Misread::Unexpected);
        };
        self.left = rest;
        Ok(())
    }

    /// Takes a name.
    #[tactic(auto, unfolding(crate::specs::Leaves::name))]
    pub(crate) fn name(&mut self) -> Result<Name, Misread>
        ensures { Answers (λ x. x) result self.new (name self.old) }
    {
        let [first, rest @ ..] = self.left else {
            return Err(Misread::Unexpected);
        };
        let word = token_text(self.text, first.token());
        let Some(name) = self.names.named(self.alloc, word)? else {
            return Err(Misread::Unexpected);
        };
        self.left = rest;
        Ok(name)
    }

    /// Takes a text.
    #[tactic(auto, unfolding(crate::specs::Leaves::text), using(crate::proofs::Bodies::body_between))]
    pub(crate) fn text(&mut self) -> Result<Text, Misread>
        ensures { Answers (λ x. x) result self.new (text self.old) }
    {
        let [first, rest @ ..] = self.left else {
            return Err(Misread::Unexpected);
        };
        if first.kind != TokenKind::Text {
            return Err(Misread::Unexpected);
        }
        let text = Text::of(self.alloc, text_body(self.text, first.token()))?;
        self.left = rest;
        Ok(text)
    }

    /// Takes a number.
    #[tactic(auto, unfolding(crate::specs::Leaves::number))]
    pub(crate) fn number(&mut self) -> Result<Num, Misread>
        ensures { Answers (λ x. x) result self.new (number self.old) }
    {
        let [first, rest @ ..] = self.left else {
            return Err(Misread::Unexpected);
        };
        if first.kind != TokenKind::Number {
            return Err(Misread::Unexpected);
        }
        let value = value_at(self.text, first.token());
        self.left = rest;
        Ok(value)
    }

    /// Takes a number in these bounds.
    #[tactic(auto, unfolding(crate::specs::Leaves::number_in))]
    fn number_in(&mut self, least: Num, most: Num) -> Result<Num, Misread>
        ensures answer { Answers (λ x. x) result self.new (number_in least most self.old) }
        ensures least { IfOk result (λ value. least ≤ value) }
        ensures most { IfOk result (λ value. value ≤ most) }
    {
        let value = self.number()?;
        if value < least || most < value {
            return Err(Misread::Unexpected);
        }
        Ok(value)
    }

    /// Takes a number of ports, or of a port.
    pub(crate) fn port(&mut self) -> Result<u32, Misread>
        ensures { Answers (λ x. x) result self.new (port self.old) }
    {
        let value = self.number_in(0, MOST_PORT)?;
        Ok(value as u32)
    }

    /// Takes an offset without a sign.
    pub(crate) fn offset(&mut self) -> Result<u32, Misread>
        ensures answer { Answers (λ x. x) result self.new (offset self.old) }
        ensures most { IfOk result (λ value. value ≤ 1048576) }
    {
        let value = self.number_in(0, MOST_OFFSET)?;
        Ok(value as u32)
    }

    /// Takes a width.
    pub(crate) fn width(&mut self) -> Result<Width, Misread>
        ensures { Answers (λ x. x) result self.new (width self.old) }
    {
        let value = self.number_in(1, MOST_WIDTH)?;
        match Width::new(value as u8) {
            Some(width) => Ok(width),
            None => Err(Misread::Unexpected),
        }
    }
}
