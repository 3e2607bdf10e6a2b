//! What a token of a text says.

ghost use Rattle.std.specs.Prelude.{◌≡◌, [], ◌∷◌, ◌++◌};
ghost use Rattle.sefl_lex.specs.Words.{value_of};
ghost use Rattle.sefl_lex.specs.Reads.{IsTokenOf, word_of};
ghost use Rattle.sefl_lex.specs.declared.token.TokenKind.TheVariants.{Number, Text};

use crate::number::value_of;
use crate::token::Token;

/// The text of a token.
pub fn token_text(text: &str, token: Token) -> &str
    requires { IsTokenOf text.now token }
    ensures { result.now ≡ word_of text.now token }
{
    &text[token.start as usize..token.end as usize]
}

/// What stands between the quotes of a text.
pub fn text_body(text: &str, token: Token) -> &str
    requires token { IsTokenOf text.now token }
    requires text { token.kind ≡ Text }
    ensures { word_of text.now token ≡ 34 ∷ (result.now ++ 34 ∷ []) }
{
    &text[token.start as usize + 1..token.end as usize - 1]
}

/// The value of a number.
pub fn number_value(text: &str, token: Token) -> u128
    requires token { IsTokenOf text.now token }
    requires number { token.kind ≡ Number }
    ensures { result ≡ value_of (word_of text.now token) }
{
    match value_of(token_text(text, token).as_bytes()) {
        Some(value) => value,
        None => unreachable!(),
    }
}
