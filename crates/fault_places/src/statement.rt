//! Where statements begin.

ghost use Rattle.std.specs.Prelude.{◌≡◌, All};
ghost use Rattle.sefl_lex.specs.Reads.{IsTokenOf};
ghost use Rattle.fault_places.specs.Statements.{statement_start};

use crate::stage::{Sought, Stage, mark_of};
use sefl_lex::{Token, token_text};

/// The first byte of the statement of this number, counted from 0 in the order of the text; None where there are
/// fewer. Of a text that is a job's, the items stand in the order of their sites.
pub fn statement_start(text: &str, tokens: &[Token], sought: Sought, number: u64) -> Option<u64>
    requires { All (IsTokenOf text.now) tokens.now }
    ensures { result ≡ statement_start text.now sought number tokens.now }
{
    let mut stage = Stage::Inside;
    let mut left = number;
    for index in 0..tokens.len() {
        let token = tokens[index];
        let mark = mark_of(token_text(text, token));
        if sought.counts(stage, mark) {
            if left == 0 {
                return Some(token.start);
            }
            left -= 1;
        }
        stage = stage.behind(mark);
    }
    None
}
