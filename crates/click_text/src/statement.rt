//! The statements of a text.

ghost use Rattle.std.specs.Prelude.{◌≡◌, ◌≢◌, true, map, All, Ok, Err, IfOk, IfErr};
ghost use Rattle.sefl_lex.specs.Words.{is_name};
ghost use Rattle.click_text.specs.Items.{seen_item, items_of};
ghost use Rattle.click_text.specs.declared.fault.Unread.TheVariants.{NoMemory};

use crate::fault::Unread;
use crate::item::{Item, Step, blank, step_of};
use crate::stage::Stage;
use crate::token::next_token;
use std::alloc::Global;

fn all_items(alloc: Global, bytes: &[u8]) -> Result<Vec<Item<'_>>, Unread>
    ensures items { IfOk result (λ items. items_of bytes.now ≡ Ok (map seen_item items.items)) }
    ensures refused { IfErr result (λ fault. fault ≢ NoMemory → items_of bytes.now ≡ Err fault) }
{
    let mut items = Vec::new(alloc);
    let mut partial = blank(Stage::Between);
    let mut left = bytes;
    let mut line: u64 = 1;
    loop {
        let (token, behind) = next_token(left, line);
        match step_of(partial, token) {
            Step::Refused => return Err(Unread::BadLine { line: token.line }),
            Step::Goes(next) => partial = next,
            Step::Puts(stage) => {
                items.push(partial.item)?;
                partial = blank(stage);
            }
        }
        let Some((rest, next)) = behind else {
            return Ok(items);
        };
        left = rest;
        line = next;
    }
}

/// The elements of all statements, in the order of the text, each with a name of 1 to 64 bytes, or the
/// line of the first token that the grammar does not allow.
pub fn read_items(alloc: Global, bytes: &[u8]) -> Result<Vec<Item<'_>>, Unread>
    ensures items { IfOk result (λ items. items_of bytes.now ≡ Ok (map seen_item items.items)) }
    ensures names { IfOk result (λ items. All (λ item. is_name item.name.now ≡ true) items.items) }
    ensures refused { IfErr result (λ fault. fault ≢ NoMemory → items_of bytes.now ≡ Err fault) }
{
    all_items(alloc, bytes)
}
