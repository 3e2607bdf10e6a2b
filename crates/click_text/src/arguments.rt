//! The text of arguments without its comments, with spaces as its only blanks.

ghost use Rattle.std.specs.Prelude.{◌≡◌, ◌++◌, [], IfOk};
ghost use Rattle.click_text.specs.Arguments.{inside, spaced, put_behind, put_last, without_comments, arguments_text};

use crate::bytes::is_blank;
use crate::comment::Mode;
use std::alloc::{AllocError, Global};

/// What stands between the parentheses; nothing, where there are none.
fn inside(arguments: &[u8]) -> &[u8]
    ensures { result.now ≡ inside arguments.now }
{
    match arguments {
        [_, middle @ .., _] => middle,
        _ => &[],
    }
}

/// A space for each blank.
fn spaced(byte: u8) -> u8
    ensures { result ≡ spaced byte }
{
    if is_blank(byte) { b' ' } else { byte }
}

/// Puts what is known of the text with one byte more.
fn put_behind(text: &mut Vec<u8>, mode: Mode, byte: u8) -> Result<(), AllocError>
    ensures { IfOk result (λ done. text.new.items ≡ text.old.items ++ put_behind mode byte) }
{
    match mode {
        Mode::Plain => {
            if byte != b'/' {
                text.push(spaced(byte))?;
            }
        }
        Mode::Slash => {
            if byte == b'/' || byte == b'*' {
                text.push(b' ')?;
            } else {
                text.push(b'/')?;
                text.push(spaced(byte))?;
            }
        }
        Mode::Line => {}
        Mode::Block => {}
        Mode::Star => {}
    }
    Ok(())
}

/// Puts what is known of the text at its end.
fn put_last(text: &mut Vec<u8>, mode: Mode) -> Result<(), AllocError>
    ensures { IfOk result (λ done. text.new.items ≡ text.old.items ++ put_last mode) }
{
    if let Mode::Slash = mode {
        text.push(b'/')?;
    }
    Ok(())
}

fn without_comments(alloc: Global, bytes: &[u8]) -> Result<Vec<u8>, AllocError>
    ensures { IfOk result (λ text. text.items ≡ without_comments Mode.Plain [] bytes.now) }
{
    let mut text = Vec::new(alloc);
    let mut mode = Mode::Plain;
    for byte in bytes {
        put_behind(&mut text, mode, *byte)?;
        mode = mode.behind(*byte);
    }
    put_last(&mut text, mode)?;
    Ok(text)
}

/// What stands between the parentheses, with a space for each comment and each other blank.
pub fn arguments_text(alloc: Global, arguments: &[u8]) -> Result<Vec<u8>, AllocError>
    ensures { IfOk result (λ text. text.items ≡ arguments_text arguments.now) }
{
    without_comments(alloc, inside(arguments))
}
