//! What stands between separators.

ghost use Rattle.std.specs.Prelude.{◌≡◌, ◌<◌, ◌≤◌, [], ◌∷◌, length, IfSome, IfNone};
ghost use Rattle.std.specs.List.{prefix_len};
ghost use Rattle.table_lines.specs.Pieces.{separates, is_piece_byte, pieces};

/// A byte, or one of two, that stands between pieces.
#[derive(Clone, Copy)]
pub enum Separator {
    LineFeed,
    /// A space or a tab.
    Blank,
    /// `#`, which begins a comment.
    NumberSign,
    Colon,
    Comma,
    Dot,
    Slash,
}

impl Separator {
    fn is(self, byte: u8) -> bool
        ensures { result ≡ separates self byte }
    {
        match self {
            Separator::LineFeed => byte == b'\n',
            Separator::Blank => byte == b' ' || byte == b'\t',
            Separator::NumberSign => byte == b'#',
            Separator::Colon => byte == b':',
            Separator::Comma => byte == b',',
            Separator::Dot => byte == b'.',
            Separator::Slash => byte == b'/',
        }
    }
}

/// How many bytes stand before the first separator.
fn piece_bytes(bytes: &[u8], separator: Separator) -> usize
    ensures count { result ≡ prefix_len (is_piece_byte separator) bytes.now }
    ensures within { result ≤ length bytes.now }
{
    bytes
        .iter()
        .take_while(|byte| !separator.is(**byte))
        .count()
}

/// The first piece, and what stands behind the separator after it, if there is one.
pub fn next_piece(bytes: &[u8], separator: Separator) -> (&[u8], Option<&[u8]>)
    ensures last { IfNone result.1 (pieces separator bytes.now ≡ result.0.now ∷ []) }
    ensures more { IfSome result.1 (λ rest. pieces separator bytes.now ≡ result.0.now ∷ pieces separator rest.now) }
    ensures shorter { IfSome result.1 (λ rest. length rest.now < length bytes.now) }
{
    let (piece, behind) = bytes.split_at(piece_bytes(bytes, separator));
    match behind.split_first() {
        Some((_, rest)) => (piece, Some(rest)),
        None => (piece, None),
    }
}
