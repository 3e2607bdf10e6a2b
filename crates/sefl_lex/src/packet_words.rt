//! Words between blanks.

ghost use Rattle.std.specs.Prelude.{◌≡◌, ◌<◌, ◌≤◌, [], ◌∷◌, false, length, IfSome, IfNone};
ghost use Rattle.std.specs.List.{prefix_len};
ghost use Rattle.sefl_lex.specs.Bytes.{is_blank, begins};
ghost use Rattle.sefl_lex.specs.Packets.{is_word_byte, words};

fn is_blank(byte: u8) -> bool
    ensures { result ≡ is_blank byte }
{
    matches!(byte, b' ' | b'\t' | b'\r' | b'\n')
}

/// How many blanks the bytes begin with.
fn blank_bytes(bytes: &[u8]) -> usize
    ensures count { result ≡ prefix_len is_blank bytes.now }
    ensures within { result ≤ length bytes.now }
{
    bytes.iter().take_while(|byte| is_blank(**byte)).count()
}

/// How many bytes other than blanks the bytes begin with.
fn word_bytes(bytes: &[u8]) -> usize
    ensures count { result ≡ prefix_len is_word_byte bytes.now }
    ensures within { result ≤ length bytes.now }
{
    bytes.iter().take_while(|byte| !is_blank(**byte)).count()
}

/// The bytes without the blanks that they begin with.
fn skip_blanks(bytes: &[u8]) -> &[u8]
    ensures words { words result.now ≡ words bytes.now }
    ensures no_blank { begins is_blank result.now ≡ false }
    ensures within { length result.now ≤ length bytes.now }
{
    bytes.split_at(blank_bytes(bytes)).1
}

/// The first word, and what follows it; None exactly where there is no word.
pub fn next_word(bytes: &[u8]) -> Option<(&[u8], &[u8])>
    ensures some { IfSome result (λ next. words bytes.now ≡ next.0.now ∷ words next.1.now) }
    ensures shorter { IfSome result (λ next. length next.1.now < length bytes.now) }
    ensures none { IfNone result (words bytes.now ≡ []) }
{
    let rest = skip_blanks(bytes);
    if rest.is_empty() {
        return None;
    }
    Some(rest.split_at(word_bytes(rest)))
}
