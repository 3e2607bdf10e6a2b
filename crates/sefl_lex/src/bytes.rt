//! Classes of bytes, and how long a front of such bytes is.

ghost use Rattle.std.specs.Prelude.{◌≡◌, ◌≤◌, length};
ghost use Rattle.std.specs.List.{prefix_len};
ghost use Rattle.sefl_lex.specs.Bytes.{is_blank, is_name_start, is_decimal, is_name_byte, is_text_byte, is_line_byte, is_single, is_pair};

pub fn is_blank(byte: u8) -> bool
    ensures { result ≡ is_blank byte }
{
    matches!(byte, b' ' | b'\t' | b'\r' | b'\n')
}

/// Whether the byte is a letter or an underscore.
pub fn is_name_start(byte: u8) -> bool
    ensures { result ≡ is_name_start byte }
{
    matches!(byte, b'A'..=b'Z' | b'a'..=b'z' | b'_')
}

pub fn is_decimal(byte: u8) -> bool
    ensures { result ≡ is_decimal byte }
{
    matches!(byte, b'0'..=b'9')
}

/// Whether the byte is a letter, an underscore or a digit.
pub fn is_name_byte(byte: u8) -> bool
    ensures { result ≡ is_name_byte byte }
{
    is_name_start(byte) || is_decimal(byte)
}

/// Whether the byte may stand between the quotes of a text.
pub fn is_text_byte(byte: u8) -> bool
    ensures { result ≡ is_text_byte byte }
{
    byte >= 32 && byte != b'"' && byte != 127
}

pub fn is_single(byte: u8) -> bool
    ensures { result ≡ is_single byte }
{
    matches!(
        byte,
        b'{' | b'}'
            | b'['
            | b']'
            | b'('
            | b')'
            | b';'
            | b':'
            | b','
            | b'.'
            | b'='
            | b'<'
            | b'>'
            | b'+'
            | b'-'
            | b'$'
    )
}

pub fn is_pair(first: u8, second: u8) -> bool
    ensures { result ≡ is_pair first second }
{
    match second {
        b'.' => first == b'.',
        b'=' => matches!(first, b'=' | b'!' | b'<' | b'>'),
        b'>' => first == b'-',
        _ => false,
    }
}

/// How many letters, digits and `_` the bytes begin with.
pub fn name_bytes(bytes: &[u8]) -> usize
    ensures count { result ≡ prefix_len is_name_byte bytes.now }
    ensures within { result ≤ length bytes.now }
{
    bytes.iter().take_while(|byte| is_name_byte(**byte)).count()
}

/// How many bytes of a text the bytes begin with.
pub fn text_bytes(bytes: &[u8]) -> usize
    ensures count { result ≡ prefix_len is_text_byte bytes.now }
    ensures within { result ≤ length bytes.now }
{
    bytes.iter().take_while(|byte| is_text_byte(**byte)).count()
}

/// How many bytes before the end of the line there are.
pub fn line_bytes(bytes: &[u8]) -> usize
    ensures count { result ≡ prefix_len is_line_byte bytes.now }
    ensures within { result ≤ length bytes.now }
{
    bytes.iter().take_while(|byte| **byte != b'\n').count()
}
