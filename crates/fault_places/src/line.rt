//! The lines of a file.

ghost use Rattle.std.specs.Prelude.{◌≡◌, ◌≤◌, length, option_map, IfSome};
ghost use Rattle.std.specs.List.{prefix_len};
ghost use Rattle.sefl_lex.specs.Bytes.{is_blank, is_line_byte};
ghost use Rattle.fault_places.specs.Lines.{first_line, line_of, skipped};

/// How many bytes `lines` lines take, with their ends; None where there are fewer ends.
fn skipped(lines: u64, bytes: &[u8]) -> Option<usize>
    ensures count { result ≡ skipped lines 0 bytes.now }
    ensures within { IfSome result (λ count. count ≤ length bytes.now) }
{
    let mut left = lines;
    let mut count = 0;
    for byte in bytes {
        if left == 0 {
            return Some(count);
        }
        count += 1;
        if *byte == b'\n' {
            left -= 1;
        }
    }
    if left == 0 { Some(count) } else { None }
}

fn line_bytes(bytes: &[u8]) -> usize
    ensures count { result ≡ prefix_len is_line_byte bytes.now }
    ensures within { result ≤ length bytes.now }
{
    bytes.iter().take_while(|byte| **byte != b'\n').count()
}

/// The bytes before the first line's end.
fn first_line(bytes: &[u8]) -> &[u8]
    ensures { result.now ≡ first_line bytes.now }
{
    bytes.split_at(line_bytes(bytes)).0
}

/// The line of this number, from 1, without its end; None where there is none. What stands behind the last line's end is
/// a line too, also where nothing does.
pub fn line_of(bytes: &[u8], number: u64) -> Option<&[u8]>
    ensures { option_map (λ line. line.now) result ≡ line_of number bytes.now }
{
    if number == 0 {
        return None;
    }
    match skipped(number - 1, bytes) {
        Some(count) => Some(first_line(bytes.split_at(count).1)),
        None => None,
    }
}

pub(crate) fn is_blank(byte: u8) -> bool
    ensures { result ≡ is_blank byte }
{
    matches!(byte, b' ' | b'\t' | b'\r' | b'\n')
}

/// How many blanks the line begins with.
pub fn indent_of(line: &[u8]) -> usize
    ensures count { result ≡ prefix_len is_blank line.now }
    ensures within { result ≤ length line.now }
{
    line.iter().take_while(|byte| is_blank(**byte)).count()
}
