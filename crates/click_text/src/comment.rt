//! Where comments and arguments end.

ghost use Rattle.std.specs.Prelude.{◌≡◌, ◌+◌, ◌≤◌, ◌<◌, ◌^◌, length, IfSome};
ghost use Rattle.click_text.specs.Comments.{mode_behind, is_plain, closes, comment_end, arguments_end, line_behind};

/// Where a place stands among comments.
#[derive(Clone, Copy)]
pub(crate) enum Mode {
    /// In no comment.
    Plain,
    /// In none, behind a slash.
    Slash,
    /// In a comment that ends with its line.
    Line,
    /// In a comment between signs.
    Block,
    /// In such a one, behind an asterisk.
    Star,
}

impl Mode {
    /// Behind one byte more.
    pub(crate) fn behind(self, byte: u8) -> Mode
        ensures { result ≡ mode_behind self byte }
    {
        match self {
            Mode::Plain => {
                if byte == b'/' {
                    Mode::Slash
                } else {
                    Mode::Plain
                }
            }
            Mode::Slash => {
                if byte == b'/' {
                    Mode::Line
                } else if byte == b'*' {
                    Mode::Block
                } else {
                    Mode::Plain
                }
            }
            Mode::Line => {
                if byte == b'\n' {
                    Mode::Plain
                } else {
                    Mode::Line
                }
            }
            Mode::Block => {
                if byte == b'*' {
                    Mode::Star
                } else {
                    Mode::Block
                }
            }
            Mode::Star => {
                if byte == b'/' {
                    Mode::Plain
                } else if byte == b'*' {
                    Mode::Star
                } else {
                    Mode::Block
                }
            }
        }
    }

    fn is_plain(self) -> bool
        ensures { result ≡ is_plain self }
    {
        match self {
            Mode::Plain => true,
            Mode::Slash => false,
            Mode::Line => false,
            Mode::Block => false,
            Mode::Star => false,
        }
    }

    /// Whether the byte is a parenthesis that closes arguments.
    fn closes(self, byte: u8) -> bool
        ensures { result ≡ closes self byte }
    {
        match self {
            Mode::Plain => byte == b')',
            Mode::Slash => byte == b')',
            Mode::Line => false,
            Mode::Block => false,
            Mode::Star => false,
        }
    }
}

/// How many bytes there are up to the end of the comment that the bytes go on with.
pub(crate) fn comment_end(start: Mode, bytes: &[u8]) -> usize
    ensures count { result ≡ comment_end start 0 bytes.now }
    ensures within { result ≤ length bytes.now }
{
    let mut mode = start;
    let mut count = 0;
    for byte in bytes {
        mode = mode.behind(*byte);
        count += 1;
        if mode.is_plain() {
            return count;
        }
    }
    count
}

/// How many bytes there are up to the parenthesis that closes arguments, it too; None where none does.
pub(crate) fn arguments_end(bytes: &[u8]) -> Option<usize>
    ensures count { result ≡ arguments_end Mode.Plain 0 bytes.now }
    ensures within { IfSome result (λ count. count ≤ length bytes.now) }
{
    let mut mode = Mode::Plain;
    let mut count = 0;
    for byte in bytes {
        count += 1;
        if mode.closes(*byte) {
            return Some(count);
        }
        mode = mode.behind(*byte);
    }
    None
}

/// The number of the line behind these bytes, which begin in the line `line`.
pub(crate) fn line_behind(line: u64, bytes: &[u8]) -> u64
    requires room { line + length bytes.now < 2 ^ 64 }
    ensures line { result ≡ line_behind line bytes.now }
    ensures within { result ≤ line + length bytes.now }
{
    let mut number = line;
    for byte in bytes {
        if *byte == b'\n' {
            number += 1;
        }
    }
    number
}
