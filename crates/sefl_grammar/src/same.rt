//! Whether words are the same.

ghost use Rattle.std.specs.Prelude.{◌≡◌, bytes_eq};

/// Whether two texts are the same. Words are short, and most differ in their first byte.
pub fn is_same(text: &str, word: &str) -> bool
    ensures { result ≡ bytes_eq text.now word.now }
{
    let mut left = text.as_bytes();
    let mut right = word.as_bytes();
    while let ([first, others @ ..], [other, rest @ ..]) = (left, right) {
        if *first != *other {
            return false;
        }
        left = others;
        right = rest;
    }
    left.is_empty() && right.is_empty()
}
