//! Numbers of words.

ghost use Rattle.std.specs.Prelude.{◌≡◌, ◌≤◌, IfSome};
ghost use Rattle.command_words.specs.Numbers.{count_of, number_in, number_of, seed_of};

/// The most digits of a number.
const MOST_DIGITS: usize = 20;

/// The number that 1 to 20 decimal digits spell; None where the word is something else.
fn number_of(word: &str) -> Option<u128>
    ensures { result ≡ number_of word.now }
{
    let digits = word.as_bytes();
    if digits.is_empty() || digits.len() > MOST_DIGITS {
        return None;
    }
    let mut value = 0;
    for digit in digits {
        if !digit.is_ascii_digit() {
            return None;
        }
        value = value * 10 + u128::from(*digit - b'0');
    }
    Some(value)
}

/// The number of a word, if it is in the range.
pub fn number_in(least: u32, most: u32, word: &str) -> Option<u32>
    ensures number { result ≡ number_in least most word.now }
    ensures range { IfSome result (λ n. (least ≤ n) × (n ≤ most)) }
{
    let number = number_of(word)?;
    if u128::from(least) <= number && number <= u128::from(most) {
        Some(number as u32)
    } else {
        None
    }
}

/// The seed that a word spells.
pub fn seed_of(word: &str) -> Option<u64>
    ensures { result ≡ seed_of word.now }
{
    let number = number_of(word)?;
    if number <= u128::from(u64::MAX) {
        Some(number as u64)
    } else {
        None
    }
}

/// The number from 1 on that a word spells.
pub fn count_of(word: &str) -> Option<u64>
    ensures number { result ≡ count_of word.now }
    ensures range { IfSome result (λ n. 1 ≤ n) }
{
    let number = number_of(word)?;
    if 1 <= number && number <= u128::from(u64::MAX) {
        Some(number as u64)
    } else {
        None
    }
}
