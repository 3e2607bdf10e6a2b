//! Words that begin with one dash: `clap` takes a lone one for a positional, and the others for bundles of short flags.

ghost use Rattle.std.specs.Prelude.{◌≡◌, map, string_bytes};
ghost use Rattle.command_words.specs.Forms.{has_single_dash, is_single_dash};

/// Whether a word begins with one dash.
fn is_single_dash(word: &str) -> bool
    ensures { result ≡ is_single_dash word.now }
{
    match word.as_bytes() {
        [] => false,
        [first] => *first == b'-',
        [first, second, ..] => *first == b'-' && *second != b'-',
    }
}

/// Whether a word before any `--` begins with one dash.
pub fn has_single_dash(words: &[String]) -> bool
    ensures { result ≡ has_single_dash (map (λ w. string_bytes w) words.now) }
{
    for word in words {
        let word = word.as_str();
        if word == "--" {
            return false;
        }
        if is_single_dash(word) {
            return true;
        }
    }
    false
}
