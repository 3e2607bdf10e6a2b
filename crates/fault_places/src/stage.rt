//! How the words of a job's text make up its statements.

ghost use Rattle.std.specs.Prelude.{◌≡◌};
ghost use Rattle.fault_places.specs.Statements.{behind, behind_in, behind_range, behind_word, counts, is_ask, is_first, is_sought, mark_of};

/// What a word is to the statements of a text.
#[derive(Clone, Copy)]
pub(crate) enum Mark {
    Open,
    Close,
    Semicolon,
    In,
    Else,
    Ask,
    Other,
}

/// Where a word stands in the statements of a text.
#[derive(Clone, Copy)]
pub(crate) enum Stage {
    /// Where a statement may begin.
    Fresh,
    /// In a statement.
    Inside,
    /// Behind `in`, where a brace opens a list of ranges.
    BehindIn,
    /// In a list of ranges.
    Ranges,
}

/// Which statements are counted.
#[derive(Clone, Copy)]
pub enum Sought {
    /// All items of a job's text: nodes, codes, instructions, links, the injection, its lines, and questions.
    Items,
    Questions,
}

/// What the word is.
pub(crate) fn mark_of(word: &str) -> Mark
    ensures { result ≡ mark_of word.now }
{
    match word {
        "{" => Mark::Open,
        "}" => Mark::Close,
        ";" => Mark::Semicolon,
        "in" => Mark::In,
        "else" => Mark::Else,
        "ask" => Mark::Ask,
        _ => Mark::Other,
    }
}

/// Whether a statement may begin with it; the block behind `else` is a part of its If.
fn is_first(mark: Mark) -> bool
    ensures { result ≡ is_first mark }
{
    match mark {
        Mark::Open => true,
        Mark::Close => false,
        Mark::Semicolon => false,
        Mark::In => true,
        Mark::Else => false,
        Mark::Ask => true,
        Mark::Other => true,
    }
}

fn is_ask(mark: Mark) -> bool
    ensures { result ≡ is_ask mark }
{
    matches!(mark, Mark::Ask)
}

/// Where the next word stands, behind one that is in no list of ranges.
fn behind_word(mark: Mark) -> Stage
    ensures { result ≡ behind_word mark }
{
    match mark {
        Mark::Open => Stage::Fresh,
        Mark::Close => Stage::Fresh,
        Mark::Semicolon => Stage::Fresh,
        Mark::In => Stage::BehindIn,
        Mark::Else => Stage::Inside,
        Mark::Ask => Stage::Inside,
        Mark::Other => Stage::Inside,
    }
}

/// The same behind the word that follows `in`.
fn behind_in(mark: Mark) -> Stage
    ensures { result ≡ behind_in mark }
{
    if matches!(mark, Mark::Open) {
        Stage::Ranges
    } else {
        behind_word(mark)
    }
}

/// The same in a list of ranges.
fn behind_range(mark: Mark) -> Stage
    ensures { result ≡ behind_range mark }
{
    if matches!(mark, Mark::Close) {
        Stage::Inside
    } else {
        Stage::Ranges
    }
}

impl Stage {
    /// Where the next word stands.
    pub(crate) fn behind(self, mark: Mark) -> Stage
        ensures { result ≡ behind self mark }
    {
        match self {
            Stage::Fresh => behind_word(mark),
            Stage::Inside => behind_word(mark),
            Stage::BehindIn => behind_in(mark),
            Stage::Ranges => behind_range(mark),
        }
    }
}

impl Sought {
    fn has(self, mark: Mark) -> bool
        ensures { result ≡ is_sought self mark }
    {
        match self {
            Sought::Items => is_first(mark),
            Sought::Questions => is_ask(mark),
        }
    }

    /// Whether a statement that is counted begins with the word that stands there.
    pub(crate) fn counts(self, stage: Stage, mark: Mark) -> bool
        ensures { result ≡ counts self stage mark }
    {
        match stage {
            Stage::Fresh => self.has(mark),
            Stage::Inside => false,
            Stage::BehindIn => false,
            Stage::Ranges => false,
        }
    }
}
