//! What holds of all table files.

ghost use Rattle.table_lines.specs.Laws.{FilesHaveTables, WordsHaveKeys};

/// What a word of a row says is an address or a prefix of the kind, with the bits past the length at 0.
pub fn words_have_keys()
    ensures { WordsHaveKeys }
{}

/// The rows of a file that is read have addresses or prefixes of the kind, with the bits past the
/// length at 0, ports below the number of ports, and no address or prefix stands twice.
pub fn files_have_tables()
    ensures { FilesHaveTables }
{}
