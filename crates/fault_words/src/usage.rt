//! What is said of words that have no reading.

use crate::wrong::wrong_word;
use fault_places::plain_word;
use std::alloc::{AllocError, Global};

/// The commands, with their options and what these are where they are not given.
const FORMS: &str = "symnet explore JOB [--hops N] [--limit N] [--cases N|all] [--pruned all|count]
symnet walk JOB PACKET [--hops N] [--limit N] [--packets one|lines]
symnet replay JOB REPORT [--records each|whole]
symnet ask JOB [--hops N] [--limit N] [--cases N|all]
symnet loops JOB [--hops N] [--limit N] [--cases N|all] [--open numbers|visits]
symnet compare JOB OTHER [--hops N] [--limit N] [--cases N|all] [--cut omit|count]
symnet model mac|fib FILE [--style chain|grouped|egress]
symnet model click FILE
symnet model acl FILE [--style chain|grouped]
symnet rules FILE [OTHER]
symnet grow SEED NODES
--hops N: input ports on a path, 1 to 256 (16 where it is not given)
--limit N: records or walks, 1 to 100,000 (10,000)
--limit N of ask, loops and compare: records, 1 to 4,294,967,295 (10,000)
--cases N|all: choices of cases that a decision tries, 1 to 18,446,744,073,709,551,615 (4,096)
--pruned: sides that no packet takes, each or their number alone (all)
--cut: paths that end at the bound of hops, not told or their number in each job (omit)
--packets: how many the file has, one or one on each line (one)
--records: what is confirmed, each record by itself or also that none is missing (each)
--open: paths that show no loop, their numbers or their earlier visits too (numbers)
--style: how a node tests its packets (grouped)
SEED: 0 to 18,446,744,073,709,551,615; NODES: 1 to 10,000
options stand anywhere behind the command, also as --hops=N; behind -- all words are files";

/// Which word is wrong and why, and the forms of all commands.
pub(crate) fn usage_text(alloc: Global, words: &[String]) -> Result<String, AllocError> {
    match wrong_word(words) {
        Some(wrong) => {
            let (what, why) = (wrong.what, wrong.why);
            let word = plain_word(alloc, wrong.word)?;
            format!(in alloc; "`{word}`: {what}{why}\n{FORMS}")
        }
        None => String::from_str(alloc, FORMS),
    }
}
