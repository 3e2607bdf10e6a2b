//! The call.

ghost use Rattle.std.specs.Prelude.{◌≡◌, ◌<◌, ◌⊎◌, [], IfNone, IfOk, IfSome, map, string_bytes};
ghost use Rattle.sn_edge.specs.MemFolder.{entry_of};
ghost use Rattle.symnet_c.specs.Calls.{Answers, AreNoLists, HasPut, IsAnswer, IsUnread, RanAfter};
ghost use Rattle.caller_edge.specs.Lists.{HasFiles, HasTexts};

use crate::message::message_of;
use caller_edge::{GivenFiles, KeptOutput, NamedFile, put, read_files, read_texts};
use command_runs::Status;
use regex_patterns::RegexPatterns;
use std::alloc::{AllocError, Global};
use symnet_program::laws::runs_tell;
use symnet_program::symnet;

/// How many bytes there are of the output, and of the message.
#[repr(C)]
#[derive(Drop)]
pub struct Sizes {
    pub output: usize,
    pub message: usize,
}

/// What is answered where the words or the files are no list.
const NO_LIST: u32 = 256;

/// What is answered where there is no memory to read them, as for any want of memory.
const NO_MEMORY: u32 = 1;

/// The words and the files of a call.
#[derive(Drop)]
struct Given {
    words: Vec<String>,
    files: Vec<NamedFile>,
}

/// Reads the words and the files.
fn read_given(alloc: Global, words: &[u8], listed: &[u8]) -> Result<Option<Given>, AllocError>
    ensures words { IfOk result (λ r. IfSome r (λ g. HasTexts words.now (map string_bytes g.words.items))) }
    ensures files { IfOk result (λ r. IfSome r (λ g. HasFiles listed.now (map entry_of g.files.items))) }
    ensures none { IfOk result (λ r. IfNone r (AreNoLists words.now listed.now)) }
{
    let Some(words) = read_texts(alloc, words)? else {
        return Ok(None);
    };
    let Some(files) = read_files(alloc, listed)? else {
        return Ok(None);
    };
    Ok(Some(Given { words, files }))
}

/// Runs the program. The contract of `symnet` is long, and goals behind its call are proved with all of it.
fn run(alloc: Global, words: &[String], folder: &mut GivenFiles, out: &mut KeptOutput) -> Status
    requires { out.old ≡ [] }
    ensures { RanAfter folder.old 0 (map string_bytes words.now) result out.new }
{
    runs_tell::<GivenFiles, RegexPatterns>();
    let mut patterns = RegexPatterns::new();
    symnet(alloc, words, folder, &mut patterns, out)
}

/// Runs the program over files in memory, and puts what it wrote and what is said of it into the rooms.
fn answer(
    alloc: Global,
    given: Given,
    output: &mut [u8],
    message_room: &mut [u8],
    sizes: &mut Sizes,
) -> u32
    ensures answer { IsAnswer (map string_bytes given.words.items) (map entry_of given.files.items) result
        sizes.new.output output.old output.new }
    ensures message { HasPut sizes.new.message message_room.old message_room.new }
    ensures small { result < 256 }
{
    let Given { words, files } = given;
    let mut folder = GivenFiles::new(alloc, files);
    let mut out = KeptOutput::new(alloc);
    let status = run(alloc, &words, &mut folder, &mut out);
    sizes.output = put(out.bytes(), output);
    sizes.message = put(
        &message_of(alloc, &words, &status, &mut folder),
        message_room,
    );
    u32::from(status.number())
}

/// Runs the program on the words after its name, over the files that are listed and no others. Both are lists as bytes: each part behind its length,
/// which takes eight bytes with the lowest first; of each file its name, and then its bytes. Of two files under one name the first counts.
///
/// What the program writes is put into `output`, and what it would show on standard error into `message_room`; `sizes` tells how many bytes there are
/// of each. Where a room has fewer, the first are there, and a call with more room gives all. The answer is the status, as the process would end
/// with (`docs/statuses.md`), except 4 and 5, since nothing fails outside; or 256 where the words or the files are no list of texts, or of files whose
/// names are texts. No pointer may be null, also where nothing is there, and no two rooms may overlap.
#[unsafe(no_mangle)]
pub extern "C" fn symnet_call(
    alloc: Global,
    words: &[u8],
    listed: &[u8],
    output: &mut [u8],
    message_room: &mut [u8],
    sizes: &mut Sizes,
) -> u32
    ensures answers { IsUnread result sizes.new.output output.old output.new
        ⊎ Answers words.now listed.now result sizes.new.output output.old output.new }
    ensures message { HasPut sizes.new.message message_room.old message_room.new }
    ensures no_list { result ≡ 256 → AreNoLists words.now listed.now }
{
    sizes.output = 0;
    sizes.message = 0;
    match read_given(alloc, words, listed) {
        Ok(Some(given)) => answer(alloc, given, output, message_room, sizes),
        Ok(None) => NO_LIST,
        Err(_) => NO_MEMORY,
    }
}
