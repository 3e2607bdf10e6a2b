//! Files.

ghost use Rattle.std.specs.Prelude.{◌≡◌, IfOk, IfErr};
ghost use Rattle.sn_edge.specs.Told.{FolderKept};
ghost use Rattle.command_edge.specs.Files.{FolderShows, IsLoaded, IsNotLoaded, bytes_of};
ghost use Rattle.command_edge.specs.declared.limits.TheConstants.{FILE_LIMIT};

use crate::fault::InputFault;
use crate::limits::FILE_LIMIT;
use sefl_syntax::Text;
use sn_edge::{Folder, Loaded};
use std::alloc::Global;

/// The bytes that were loaded, or the refusal that tells why there are none.
fn bytes_of(loaded: Loaded, name: Text) -> Result<Vec<u8>, InputFault>
    ensures { result ≡ bytes_of loaded name }
{
    match loaded {
        Loaded::Bytes(bytes) => Ok(bytes),
        Loaded::Absent => Err(InputFault::NoFile { name }),
        Loaded::TooBig => Err(InputFault::TooBig { name }),
        Loaded::Failed => Err(InputFault::ReadFault { name }),
        Loaded::NoMemory => Err(InputFault::NoMemory),
    }
}

/// The bytes of the file of this name, which has at most `limit` of them.
pub fn load_file<F: Folder>(
    alloc: Global,
    name: &str,
    limit: u64,
    folder: &mut F,
) -> Result<Vec<u8>, InputFault>
    ensures folder_kept { FolderKept (F.told folder.old) (F.told folder.new) }
    ensures loaded { IfOk result (λ bytes. IsLoaded F.told F.load_gives limit name.now folder.old bytes.items
        folder.new) }
    ensures fails { IfErr result (λ fault. IsNotLoaded F.told F.load_gives limit name.now folder.old fault folder.new) }
    ensures shows { IfErr result (FolderShows (F.told folder.old) (F.told folder.new)) }
{
    let own = Text::of(alloc, name)?;
    bytes_of(folder.load(alloc, name, limit), own)
}

/// The bytes of the file of this name, which has at most those that a text may have.
pub fn load_text<F: Folder>(
    alloc: Global,
    name: &str,
    folder: &mut F,
) -> Result<Vec<u8>, InputFault>
    ensures folder_kept { FolderKept (F.told folder.old) (F.told folder.new) }
    ensures loaded { IfOk result (λ bytes. IsLoaded F.told F.load_gives FILE_LIMIT name.now folder.old bytes.items
        folder.new) }
    ensures fails { IfErr result (λ fault. IsNotLoaded F.told F.load_gives FILE_LIMIT name.now folder.old fault
        folder.new) }
    ensures shows { IfErr result (FolderShows (F.told folder.old) (F.told folder.new)) }
{
    load_file(alloc, name, FILE_LIMIT, folder)
}
