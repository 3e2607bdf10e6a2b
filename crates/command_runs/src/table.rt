//! The tables that a job names.

ghost use Rattle.std.specs.Prelude.{◌≡◌, true, false, IfOk, IfErr, OnOk, IfSome, IfNone};
ghost use Rattle.sefl_syntax.specs.Filled.{is_code};
ghost use Rattle.sefl_syntax.specs.Views.{body_tree, job_tree, node_tree};
ghost use Rattle.sn_edge.specs.Told.{FolderKept};
ghost use Rattle.command_edge.specs.Files.{FolderShows};
ghost use Rattle.command_runs.specs.Refusals.{fault_of_table};
ghost use Rattle.command_runs.specs.Loading.{Fills, LoadsCode, LoadsNoCode, LoadsUpTo};

use command_edge::{InputFault, load_text};
use sefl_syntax::{Body, Job, RawNode, Text, fill};
use sn_edge::Folder;
use std::alloc::Global;
use table_files::{FileFault, file_node};

/// The refusal that tells why the file of this name gives no node.
fn fault_of_table(name: Text, fault: FileFault) -> InputFault
    ensures { result ≡ fault_of_table name fault }
{
    match fault {
        FileFault::Bad { line, kind } => InputFault::BadTable { name, line, kind },
        FileFault::NoMemory => InputFault::NoMemory,
    }
}

/// The node of a table; None where a node has code of its own.
fn table_node<F: Folder>(
    alloc: Global,
    body: &Body,
    folder: &mut F,
) -> Result<Option<RawNode>, InputFault>
    ensures folder_kept { FolderKept (F.told folder.old) (F.told folder.new) }
    ensures own { IfOk result (λ found. IfNone found (is_code (body_tree body.now) ≡ true)) }
    ensures unread { IfOk result (λ found. IfNone found (folder.new ≡ folder.old)) }
    ensures table { IfOk result (λ found. IfSome found (λ _. is_code (body_tree body.now) ≡ false)) }
    ensures node { IfOk result (λ found. IfSome found (λ node.
        LoadsCode F.told F.load_gives folder.old (body_tree body.now) (node_tree node) folder.new)) }
    ensures fails { IfErr result (λ fault. LoadsNoCode F.told F.load_gives folder.old (body_tree body.now) fault
        folder.new) }
    ensures shows { IfErr result (FolderShows (F.told folder.old) (F.told folder.new)) }
{
    let Body::Table { kind, file, style } = body else {
        return Ok(None);
    };
    let bytes = load_text(alloc, file.text(), folder)?;
    match file_node(alloc, *kind, &bytes, *style) {
        Ok(node) => Ok(Some(node)),
        Err(fault) => Err(fault_of_table(Text::of(alloc, file.text())?, fault)),
    }
}

/// Gives each node of the job code: loads the tables in order, up to the first that is refused.
pub fn fill_tables<F: Folder>(
    alloc: Global,
    job: &mut Job,
    folder: &mut F,
) -> Result<(), InputFault>
    ensures folder_kept { FolderKept (F.told folder.old) (F.told folder.new) }
    ensures filled { OnOk result (Fills F.told F.load_gives folder.old (job_tree job.old) (job_tree job.new)
        folder.new) }
    ensures fails { IfErr result (λ fault. LoadsUpTo F.told F.load_gives folder.old (job_tree job.old).net.nodes fault
        folder.new) }
    ensures shows { IfErr result (FolderShows (F.told folder.old) (F.told folder.new)) }
{
    for index in 0..job.net.nodes.len() {
        if let Some(node) = table_node(alloc, &job.net.nodes[index].body, folder)? {
            fill(job, index, node);
        }
    }
    Ok(())
}
