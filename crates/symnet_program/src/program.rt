//! The program's top call.

ghost use Rattle.std.specs.Prelude.{◌≡◌, ◌⊎◌, List, ℕ, Some, None};
ghost use Rattle.std.specs.Io.KnownBytes.{append_known};
ghost use Rattle.sn_edge.specs.Told.{FolderKept, PatternsKept, SinkKept};
ghost use Rattle.command_runs.specs.Inputs.{FirstFails, IsSettled};
ghost use Rattle.command_runs.specs.Outside.{Tells, World, outside, world};
ghost use Rattle.command_runs.specs.Runs.{Runs, Shows};
ghost use Rattle.command_runs.specs.Status.{input_status};
ghost use Rattle.command_runs.specs.declared.status.Status.{Status as StatusOf};
ghost use Rattle.command_runs.specs.declared.status.Status.TheVariants.{Usage};
ghost use Rattle.command_edge.specs.declared.fault.InputFault.{InputFault as InputFaultOf};
ghost use Rattle.symnet_program.specs.Commands.{detail_of, inputs, list_style_of, work};
ghost use Rattle.symnet_program.specs.Program.{Cause, IsAnswered, IsCaused, RefusesInput, Shown};
ghost use Rattle.symnet_program.specs.Run.{IsPutWith, IsRun};
ghost use Rattle.symnet_program.specs.Told.{MayBeUnread};
ghost use Rattle.command_words.specs.Commands.{Command as CommandOf, HasRanges, command_of, reading};

use acl_command::{AclModel, BothFiles, BothRules, ListStyle, Rules};
use ask_command::Ask;
use command_edge::{Ending, FILE_LIMIT, Stop};
use command_runs::laws::worlds_decide;
use command_runs::{Both, ByteFile, JobFile, Piece, Status, run, status_of};
use command_words::{Command, FilterStyle, Open, reading};
use compare_command::{BothJobs, Compare};
use explore_command::laws::reports_tell_walks;
use explore_command::{Explore, RecordLimit};
use grow_command::{Grow, GrownJob};
use loops_command::{Loops, OpenPaths};
use model_command::{ClickModel, TableModel};
use replay_command::{REPORT_LIMIT, Replay, ReplayWhole};
use sn_edge::{Folder, Patterns, Sink};
use std::alloc::Global;
use walk_command::{Walk, WalkLines};

fn detail_of(detail: Open) -> OpenPaths
    ensures { result ≡ detail_of detail }
{
    match detail {
        Open::Numbers => OpenPaths::Numbers,
        Open::Visits => OpenPaths::Visits,
    }
}

fn list_style_of(style: FilterStyle) -> ListStyle
    ensures { result ≡ list_style_of style }
{
    match style {
        FilterStyle::Chain => ListStyle::Chain,
        FilterStyle::Grouped => ListStyle::Grouped,
    }
}

/// Runs a command.
fn run_command<F: Folder, P: Patterns, K: Sink>(
    alloc: Global,
    command: Command<'_>,
    folder: &mut F,
    patterns: &mut P,
    out: &mut K,
) -> Result<Ending, Stop>
    requires { HasRanges (command_of command) }
    ensures folder_kept { FolderKept (F.told folder.old) (F.told folder.new) }
    ensures patterns_kept { PatternsKept (P.told patterns.old) (P.told patterns.new) }
    ensures out_kept { SinkKept (K.told out.old) (K.told out.new) }
    ensures ran { Runs K.told K.put_gives out.old out.new (outside F.told F.load_gives P.told P.find_gives)
        (folder.old, patterns.old) (folder.new, patterns.new) (inputs (command_of command.entry))
        (work (command_of command.entry)) result }
    ensures shows { Shows (F.told folder.old) (F.told folder.new) (P.told patterns.old) (P.told patterns.new)
        (K.told out.old) (K.told out.new) result }
{
    match command {
        Command::Explore {
            job,
            hops,
            limit,
            cases,
            pruned,
        } => {
            let command = Explore {
                source: JobFile { name: job },
                cases,
                hops,
                limit: RecordLimit::new(limit),
                sides: pruned,
            };
            run(alloc, &command, folder, patterns, out)
        }
        Command::Walk {
            job,
            packet,
            hops,
            limit,
        } => {
            let source = Both {
                first: JobFile { name: job },
                second: ByteFile {
                    name: packet,
                    limit: FILE_LIMIT,
                },
            };
            let command = Piece(Walk {
                source,
                hops,
                limit,
            });
            run(alloc, &command, folder, patterns, out)
        }
        Command::WalkLines {
            job,
            packets,
            hops,
            limit,
        } => {
            let source = Both {
                first: JobFile { name: job },
                second: ByteFile {
                    name: packets,
                    limit: FILE_LIMIT,
                },
            };
            let command = Piece(WalkLines {
                source,
                hops,
                limit,
            });
            run(alloc, &command, folder, patterns, out)
        }
        Command::Replay { job, report } => {
            let source = Both {
                first: JobFile { name: job },
                second: ByteFile {
                    name: report,
                    limit: REPORT_LIMIT,
                },
            };
            run(alloc, &Piece(Replay { source }), folder, patterns, out)
        }
        Command::ReplayWhole { job, report } => {
            let source = Both {
                first: JobFile { name: job },
                second: ByteFile {
                    name: report,
                    limit: REPORT_LIMIT,
                },
            };
            run(alloc, &Piece(ReplayWhole { source }), folder, patterns, out)
        }
        Command::Ask {
            job,
            hops,
            limit,
            cases,
        } => {
            let command = Piece(Ask {
                source: JobFile { name: job },
                cases,
                hops,
                limit: RecordLimit::new(limit),
            });
            run(alloc, &command, folder, patterns, out)
        }
        Command::Loops {
            job,
            hops,
            limit,
            cases,
            open,
        } => {
            let command = Piece(Loops {
                source: JobFile { name: job },
                cases,
                hops,
                limit: RecordLimit::new(limit),
                detail: detail_of(open),
            });
            run(alloc, &command, folder, patterns, out)
        }
        Command::Compare {
            job,
            other,
            hops,
            limit,
            cases,
            counts_cut,
        } => {
            let source = BothJobs {
                left: JobFile { name: job },
                right: JobFile { name: other },
            };
            let command = Piece(Compare {
                source,
                cases,
                hops,
                limit: RecordLimit::new(limit),
                counts_cut,
            });
            run(alloc, &command, folder, patterns, out)
        }
        Command::Model { table, file, style } => {
            let command = Piece(TableModel {
                source: ByteFile {
                    name: file,
                    limit: FILE_LIMIT,
                },
                kind: table,
                style,
            });
            run(alloc, &command, folder, patterns, out)
        }
        Command::Click { file } => {
            let source = ByteFile {
                name: file,
                limit: FILE_LIMIT,
            };
            run(alloc, &Piece(ClickModel { source }), folder, patterns, out)
        }
        Command::Acl { file, style } => {
            let source = ByteFile {
                name: file,
                limit: FILE_LIMIT,
            };
            let style = list_style_of(style);
            run(
                alloc,
                &Piece(AclModel { source, style }),
                folder,
                patterns,
                out,
            )
        }
        Command::Rules { file } => {
            let source = ByteFile {
                name: file,
                limit: FILE_LIMIT,
            };
            run(alloc, &Piece(Rules { source }), folder, patterns, out)
        }
        Command::BothRules { file, other } => {
            let source = BothFiles {
                left: ByteFile {
                    name: file,
                    limit: FILE_LIMIT,
                },
                right: ByteFile {
                    name: other,
                    limit: FILE_LIMIT,
                },
            };
            run(alloc, &Piece(BothRules { source }), folder, patterns, out)
        }
        Command::Grow { seed, boxes } => {
            let source = GrownJob { seed, boxes };
            run(alloc, &Piece(Grow { source }), folder, patterns, out)
        }
    }
}

/// Runs the program on the words after its name: opens what the command names, does its work, and puts what that gives into
/// the sink.
pub fn symnet<F: Folder, P: Patterns, K: Sink>(
    alloc: Global,
    words: &[String],
    folder: &mut F,
    patterns: &mut P,
    out: &mut K,
) -> Status
    // What is told of the outside stays, and no count falls.
    ensures folder_kept { FolderKept (F.told folder.old) (F.told folder.new) }
    ensures patterns_kept { PatternsKept (P.told patterns.old) (P.told patterns.new) }
    ensures out_kept { SinkKept (K.told out.old) (K.told out.new) }

    // The count of the outside that a status blames rose.
    ensures usage { result ≡ Usage → reading words.now ≡ None }
    ensures shown { Shown (F.told folder.old) (F.told folder.new) (P.told patterns.old) (P.told patterns.new)
        (K.told out.old) (K.told out.new) result }

    // One run: each file that the command names was loaded once, in order, up to the first that was refused; what the inputs gave; why
    // the command ended so on that; and what was put by it: the text that the command defines, a beginning of it, or nothing, and
    // nothing behind a piece that was not taken whole. With Done `explore` wrote the report of the job that its input gave, and this
    // tells all walks of all packets that meet the injection; and what is read of it is a report of just its records that are written.
    // With Partial all this is so, but that walks may go on by decisions that were not tried, which the report names. `runs_tell`
    // says what follows, each by itself.
    ensures ran { (part : List ℕ)
        × IsRun (outside F.told F.load_gives P.told P.find_gives) (folder.old, patterns.old) (folder.new, patterns.new)
        (reading words.now) result part
        × IsPutWith K.told K.put_gives out.old out.new result part
        × ((K.told out.new).taken ≡ append_known (K.told out.old).taken part) }

    // Where the outside tells a world, the cause is one in that world; and an input that is refused there is refused, unless a file was
    // not read or there was no memory.
    ensures told { (w : World) → Tells (F.told folder.old).files (P.told patterns.old) w
        → IsCaused (world w) tt tt (reading words.now) result }
    ensures exact { (command : CommandOf) (w : World) (fault : InputFaultOf) → reading words.now ≡ Some command
        → Tells (F.told folder.old).files (P.told patterns.old) w
        → FirstFails (world w) tt (inputs command) fault tt → IsSettled w fault
        → (result ≡ input_status fault) ⊎ MayBeUnread w result }

    // Where the words have a reading, no count rose and nothing that was read is refused, the command ran to its end.
    ensures complete { (command : CommandOf) → reading words.now ≡ Some command
        → F.told folder.new ≡ F.told folder.old → (K.told out.new).faults ≡ (K.told out.old).faults
        → ((status : StatusOf) → RefusesInput status
        → Cause (outside F.told F.load_gives P.told P.find_gives) (folder.old, patterns.old) (folder.new, patterns.new)
        (inputs command)
        (work command) status → ⊥)
        → IsAnswered result }
{
    worlds_decide();
    reports_tell_walks();
    match reading(alloc, words) {
        Ok(Some(command)) => status_of(run_command(alloc, command, folder, patterns, out)),
        Ok(None) => Status::Usage,
        Err(_) => Status::NoMemory,
    }
}
