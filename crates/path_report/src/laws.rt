//! What follows from the definition of what is read of bytes. Each function does nothing: its contract is the law.

ghost use Rattle.std.specs.Prelude.{ℕ, ◌<◌, ◌^◌, Bool, List, [], Option, Result, IsUtf8, length};
ghost use Rattle.net_check.specs.Network.{Network};
ghost use Rattle.path_records.specs.declared.records.Record.{Record};
ghost use Rattle.record_text.specs.Reports.{report_line};
ghost use Rattle.record_text.specs.declared.report.Report.{Report as ReportOf};
ghost use Rattle.report_forms.specs.Fits.{LineFits};
ghost use Rattle.report_forms.specs.Seen.{line_seen};
ghost use Rattle.path_report.specs.Printed.{BeginsWithAll, IsOpened, Reading, ShowsRecords};
ghost use Rattle.path_report.specs.Reading.{ReadsReport, Shows};
ghost use Rattle.path_report.specs.declared.report.ReportFault.{ReportFault as FaultOf};

use crate::lines::shaped_lines_are_read;
use record_text::laws::pieces_join;
use report_forms::laws::{lines_have_their_form, reports_have_their_form};

/// What is read of the line of a report is that report, where its ids are found by their names and its numbers are in
/// range: so the line is that of no other report, and is refused for want of memory alone.
pub fn lines_are_read_back()
    ensures { (net : Network) (cases : Option ℕ) (hops limit : ℕ) (records : List Record) (refuted : ℕ)
        (complete : Bool) (answer : Result ReportOf FaultOf)
        → LineFits net cases hops limit records refuted
        → IsUtf8 (report_line net cases hops limit records refuted complete)
        → ReadsReport net (report_line net cases hops limit records refuted complete) answer
        → Shows (line_seen cases hops limit records refuted complete) answer }
{
    lines_have_their_form();
    shaped_lines_are_read();
}

/// Where records are the whole text between what stands around them, the bytes show a report that has them.
pub fn printed_records_are_read()
    ensures { (net : Network) (bytes : List ℕ) (frame : ReportOf) (start : Reading) (items : List Record)
        → IsOpened net bytes frame start → BeginsWithAll net items start.left [] → length items < 2 ^ 63
        → ShowsRecords net bytes frame.cases frame.hops items }
{
    pieces_join();
    reports_have_their_form();
    shaped_lines_are_read();
}
