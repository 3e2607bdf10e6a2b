//! What follows from the definitions of a report's JSON and of its shape. These functions do nothing: their contracts are
//! the laws.

ghost use Rattle.std.specs.Prelude.{◌≡◌, ℕ, Bool, List, None, Option};
ghost use Rattle.net_check.specs.Network.{Network};
ghost use Rattle.path_records.specs.declared.records.Record.{Record};
ghost use Rattle.report_shape.specs.declared.part.Part.TheVariants as part;
ghost use Rattle.report_shape.specs.Faults.{fault};
ghost use Rattle.report_names.specs.Names.{knows};
ghost use Rattle.record_text.specs.declared.report.Report.{Report};
ghost use Rattle.record_text.specs.Records.{records_data};
ghost use Rattle.record_text.specs.Reports.{data_of, report_data};
ghost use Rattle.report_forms.specs.Fits.{LineFits, ReportFits};
ghost use Rattle.report_forms.specs.Seen.{line_seen, report_seen};

use report_names::laws::places_are_found;
use report_shape::laws::large_numbers_have_digits;

/// The JSON of a report whose names are the net's and whose numbers are in range has the shape of a report, and it is
/// that of no other such report.
pub fn reports_have_their_form()
    ensures form { (net : Network) (report : Report) → ReportFits net report
        → fault (knows net) part.Report (data_of net report) ≡ None }
    ensures one { (net : Network) (report found : Report) → ReportFits net report → ReportFits net found
        → data_of net report ≡ data_of net found
        → report_seen report ≡ report_seen found }
{
    large_numbers_have_digits();
    places_are_found();
}

/// The same of the JSON of any records.
pub fn lines_have_their_form()
    ensures form { (net : Network) (cases : Option ℕ) (hops limit : ℕ) (records : List Record) (refuted : ℕ)
        (complete : Bool)
        → LineFits net cases hops limit records refuted
        → fault (knows net) part.Report (report_data cases hops limit (records_data net records) refuted complete)
        ≡ None }
    ensures one { (net : Network) (cases : Option ℕ) (hops limit : ℕ) (records : List Record) (refuted : ℕ)
        (complete : Bool) (found : Report)
        → LineFits net cases hops limit records refuted → ReportFits net found
        → report_data cases hops limit (records_data net records) refuted complete ≡ data_of net found
        → report_seen found ≡ line_seen cases hops limit records refuted complete }
{
    large_numbers_have_digits();
    places_are_found();
}
