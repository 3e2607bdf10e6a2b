//! What follows from the definitions of the texts. These functions do nothing: their contracts are the laws.

ghost use Rattle.std.specs.Prelude.{◌≡◌, ◌++◌, ◌∷◌, [], ℕ, Bool, List, map, false, Option};
ghost use Rattle.serde_json.specs.Data.{Data};
ghost use Rattle.serde_json.specs.View.{items_of};
ghost use Rattle.serde_json.specs.Written.{items_text};
ghost use Rattle.net_check.specs.Network.{Network};
ghost use Rattle.path_records.specs.declared.records.Record.{Record};
ghost use Rattle.record_text.specs.declared.report.Report.{Report};
ghost use Rattle.record_text.specs.Records.{record_data};
ghost use Rattle.record_text.specs.Reports.{head_text, record_pieces, tail_text, report_line, report_text};

/// The head, the records, each but the first behind a comma, and the tail are the text of the report.
pub fn pieces_join()
    ensures { (net : Network) (report : Report) → report_text net report
        ≡ head_text report.cases report.hops report.limit ++ (record_pieces false (map (record_data net) report.records.items)
        ++ tail_text report.refuted report.complete) }
{}

/// The items of a list, with its end, are their texts, each but the first behind a comma, and the closing bracket.
#[tactic(auto, using(crate::proofs::Pieces::records_close))]
pub fn lists_are_joined()
    ensures { (later : Bool) (ds : List Data) → items_text later (items_of ds) ≡ record_pieces later ds ++ 93 ∷ [] }
{}

/// The same of the line of a report of any records.
#[tactic(auto, using(crate::proofs::Pieces::lines_join))]
pub fn lines_join()
    ensures { (net : Network) (cases : Option ℕ) (hops limit : ℕ) (records : List Record) (refuted : ℕ)
        (complete : Bool) → report_line net cases hops limit records refuted complete
        ≡ head_text cases hops limit ++ (record_pieces false (map (record_data net) records)
        ++ tail_text refuted complete) }
{}
