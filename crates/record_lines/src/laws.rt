//! Laws of the pieces of records. Each is the contract of a function that does nothing.

ghost use Rattle.std.specs.Prelude.{◌≡◌, ◌++◌, [], ◌∷◌, List, true};
ghost use Rattle.net_check.specs.Network.{Network};
ghost use Rattle.path_records.specs.declared.records.Record.{Record};
ghost use Rattle.record_lines.specs.Lines.{has_some, is_written, piece_text, records_text, written_of};
ghost use Rattle.path_records.specs.declared.sides.RefutedSides.{RefutedSides};

/// With one more record that is written, its piece comes behind those of the others.
#[tactic(auto, using(crate::proofs::LineLemmas::written_behind))]
pub fn a_record_comes_behind_the_others()
    ensures { (net : Network) (sides : RefutedSides) (items : List Record) (item : Record)
        → is_written sides item ≡ true
        → records_text net (written_of sides (items ++ item ∷ []))
        ≡ records_text net (written_of sides items) ++ piece_text net (has_some (written_of sides items)) item }
{}
