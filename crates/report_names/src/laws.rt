//! What follows from the definitions of names and places. This function does nothing: its contract is the law.

ghost use Rattle.std.specs.Prelude.{◌≡◌, ◌++◌, Some, codes, decimal};
ghost use Rattle.sefl_meaning.specs.declared.walk.Place.{Place};
ghost use Rattle.net_check.specs.Network.{Network};
ghost use Rattle.run_text.specs.Names.{node_name};
ghost use Rattle.run_text.specs.Forms.{side_text};
ghost use Rattle.report_names.specs.Names.{place_named};
ghost use Rattle.report_names.specs.Own.{IsOwnPlace};

/// A place of the net is found by its text.
pub fn places_are_found()
    ensures { (net : Network) (place : Place) → IsOwnPlace net place
        → place_named net (side_text place.side ++ (node_name net place.node ++ (codes "." ++ decimal place.port)))
        ≡ Some place }
{}
