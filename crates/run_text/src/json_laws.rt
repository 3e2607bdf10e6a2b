//! How values are written token by token, and that a line is read back. These functions do nothing: their contracts
//! are the laws.

ghost use Rattle.std.specs.Prelude.{◌≡◌, ◌≤◌, ◌∷◌, ◌++◌, [], ℕ, List, Some};
ghost use Rattle.json.specs.Token as json_token;
ghost use Rattle.json.specs.Token.{Token};
ghost use Rattle.serde_json.specs.Data.{Data, Items, Members, array, object, item, no_items, member, no_members, depth};
ghost use Rattle.serde_json.specs.View.{items_of};
ghost use Rattle.serde_json.specs.Read.{read, max_depth};
ghost use Rattle.serde_json.specs.Written.{compact_text};
ghost use Rattle.run_text.specs.Tokens.{Puts, Adds, AddsAll, EndsList, EndsObject};
ghost use Rattle.run_text.specs.Plain.{IsPlain};

/// A list is its beginning, its items and its end.
pub fn lists_are_written()
    ensures closed { (a b : List Token) → Puts json_token.end_array a b → EndsList no_items a b }
    ensures item { (a b c : List Token) (d : Data) (ds : Items) → Adds d a b → EndsList ds b c
        → EndsList (item d ds) a c }
    ensures opened { (a b c : List Token) (ds : Items) → Puts json_token.begin_array a b → EndsList ds b c
        → Adds (array ds) a c }
    ensures none { (a : List Token) → AddsAll [] a a }
    ensures more { (a b c : List Token) (d : Data) (ds : List Data) → Adds d a b → AddsAll ds b c
        → AddsAll (d ∷ ds) a c }
    ensures last { (a b c : List Token) (ds : List Data) → AddsAll ds a b → Puts json_token.end_array b c
        → EndsList (items_of ds) a c }
{}

/// An object is its beginning, its members and its end.
pub fn objects_are_written()
    ensures closed { (a b : List Token) → Puts json_token.end_object a b → EndsObject no_members a b }
    ensures member { (a b c e : List Token) (k : List ℕ) (d : Data) (ms : Members)
        → Puts (json_token.key k) a b → Adds d b c → EndsObject ms c e → EndsObject (member k d ms) a e }
    ensures opened { (a b c : List Token) (ms : Members) → Puts json_token.begin_object a b → EndsObject ms b c
        → Adds (object ms) a c }
{}

/// The compact text of a value of whole numbers of 64 bits whose keys ascend, with a line feed behind it, is read as
/// that value.
pub fn lines_are_read()
    ensures { (d : Data) → IsPlain d → depth d ≤ max_depth → read (compact_text d ++ 10 ∷ []) ≡ Some d }
{}
