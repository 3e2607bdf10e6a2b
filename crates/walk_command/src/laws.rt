//! Laws of walks. Each is the contract of a function that does nothing.

ghost use Rattle.std.specs.Prelude.{◌≡◌, ℕ, List, Option};
ghost use Rattle.net_check.specs.Network.{Entry, Network};
ghost use Rattle.command_edge.specs.Puts.{Outcome};
ghost use Rattle.walk_command.specs.Lines.{LinesOf};
ghost use Rattle.walk_command.specs.Walks.{WalksOf};

/// What `walk` comes to of a packet's numbers is one thing: a text, or one refusal.
#[tactic(auto, using(crate::proofs::OnceLemmas::walks_once))]
pub fn walks_have_one_outcome()
    ensures { (hops limit : ℕ) (net : Network) (i : Entry) (numbers : Option (List ℕ)) (a b : Outcome)
        → WalksOf hops limit net i numbers a → WalksOf hops limit net i numbers b → a ≡ b }
{}

/// What `walk` comes to of a file of packets is one thing, too.
#[tactic(auto, using(crate::proofs::LineLemmas::lines_once))]
pub fn walks_of_lines_have_one_outcome()
    ensures { (hops limit : ℕ) (net : Network) (i : Entry) (bytes : List ℕ) (a b : Outcome)
        → LinesOf hops limit net i bytes a → LinesOf hops limit net i bytes b → a ≡ b }
{}
