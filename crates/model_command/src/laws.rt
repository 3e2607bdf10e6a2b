//! Laws of models. Each is the contract of a function that does nothing.

ghost use Rattle.std.specs.Prelude.{◌≡◌, ℕ, List};
ghost use Rattle.sefl_syntax.specs.declared.net.Style.{Style};
ghost use Rattle.sefl_syntax.specs.declared.net.TableKind.{TableKind};
ghost use Rattle.command_edge.specs.Puts.{Outcome};
ghost use Rattle.model_command.specs.Models.{ModelOf};

use table_files::laws::files_have_one_node;

/// What `model` comes to of a file's bytes is one thing: a text, or one refusal.
pub fn models_have_one_outcome()
    ensures { (kind : TableKind) (style : Style) (name bytes : List ℕ) (a b : Outcome)
        → ModelOf kind style name bytes a → ModelOf kind style name bytes b → a ≡ b }
{
    files_have_one_node();
}
