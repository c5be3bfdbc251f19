//! Laws of the definitions alone: each function carries one for all arguments, and does nothing.

ghost use Rattle.std.specs.Prelude.{◌≡◌, ℕ, Bool, List};
ghost use Rattle.js_text.specs.declared.source_type.SourceType.{SourceType};
ghost use Rattle.js_totsenak.specs.Syntaxes.{rule_of};
ghost use Rattle.js_totsenak.specs.Told.{IsTold};
ghost use Rattle.js_totsenak.specs.declared.command.Command.{Command};
ghost use Rattle.js_totsenak.specs.declared.syntax.Syntax.{Syntax};

/// What a command tells of a source is one text, and whether the source is at fault one answer.
pub fn one_text_is_told()
    ensures { (syntax : Syntax) (command : Command) (name source : List ℕ) (t : SourceType) (first second : List ℕ)
        (a b : Bool) → IsTold (rule_of syntax) command name source t first a
        → IsTold (rule_of syntax) command name source t second b → (first ≡ second) × (a ≡ b) }
{}
