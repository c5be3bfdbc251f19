//! Laws of the definitions alone: each function carries one for all arguments, and does nothing.

ghost use Rattle.std.specs.Prelude.{◌≡◌, ℕ, Bool, List};
ghost use Rattle.js_text.specs.declared.source_type.SourceType.{SourceType};
ghost use Rattle.js_session.specs.declared.command.Command.{Command};
ghost use Rattle.js_session.specs.declared.report.Report.{Report};
ghost use Rattle.js_jsx.specs.Jsx.{ReportOfChosen};

/// For a source, its type, and whether tokens are collected, there is at most one list of commands that are chosen, and
/// at most one report of them.
pub fn one_list_is_chosen()
    ensures { (source : List ℕ) (t : SourceType) (collects : Bool) (commands others : List Command) (a b : Report)
        → ReportOfChosen source t collects commands a → ReportOfChosen source t collects others b
        → (commands ≡ others) × (a ≡ b) }
{}
