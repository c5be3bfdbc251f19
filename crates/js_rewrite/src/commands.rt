//! Which commands a source is written anew with.

ghost use Rattle.std.specs.Prelude.{◌≡◌};
ghost use Rattle.js_rewrite.specs.Faults.{ends_before_html, first_bad, may_rewrite};

use js_session::Command;
use js_text::SourceType;

/// Whether the token of the command may end right before a `<!--`.
fn ends_before_html(command: Command) -> bool
    ensures { result ≡ ends_before_html command }
{
    match command {
        Command::JsxChild | Command::TsLAngle => true,
        _ => false,
    }
}

/// Whether a source of the type is written anew with the command.
fn may_rewrite(source_type: SourceType, command: Command) -> bool
    ensures { result ≡ may_rewrite source_type command }
{
    command.is_lasting() && (source_type.is_module() || !ends_before_html(command))
}

/// The index of the first command with which no source of the type is written anew, if there is one.
pub fn first_bad(source_type: SourceType, commands: &[Command]) -> Option<usize>
    ensures { result ≡ first_bad source_type commands.now }
{
    commands
        .iter()
        .position(|command| !may_rewrite(source_type, *command))
}
