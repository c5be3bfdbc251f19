//! The words for the commands.

ghost use Rattle.std.specs.Prelude.{◌≡◌};
ghost use Rattle.js_lex_tool.specs.Command.{command_word};

use js_session::Command;

/// Each command once.
pub const COMMANDS: [Command; 13] = [
    Command::Next,
    Command::JsxChild,
    Command::JsxAttr,
    Command::Regex,
    Command::TemplateTail,
    Command::JsxName,
    Command::RAngle,
    Command::TsLAngle,
    Command::TsRAngle,
    Command::Peek,
    Command::Mark,
    Command::Rewind,
    Command::Commit,
];

/// The word for a command, in the program's words and in its reports.
pub fn command_word(command: Command) -> &'static str
    ensures { result.now ≡ command_word command }
{
    match command {
        Command::Next => "next",
        Command::JsxChild => "jsx-child",
        Command::JsxAttr => "jsx-attr",
        Command::Regex => "regex",
        Command::TemplateTail => "template",
        Command::JsxName => "jsx-name",
        Command::RAngle => "rangle",
        Command::TsLAngle => "ts-langle",
        Command::TsRAngle => "ts-rangle",
        Command::Peek => "peek",
        Command::Mark => "mark",
        Command::Rewind => "rewind",
        Command::Commit => "commit",
    }
}
