//! What the numbers that C passes stand for.

ghost use Rattle.std.specs.Prelude.{◌≡◌, ◌≤◌, ◌⊎◌, map, MatchOption, MatchResult};
ghost use Rattle.js_lex_c.specs.Numbers.{source_type_number, command_number, command_count};
ghost use Rattle.js_lex_c.specs.Faults.{CommandsFault, IsUnknownType, out_of_memory};

use crate::fault::Fault;
use js_session::{Command, CommandList};
use js_text::SourceType;
use std::alloc::Global;

/// The source type of a number.
pub(crate) fn source_type_of(number: u32) -> Result<SourceType, Fault>
    ensures { MatchResult result (λ t. number ≡ source_type_number t) (IsUnknownType number) }
{
    match number {
        0 => Ok(SourceType::Module),
        1 => Ok(SourceType::Script),
        2 => Ok(SourceType::Unambiguous),
        _ => Err(Fault::UnknownSourceType),
    }
}

/// The command of a number.
fn command_of(number: u8) -> Option<Command>
    ensures { MatchOption result (command_count ≤ number) (λ command. number ≡ command_number command) }
{
    match number {
        0 => Some(Command::Next),
        1 => Some(Command::JsxChild),
        2 => Some(Command::JsxAttr),
        3 => Some(Command::Regex),
        4 => Some(Command::TemplateTail),
        5 => Some(Command::JsxName),
        6 => Some(Command::RAngle),
        7 => Some(Command::TsLAngle),
        8 => Some(Command::TsRAngle),
        9 => Some(Command::Peek),
        10 => Some(Command::Mark),
        11 => Some(Command::Rewind),
        12 => Some(Command::Commit),
        _ => None,
    }
}

/// The commands of the numbers.
pub(crate) fn commands_of(alloc: Global, numbers: &[u8]) -> Result<CommandList, Fault>
    ensures { MatchResult result (λ commands. map command_number commands ≡ numbers.now)
        (λ fault. (fault ≡ out_of_memory) ⊎ CommandsFault numbers.now fault) }
{
    let mut commands = CommandList::new_in(alloc);
    for index in 0..numbers.len() {
        match command_of(numbers[index]) {
            Some(command) => commands.push(command)?,
            None => return Err(Fault::UnknownCommand(index)),
        }
    }
    Ok(commands)
}
