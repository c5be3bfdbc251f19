//! What the words of the program ask for: a session over the input, generated lines, or a source that is written anew.

ghost use Rattle.std.specs.Prelude.{◌≡◌, ◌≤◌, ◌++◌, IfOk, IfSome, OnOk, map, replicate, string_bytes};
ghost use Rattle.js_lex_tool.specs.Generated.{most_lines};
ghost use Rattle.js_lex_tool.specs.Words.{entry_for, source_type_words, tokens_words, command_of, count_in, number_in};
ghost use Rattle.js_lex_tool.specs.Words.{repeated_command, allowed_commands_in, is_alone, commands_meant};
ghost use Rattle.js_lex_tool.specs.Words.{command_line_in, lines_in, task_of, IsAllowed, rewrite_words, MayRewrite};
ghost use Rattle.js_lex_tool.specs.Words.{rewriting_commands, rewriting_in};

use crate::command::{COMMANDS, command_word};
use crate::generator::MOST_LINES;
use js_rewrite::first_bad;
use js_session::{Command, CommandList};
use js_text::SourceType;
use std::alloc::{AllocError, Global};

/// The most commands, and the most repetitions of one.
const MOST_COMMANDS: usize = 1_000_000;

/// What a session is to do.
#[derive(Drop)]
pub enum Commands {
    /// These commands.
    Listed(CommandList),
    /// As many steps as lead to the end of the source.
    All,
    /// Those that are chosen by the tokens, up to the end of the source.
    Auto,
}

/// What the words of a run mean.
#[derive(Drop)]
pub struct CommandLine {
    pub source_type: SourceType,
    /// Whether the tokens are collected.
    pub tokens: bool,
    pub commands: Commands,
}

/// A way to write a source anew.
#[derive(Clone, Copy, PartialEq, Eq, Debug)]
pub enum Rewrite {
    /// Without its comments.
    Strip,
    /// Without its comments, and with no more white space than its tokens need.
    Squeeze,
}

/// How a source is written anew.
#[derive(Drop)]
pub struct Rewriting {
    pub rewrite: Rewrite,
    pub source_type: SourceType,
    pub commands: Commands,
}

/// What the words of a run ask for.
#[derive(Drop)]
pub enum Task {
    /// To lex the input, and to write the report.
    Lex(CommandLine),
    /// To lex so many generated lines, and to write a summary.
    Generate(u32),
    /// To write the input anew, with the same rows.
    WriteAnew(Rewriting),
}

/// The source type that the word means.
pub fn parse_source_type(word: &str) -> Option<SourceType>
    ensures { result ≡ entry_for source_type_words word.now }
{
    match word {
        "module" => Some(SourceType::Module),
        "script" => Some(SourceType::Script),
        "unambiguous" => Some(SourceType::Unambiguous),
        _ => None,
    }
}

/// Whether tokens are collected, as the word says.
pub fn parse_tokens(word: &str) -> Option<bool>
    ensures { result ≡ entry_for tokens_words word.now }
{
    match word {
        "tokens" => Some(true),
        "no-tokens" => Some(false),
        _ => None,
    }
}

#[tactic(auto, unfolding(crate::specs::Words::command_of))]
fn parse_command(word: &str) -> Option<Command>
    ensures { result ≡ command_of word.now }
{
    COMMANDS
        .iter()
        .copied()
        .find(|command| command_word(*command) == word)
}

/// A number from 1 to `most`, in decimal, without sign or leading zero.
pub fn parse_count(digits: &str, most: usize) -> Option<usize>
    ensures { result ≡ count_in most digits.now }
{
    let first = digits.as_bytes().first()?;
    if *first <= b'0' {
        return None;
    }
    let count = digits.parse::<usize>().ok()?;
    if count <= most { Some(count) } else { None }
}

/// A number from 0 to `most`, in decimal, without sign or leading zero.
pub fn parse_number(digits: &str, most: usize) -> Option<usize>
    ensures { result ≡ number_in most digits.now }
{
    match digits {
        "0" => Some(0),
        _ => parse_count(digits, most),
    }
}

/// A command word: its command, and how often it is meant.
fn parse_repeated(word: &str) -> Option<(Command, usize)>
    ensures { result ≡ repeated_command word.now }
{
    match word.split_once('*') {
        None => Some((parse_command(word)?, 1)),
        Some((name, digits)) => Some((parse_command(name)?, parse_count(digits, MOST_COMMANDS)?)),
    }
}

/// Adds a command so many times.
pub(crate) fn push_repeated(
    commands: &mut CommandList,
    command: Command,
    count: usize,
) -> Result<(), AllocError>
    ensures { OnOk result (commands.new ≡ commands.old ++ replicate count command) }
{
    for _ in 0..count {
        commands.push(command)?;
    }
    Ok(())
}

/// The commands that command words mean. None: they are not valid.
pub fn read_listed(alloc: Global, words: &[String]) -> Result<Option<CommandList>, AllocError>
    ensures { IfOk result (λ commands. commands ≡ allowed_commands_in (map string_bytes words.now)) }
{
    let mut commands = CommandList::new_in(alloc);
    for word in words {
        let Some((command, count)) = parse_repeated(word.as_str()) else {
            return Ok(None);
        };
        if count > MOST_COMMANDS - commands.len() {
            return Ok(None);
        }
        push_repeated(&mut commands, command, count)?;
    }
    Ok(Some(commands))
}

/// Whether the words are this one alone.
fn is_alone(text: &str, words: &[String]) -> bool
    ensures { result ≡ is_alone text.now (map string_bytes words.now) }
{
    match words {
        [word] => word.as_str() == text,
        _ => false,
    }
}

/// What the words in the place of commands mean. None: they are not valid.
fn read_commands(alloc: Global, words: &[String]) -> Result<Option<Commands>, AllocError>
    ensures { IfOk result (λ commands. commands ≡ commands_meant (map string_bytes words.now)) }
{
    if is_alone("all", words) {
        return Ok(Some(Commands::All));
    }
    if is_alone("auto", words) {
        return Ok(Some(Commands::Auto));
    }
    match read_listed(alloc, words)? {
        Some(commands) => Ok(Some(Commands::Listed(commands))),
        None => Ok(None),
    }
}

/// The command line that words are. None: they are none.
fn read_command_line(alloc: Global, words: &[String]) -> Result<Option<CommandLine>, AllocError>
    ensures { IfOk result (λ line. line ≡ command_line_in (map string_bytes words.now)) }
{
    let Some((first, words)) = words.split_first() else {
        return Ok(None);
    };
    let Some((second, words)) = words.split_first() else {
        return Ok(None);
    };
    let Some(source_type) = parse_source_type(first.as_str()) else {
        return Ok(None);
    };
    let Some(tokens) = parse_tokens(second.as_str()) else {
        return Ok(None);
    };
    let Some(commands) = read_commands(alloc, words)? else {
        return Ok(None);
    };
    Ok(Some(CommandLine {
        source_type,
        tokens,
        commands,
    }))
}

/// How many lines the words ask for. None: they ask for none.
fn read_lines(words: &[String]) -> Option<u32>
    ensures lines { result ≡ lines_in (map string_bytes words.now) }
    ensures bounds { IfSome result (λ lines. (1 ≤ lines) × (lines ≤ most_lines)) }
{
    match words {
        [first, number] if first.as_str() == "gen" => {
            let lines = parse_count(number.as_str(), MOST_LINES)?;
            Some(lines as u32)
        }
        _ => None,
    }
}

/// The way to write a source anew that the word means.
fn parse_rewrite(word: &str) -> Option<Rewrite>
    ensures { result ≡ entry_for rewrite_words word.now }
{
    match word {
        "strip" => Some(Rewrite::Strip),
        "squeeze" => Some(Rewrite::Squeeze),
        _ => None,
    }
}

/// What the words in the place of commands mean where a source is written anew. None: they are not valid.
fn read_rewriting_commands(
    alloc: Global,
    source_type: SourceType,
    words: &[String],
) -> Result<Option<Commands>, AllocError>
    ensures meant { IfOk result (λ commands.
        commands ≡ rewriting_commands source_type (map string_bytes words.now)) }
    ensures allowed { IfOk result (λ commands. IfSome commands (MayRewrite source_type)) }
{
    if is_alone("all", words) {
        return Ok(Some(Commands::All));
    }
    let Some(commands) = read_listed(alloc, words)? else {
        return Ok(None);
    };
    match first_bad(source_type, commands.as_slice()) {
        Some(_) => Ok(None),
        None => Ok(Some(Commands::Listed(commands))),
    }
}

/// How the words say that a source is written anew. None: they do not.
fn read_rewriting(alloc: Global, words: &[String]) -> Result<Option<Rewriting>, AllocError>
    ensures rewriting { IfOk result (λ r. r ≡ rewriting_in (map string_bytes words.now)) }
    ensures allowed { IfOk result (λ r. IfSome r (λ r. MayRewrite r.source_type r.commands)) }
{
    let Some((first, words)) = words.split_first() else {
        return Ok(None);
    };
    let Some((second, words)) = words.split_first() else {
        return Ok(None);
    };
    let Some(rewrite) = parse_rewrite(first.as_str()) else {
        return Ok(None);
    };
    let Some(source_type) = parse_source_type(second.as_str()) else {
        return Ok(None);
    };
    let Some(commands) = read_rewriting_commands(alloc, source_type, words)? else {
        return Ok(None);
    };
    Ok(Some(Rewriting {
        rewrite,
        source_type,
        commands,
    }))
}

/// What the words after the program's name ask for. None: they are not valid.
pub fn read_words(alloc: Global, words: &Vec<String>) -> Result<Option<Task>, AllocError>
    ensures task { IfOk result (λ task. task ≡ task_of words.now.items) }
    ensures allowed { IfOk result (λ task. IfSome task IsAllowed) }
{
    if let Some(lines) = read_lines(words.as_slice()) {
        return Ok(Some(Task::Generate(lines)));
    }
    if let Some(line) = read_command_line(alloc, words.as_slice())? {
        return Ok(Some(Task::Lex(line)));
    }
    match read_rewriting(alloc, words.as_slice())? {
        Some(rewriting) => Ok(Some(Task::WriteAnew(rewriting))),
        None => Ok(None),
    }
}
