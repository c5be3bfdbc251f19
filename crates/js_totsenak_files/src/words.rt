//! The words of the program.

use crate::importing::ImportsAsked;
use crate::reading::STANDARD_INPUT;
use crate::rewriting::{Anew, Target};
use crate::showing::Showing;
use clap::error::ErrorKind;
use clap::{Arg, ArgAction, ArgMatches, Command, Error};
use js_text::SourceType;
use js_totsenak::{
    CLEAN, Command as Telling, Format, NO_MEMORY, Rewriting, Syntax, UNTOLD, UNWRITABLE,
    source_type_of, syntax_of,
};
use std::alloc::{AllocError, Global};

/// What a word of a command takes.
#[derive(Clone, Copy)]
enum Takes {
    /// Nothing: it is there or not.
    Nothing,
    /// A value, which help calls so.
    Value(&'static str),
    /// It stands for files itself.
    File,
}

/// A word of a command: its name, its letter, what it takes, the word that it does not go with, and its help.
#[derive(Clone, Copy)]
struct Word {
    name: &'static str,
    letter: Option<char>,
    takes: Takes,
    excludes: Option<&'static str>,
    help: &'static str,
}

/// The words of all commands: which type their sources are of, and the files.
static OVER_SOURCES: [Word; 4] = [
    Word {
        name: "module",
        letter: None,
        takes: Takes::Nothing,
        excludes: Some("script"),
        help: "Reads the sources as modules",
    },
    Word {
        name: "script",
        letter: None,
        takes: Takes::Nothing,
        excludes: None,
        help: "Reads the sources as scripts",
    },
    Word {
        name: "jsx",
        letter: None,
        takes: Takes::Nothing,
        excludes: None,
        help: "Reads the sources with JSX, as modules unless --script is given",
    },
    Word {
        name: "FILE",
        letter: None,
        takes: Takes::File,
        excludes: None,
        help: "A source; - is standard input",
    },
];

/// The word of commands that tell of sources as lines or as JSON.
const JSON: Word = Word {
    name: "json",
    letter: None,
    takes: Takes::Nothing,
    excludes: None,
    help: "Writes JSON, an object on each line",
};

const REQUIRE: Word = Word {
    name: "require",
    letter: None,
    takes: Takes::Nothing,
    excludes: None,
    help: "Lists calls of require too",
};

/// The words of a command that writes sources anew.
const ANEW: [Word; 3] = [
    Word {
        name: "output",
        letter: Some('o'),
        takes: Takes::Value("OUTPUT"),
        excludes: Some("write"),
        help: "Writes to this file",
    },
    Word {
        name: "write",
        letter: None,
        takes: Takes::Nothing,
        excludes: None,
        help: "Writes each file in place",
    },
    Word {
        name: "licences",
        letter: None,
        takes: Takes::Value("LICENCES"),
        excludes: None,
        help: "Writes the licences of the sources to this file",
    },
];

/// The words of the command that shows a source as a page.
const HTML: [Word; 3] = [
    Word {
        name: "fragment",
        letter: None,
        takes: Takes::Nothing,
        excludes: Some("title"),
        help: "Writes the pre element alone",
    },
    Word {
        name: "css",
        letter: None,
        takes: Takes::Nothing,
        excludes: None,
        help: "Writes the style alone",
    },
    Word {
        name: "title",
        letter: None,
        takes: Takes::Value("TITLE"),
        excludes: None,
        help: "The title of the page; else it is the name of the file",
    },
];

/// The commands: the name of each, what it does, and its words besides those of all.
static COMMANDS: [(&str, &str, &[Word]); 8] = [
    ("check", "Tells what is at fault in sources", &[]),
    ("tokens", "Lists the tokens of sources", &[JSON]),
    (
        "values",
        "Lists the strings and templates of sources, decoded, as JSON",
        &[],
    ),
    (
        "licences",
        "Lists the comments that hold licences, each once, and where they stand",
        &[JSON],
    ),
    (
        "imports",
        "Lists what sources import and export",
        &[JSON, REQUIRE],
    ),
    ("html", "Writes a source as a page of HTML", &HTML),
    ("strip", "Writes sources without their comments", &ANEW),
    (
        "squeeze",
        "Writes sources without their comments, and with no more white space than they need",
        &ANEW,
    ),
];

/// The argument that takes what a word takes.
fn taking<'a>(arg: Arg<'a>, word: &Word) -> Arg<'a> {
    match word.takes {
        Takes::Nothing => arg.long(word.name).action(ArgAction::SetTrue),
        Takes::Value(name) => arg.long(word.name).value_name(name).action(ArgAction::Set),
        Takes::File => arg.action(ArgAction::Append).default_value(STANDARD_INPUT),
    }
}

/// The argument of a word.
fn arg_of<'a>(alloc: Global, word: &Word) -> Result<Arg<'a>, AllocError> {
    let mut arg = taking(Arg::new(alloc, word.name).help(word.help), word);
    if let Some(letter) = word.letter {
        arg = arg.short(letter);
    }
    match word.excludes {
        Some(other) => arg.conflicts_with(other),
        None => Ok(arg),
    }
}

/// A command with words more.
fn with_words<'a>(
    alloc: Global,
    command: Command<'a>,
    words: &[Word],
) -> Result<Command<'a>, AllocError> {
    let mut command = command;
    for word in words {
        command = command.arg(arg_of(alloc, word)?)?;
    }
    Ok(command)
}

/// A command over sources.
fn command_of<'a>(
    alloc: Global,
    name: &'static str,
    about: &'static str,
    words: &[Word],
) -> Result<Command<'a>, AllocError> {
    let command = Command::new(alloc, name).about(about);
    with_words(alloc, with_words(alloc, command, &OVER_SOURCES)?, words)
}

/// A program with all commands.
fn with_commands<'a>(alloc: Global, program: Command<'a>) -> Result<Command<'a>, AllocError> {
    let mut program = program;
    for &(name, about, words) in &COMMANDS {
        program = program.subcommand(command_of(alloc, name, about, words)?)?;
    }
    Ok(program)
}

/// What the program's words may be.
fn program<'a>(alloc: Global) -> Result<Command<'a>, AllocError> {
    let program = Command::new(alloc, "totsenak")
        .version("0.1.0")
        .about("Looks at sources of JavaScript")
        .no_binary_name(true)
        .disable_help_subcommand(true)
        .subcommand_required(true);
    with_commands(alloc, program)
}

/// Reads the words behind the program's name.
pub(crate) fn read_words<'a>(alloc: Global, words: &'a [String]) -> Result<ArgMatches<'a>, Error> {
    program(alloc)?.try_get_matches_from(words)
}

/// Which sources are asked of.
#[derive(Clone, Copy)]
pub(crate) struct Sources<'w> {
    /// The names of the files.
    pub names: &'w [&'w str],
    said_type: Option<SourceType>,
    said_jsx: bool,
}

impl Sources<'_> {
    /// The syntax and the type of the source with a name.
    pub(crate) fn kind_of(&self, name: &str) -> (Syntax, SourceType) {
        let syntax = syntax_of(self.said_jsx, name);
        (syntax, source_type_of(self.said_type, syntax, name))
    }
}

/// The type of source that the words name, if they name one.
fn said_type(matches: &ArgMatches<'_>) -> Option<SourceType> {
    if matches.get_flag("module") {
        Some(SourceType::Module)
    } else if matches.get_flag("script") {
        Some(SourceType::Script)
    } else {
        None
    }
}

/// The sources that the words of a command name.
fn sources_in<'w>(matches: &'w ArgMatches<'_>) -> Sources<'w> {
    Sources {
        names: matches.get_strs("FILE").unwrap_or(&[]),
        said_type: said_type(matches),
        said_jsx: matches.get_flag("jsx"),
    }
}

/// The form that the words ask for.
fn format_in(matches: &ArgMatches<'_>) -> Format {
    if matches.get_flag("json") {
        Format::Json
    } else {
        Format::Lines
    }
}

/// Where the words say that sources go.
fn target_in<'w>(matches: &'w ArgMatches<'_>) -> Target<'w> {
    match matches.get_str("output") {
        Some(name) => Target::File(name),
        None if matches.get_flag("write") => Target::InPlace,
        None => Target::StandardOutput,
    }
}

/// What the words of `strip` and `squeeze` ask for.
fn anew_in<'w>(rewriting: Rewriting, matches: &'w ArgMatches<'_>) -> Anew<'w> {
    Anew {
        rewriting,
        target: target_in(matches),
        licences: matches.get_str("licences"),
    }
}

/// What the words of `imports` ask for.
fn imports_in(matches: &ArgMatches<'_>) -> ImportsAsked {
    ImportsAsked {
        format: format_in(matches),
        counts_require: matches.get_flag("require"),
    }
}

/// What the words of `html` ask for.
fn showing_in<'w>(matches: &'w ArgMatches<'_>) -> Showing<'w> {
    if matches.get_flag("css") {
        Showing::Style
    } else if matches.get_flag("fragment") {
        Showing::Fragment
    } else {
        Showing::Page(matches.get_str("title"))
    }
}

/// What is asked of sources.
#[derive(Clone, Copy)]
pub(crate) enum Asked<'w> {
    /// To tell of each.
    Telling(Telling),
    /// To write each anew.
    Anew(Anew<'w>),
    /// To list their licences.
    Licences(Format),
    /// To list what they import and export.
    Imports(ImportsAsked),
    /// To show one as a page.
    Html(Showing<'w>),
}

/// What the words of a command ask for, and of which sources.
pub(crate) fn asked_of<'w>(command: &str, matches: &'w ArgMatches<'_>) -> (Asked<'w>, Sources<'w>) {
    let asked = match command {
        "tokens" => Asked::Telling(Telling::Tokens(format_in(matches))),
        "values" => Asked::Telling(Telling::Values),
        "licences" => Asked::Licences(format_in(matches)),
        "imports" => Asked::Imports(imports_in(matches)),
        "html" => Asked::Html(showing_in(matches)),
        "strip" => Asked::Anew(anew_in(Rewriting::Strip, matches)),
        "squeeze" => Asked::Anew(anew_in(Rewriting::Squeeze, matches)),
        _ => Asked::Telling(Telling::Check),
    };
    (asked, sources_in(matches))
}

/// Why what the words ask for can't be done with these files, if it can't.
pub(crate) fn mistake_in(asked: &Asked<'_>, sources: &Sources<'_>) -> Option<&'static str> {
    match asked {
        Asked::Anew(anew) => mistake_in_target(anew, sources),
        Asked::Html(_) if sources.names.len() != 1 => Some("html takes one file"),
        Asked::Html(_) | Asked::Telling(_) | Asked::Licences(_) | Asked::Imports(_) => None,
    }
}

/// The same of sources that are written anew.
fn mistake_in_target(anew: &Anew<'_>, sources: &Sources<'_>) -> Option<&'static str> {
    match anew.target {
        Target::StandardOutput => None,
        Target::File(_) if sources.names.len() == 1 => None,
        Target::File(_) => Some("--output takes one file"),
        Target::InPlace if sources.names.contains(&STANDARD_INPUT) => {
            Some("--write takes files, and not standard input")
        }
        Target::InPlace => None,
    }
}

/// The line in which it is told what is wrong with the words.
fn line_of(alloc: Global, error: &Error) -> Result<String, AllocError> {
    let text = error.to_string(alloc)?;
    let line = text.as_str().lines().next().unwrap_or("");
    String::from_str(alloc, line.strip_prefix("error: ").unwrap_or(line))
}

/// Tells that there is no memory, and gives the status.
fn without_memory(rt: &HostRuntime) -> u8 {
    let _ = eprintln!(rt; "totsenak: out of memory");
    NO_MEMORY
}

/// Tells what is wrong with the words, in one line, and gives the status.
fn mistaken(rt: &HostRuntime, error: &Error) -> u8 {
    match line_of(rt.alloc(), error) {
        Ok(line) => {
            let _ = eprintln!(rt; "totsenak: {line}");
            UNTOLD
        }
        Err(_) => without_memory(rt),
    }
}

/// Tells why the words were not obeyed, or what they ask to be told, and gives the status. Nobody is left to tell where
/// a line on standard error fails.
pub(crate) fn answer_for(rt: &HostRuntime, error: &Error) -> u8 {
    match error.kind() {
        ErrorKind::OutOfMemory => without_memory(rt),
        ErrorKind::DisplayHelp | ErrorKind::DisplayVersion => match error.print(rt) {
            Ok(()) => CLEAN,
            Err(_) => UNWRITABLE,
        },
        _ => mistaken(rt, error),
    }
}
