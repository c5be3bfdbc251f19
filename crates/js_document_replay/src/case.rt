//! Cases, as the input lists them: texts, each with edits of it.

use js_document::Edit;
use js_lex_tool::parse_source_type;
use js_text::SourceType;

/// By which rule the goals of a text are chosen.
#[derive(Clone, Copy)]
pub enum Rule {
    Auto,
    Jsx,
}

/// A text, and how many edits of it come next.
#[derive(Clone, Copy)]
pub struct Case<'t> {
    pub rule: Rule,
    pub source_type: SourceType,
    pub text: &'t str,
    pub edits: u32,
}

/// Why a case, or an edit of one, cannot be read.
#[derive(Clone, Copy, PartialEq, Eq, Debug)]
pub enum InputFault {
    /// The line with its numbers is another one.
    BadLine,
    /// Its text is no text of so many bytes with a line end behind it.
    BadText,
}

impl InputFault {
    /// The fault in words.
    pub fn name(self) -> &'static str {
        match self {
            InputFault::BadLine => "bad line",
            InputFault::BadText => "bad text",
        }
    }
}

/// The three words of a line. None: it has fewer.
fn three_words(line: &str) -> Option<(&str, &str, &str)> {
    let (first, rest) = line.split_once(' ')?;
    let (second, third) = rest.split_once(' ')?;
    Some((first, second, third))
}

/// The rule and the source type of a word: that of a source type, or `jsx`, for a module with JSX.
fn rule_of(word: &str) -> Option<(Rule, SourceType)> {
    if word == "jsx" {
        return Some((Rule::Jsx, SourceType::Module));
    }
    let source_type = parse_source_type(word)?;
    Some((Rule::Auto, source_type))
}

/// A line of a case: the rule and the type of its text, how many bytes the text has, and how many edits there are.
#[derive(Clone, Copy)]
struct CaseLine {
    rule: Rule,
    source_type: SourceType,
    length: usize,
    edits: u32,
}

/// What the line of a case tells.
fn case_line(line: &str) -> Option<CaseLine> {
    let (word, length, edits) = three_words(line)?;
    let (rule, source_type) = rule_of(word)?;
    let length = length.parse::<usize>().ok()?;
    let edits = edits.parse::<u32>().ok()?;
    Some(CaseLine {
        rule,
        source_type,
        length,
        edits,
    })
}

/// Where an edit starts and ends, and how many bytes its text has, as a line tells them.
fn edit_line(line: &str) -> Option<(u32, u32, usize)> {
    let (start, end, length) = three_words(line)?;
    let start = start.parse::<u32>().ok()?;
    let end = end.parse::<u32>().ok()?;
    let length = length.parse::<usize>().ok()?;
    Some((start, end, length))
}

/// The text of so many bytes that the input begins with, and what stands behind the line end that follows it.
fn first_text(input: &str, length: usize) -> Option<(&str, &str)> {
    let (text, rest) = input.split_at_checked(length)?;
    let rest = rest.strip_prefix('\n')?;
    Some((text, rest))
}

/// The first case of the input, and what stands behind its text: a line of its type, or `jsx`, how many bytes the text
/// has, and how many edits there are, and the text.
pub fn first_case(input: &str) -> Result<(Case<'_>, &str), InputFault> {
    let (line, rest) = input.split_once('\n').ok_or(InputFault::BadLine)?;
    let told = case_line(line).ok_or(InputFault::BadLine)?;
    let (text, rest) = first_text(rest, told.length).ok_or(InputFault::BadText)?;
    let case = Case {
        rule: told.rule,
        source_type: told.source_type,
        text,
        edits: told.edits,
    };
    Ok((case, rest))
}

/// The first edit of the input, and what stands behind it: a line of its start, its end, and how many bytes its text
/// has, and the text.
pub fn first_edit(input: &str) -> Result<(Edit<'_>, &str), InputFault> {
    let (line, rest) = input.split_once('\n').ok_or(InputFault::BadLine)?;
    let (start, end, length) = edit_line(line).ok_or(InputFault::BadLine)?;
    let (text, rest) = first_text(rest, length).ok_or(InputFault::BadText)?;
    Ok((Edit { start, end, text }, rest))
}
