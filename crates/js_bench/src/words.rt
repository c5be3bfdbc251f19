//! What the words of the program ask for: how often the input is lexed, by which rule, and what is kept.

ghost use Rattle.std.specs.Prelude.{◌≡◌, map, string_bytes};
ghost use Rattle.js_lex_tool.specs.Words.{count_in, entry_for, source_type_words};
ghost use Rattle.js_bench.specs.Words.{bench_line, bench_line_of, kept_words, most_passes, rule_in};

use crate::pass::{GoalRule, Kept};
use js_lex_tool::{parse_count, parse_source_type};
use js_text::SourceType;

/// The most passes of a run.
const MOST_PASSES: usize = 1_000;

/// What the words of a run mean.
#[derive(Clone, Copy, PartialEq, Eq, Debug)]
pub struct BenchLine {
    pub source_type: SourceType,
    /// What each pass keeps of the tokens.
    pub kept: Kept,
    /// How often the source is lexed.
    pub passes: usize,
    /// The rule by which goals are chosen.
    pub rule: GoalRule,
}

/// What a pass keeps of the tokens, as the word says.
fn parse_kept(word: &str) -> Option<Kept>
    ensures { result ≡ entry_for kept_words word.now }
{
    match word {
        "tokens" => Some(Kept::Tokens),
        "no-tokens" => Some(Kept::Nothing),
        "lists" => Some(Kept::Lists),
        _ => None,
    }
}

/// The rule that the last words name: that of js_auto where there is none. None: they are not valid.
fn parse_rule(words: &[String]) -> Option<GoalRule>
    ensures { result ≡ rule_in (map string_bytes words.now) }
{
    match words {
        [] => Some(GoalRule::Auto),
        [word] if word.as_str() == "jsx" => Some(GoalRule::Jsx),
        _ => None,
    }
}

/// The line of these words, where each is valid.
fn read_parts(source_type: &str, kept: &str, passes: &str, rule: &[String]) -> Option<BenchLine>
    ensures { result ≡ bench_line (entry_for source_type_words source_type.now) (entry_for kept_words kept.now)
        (count_in most_passes passes.now) (rule_in (map string_bytes rule.now)) }
{
    Some(BenchLine {
        source_type: parse_source_type(source_type)?,
        kept: parse_kept(kept)?,
        passes: parse_count(passes, MOST_PASSES)?,
        rule: parse_rule(rule)?,
    })
}

/// What the words after the program's name mean: a source type, what is kept of the tokens, a number of passes from 1 to
/// 1,000, and `jsx` where goals are chosen by the rule of js_jsx. None: they are not valid.
pub fn read_bench_words(words: &Vec<String>) -> Option<BenchLine>
    ensures { result ≡ bench_line_of words.now.items }
{
    match words.as_slice() {
        [source_type, kept, passes, rule @ ..] => read_parts(
            source_type.as_str(),
            kept.as_str(),
            passes.as_str(),
            rule,
        ),
        _ => None,
    }
}
