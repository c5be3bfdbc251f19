//! One pass over a source: its tokens are read by the goals that are chosen, and no rows are made of them.

ghost use Rattle.std.specs.Prelude.{◌≡◌, ◌<◌, ◌^◌, length, refl, true, IfOk};
ghost use Rattle.std.specs.Str.{IsUtf8};
ghost use Rattle.js_lexer.specs.Lexer.{fresh};
ghost use Rattle.js_bench.specs.Counts.{IsListingOf, IsPass, IsPassOver, counts_of_lists, rule_of};

use crate::step::{follow, read_first};
use js_auto::GoalChooser;
use js_choose::ChooseGoals;
use js_jsx::JsxChooser;
use js_kind::LexerConfig;
use js_lexer::Lexer;
use js_lists::{LiveLists, chosen_lists};
use js_text::SourceType;
use std::alloc::{AllocError, Global};

/// What a pass keeps of the tokens.
#[derive(Clone, Copy, PartialEq, Eq, Debug)]
pub enum Kept {
    /// Nothing.
    Nothing,
    /// The list that the lexer collects.
    Tokens,
    /// The lists of what is live, with the values.
    Lists,
}

/// The rule by which goals are chosen.
#[derive(Clone, Copy, PartialEq, Eq, Debug)]
pub enum GoalRule {
    /// That of `GoalChooser`, which knows no JSX.
    Auto,
    /// That of `JsxChooser`.
    Jsx,
}

/// What a pass found.
#[derive(Clone, Copy, PartialEq, Eq, Debug)]
pub struct PassCounts {
    /// The tokens that were read, collected or not, with `Kind::Eof`.
    pub tokens: u64,
    pub comments: usize,
    pub diagnostics: usize,
}

/// The configuration of a lexer that collects its tokens or not, with the rule by which its goals are chosen. Each of the
/// four is a type of its own, so that the readings of each pass are compiled for it alone, as those of a parser are.
#[derive(Clone, Copy, Default)]
struct PassConfig<const JSX: bool, const TOKENS: bool> {}

impl<const JSX: bool, const TOKENS: bool> LexerConfig for PassConfig<JSX, TOKENS> {
    const TOKENS_METHOD_IS_STATIC: bool = true;

    ghost TOKENS_METHOD_IS_STATIC = { true };

    ghost collects = { λ _. TOKENS };

    ghost is_static = { λ _ a b. refl };

    fn tokens(&self) -> bool {
        TOKENS
    }
}

/// A pass with a lexer that has read nothing: it counts what is live in the report of a session whose goals are chosen.
#[inline(never)]
fn pass_with<C: LexerConfig + Drop, G: ChooseGoals>(
    alloc: Global,
    text: &str,
    mut lexer: Lexer<'_, C>,
) -> Result<PassCounts, AllocError>
    requires unread { lexer ≡ fresh text.now lexer.source_type lexer.collects }
    requires utf8 { IsUtf8 text.now }
    requires short { length text.now < 2 ^ 32 }
    ensures { IfOk result (IsPassOver G.choice text.now lexer.entry.source_type lexer.entry.collects) }
{
    let mut chooser = G::new(alloc);
    read_first(&mut lexer, &mut chooser)?;
    let mut tokens: u64 = 1;
    'tokens: while let Some(command) = chooser.command(text) {
        tokens += follow(&mut lexer, &mut chooser, command)?;
    }
    Ok(PassCounts {
        tokens,
        comments: lexer.comments().len(),
        diagnostics: lexer.errors().len(),
    })
}

/// A pass with a lexer whose configuration is known before the program runs, as that of a parser is.
fn pass_over<C: LexerConfig + Drop, G: ChooseGoals>(
    alloc: Global,
    text: &str,
    source_type: SourceType,
    config: C,
) -> Result<PassCounts, AllocError>
    requires { length text.now < 2 ^ 32 }
    ensures { IfOk result (IsPassOver G.choice text.now source_type (C.collects config)) }
{
    match Lexer::new(alloc, text, source_type, config) {
        Ok(lexer) => pass_with::<C, G>(alloc, text, lexer),
        Err(_) => Err(AllocError),
    }
}

/// What is listed.
fn listed(lists: &LiveLists) -> PassCounts
    ensures { result ≡ counts_of_lists lists.now }
{
    PassCounts {
        tokens: lists.tokens.len() as u64,
        comments: lists.found.comments.len(),
        diagnostics: lists.found.diagnostics.len(),
    }
}

/// A pass that lists what is live.
#[inline(never)]
fn pass_into_lists<G: ChooseGoals>(
    alloc: Global,
    text: &str,
    source_type: SourceType,
) -> Result<PassCounts, AllocError>
    ensures { IfOk result (IsListingOf G.choice text.now source_type) }
{
    match chosen_lists::<G>(alloc, text.as_bytes(), source_type) {
        Ok(lists) => Ok(listed(&lists)),
        // the source is UTF-8, and short enough
        Err(_) => Err(AllocError),
    }
}

/// A pass by the rule of a chooser, that of js_jsx or not.
fn pass_by<G: ChooseGoals, const JSX: bool>(
    alloc: Global,
    text: &str,
    source_type: SourceType,
    kept: Kept,
) -> Result<PassCounts, AllocError>
    requires { length text.now < 2 ^ 32 }
    ensures { IfOk result (IsPass kept G.choice text.now source_type) }
{
    match kept {
        Kept::Nothing => pass_over::<_, G>(alloc, text, source_type, PassConfig::<JSX, false> {}),
        Kept::Tokens => pass_over::<_, G>(alloc, text, source_type, PassConfig::<JSX, true> {}),
        Kept::Lists => pass_into_lists::<G>(alloc, text, source_type),
    }
}

/// One pass over the text, by a rule.
pub fn count_pass(
    alloc: Global,
    text: &str,
    source_type: SourceType,
    kept: Kept,
    rule: GoalRule,
) -> Result<PassCounts, AllocError>
    requires { length text.now < 2 ^ 32 }
    ensures { IfOk result (IsPass kept (rule_of rule) text.now source_type) }
{
    match rule {
        GoalRule::Auto => pass_by::<GoalChooser, false>(alloc, text, source_type, kept),
        GoalRule::Jsx => pass_by::<JsxChooser, true>(alloc, text, source_type, kept),
    }
}
