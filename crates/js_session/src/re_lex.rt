//! Tokens of a lexer that are read again.

ghost use Rattle.std.specs.Prelude.{◌≡◌, true, IfOk, OnErr};
ghost use Rattle.js_kind.specs.Kinds.{is_one_of};
ghost use Rattle.js_grammar.specs.ReLexed.{again_kinds, is_re_lexed};
ghost use Rattle.js_lexer.specs.Lexer.{IsBehindFor, IsRestored, kind_of_last, token_or_default};
ghost use Rattle.js_session.specs.RowReader.{ReadsIfFits};

use js_grammar::{Goal, spelled_length};
use js_kind::{LexerConfig, Token};
use js_lexer::Lexer;
use js_text::RegexInfo;
use std::alloc::AllocError;

/// The last token that was read, and what is known of it as a regular expression if it is one.
#[derive(Clone, Copy)]
pub struct LastRead {
    pub token: Token,
    pub regex: Option<RegexInfo>,
}

/// Whether the goal may read the last token again, by its kind.
#[tactic(auto, using(js_grammar::proofs::AgainKinds::again_is_re_lexed))]
fn may_read_again<C: LexerConfig + Drop>(lexer: &Lexer<'_, C>, goal: Goal) -> bool
    requires { lexer.now.place ≡ (token_or_default lexer.now.last).end }
    ensures answer { result ≡ is_one_of (again_kinds goal) (kind_of_last lexer.now) }
    ensures behind { result ≡ true → IsBehindFor goal lexer.now }
    ensures again { result ≡ true → is_re_lexed (kind_of_last lexer.now) ≡ true }
{
    goal.reads_again(lexer.last_token().kind())
}

/// Reads a regular expression, where the last token may begin one.
fn read_regex<C: LexerConfig + Drop>(
    lexer: &mut Lexer<'_, C>,
) -> Result<Option<LastRead>, AllocError>
    requires { lexer.old.place ≡ (token_or_default lexer.old.last).end }
    ensures ok { IfOk result (λ found. ReadsIfFits Goal.RegularExpression lexer.old found lexer.new) }
    ensures err { OnErr result (IsRestored lexer.old lexer.new) }
{
    if !may_read_again(lexer, Goal::RegularExpression) {
        return Ok(None);
    }
    let found = lexer.next_regex(lexer.last_token().kind())?;
    Ok(Some(LastRead {
        token: found.token,
        regex: Some(RegexInfo {
            pattern_end: found.pattern_end,
            flags: found.flags,
            flags_error: found.flags_error,
        }),
    }))
}

/// Reads the next part of a template, where the last token is a `}`.
fn read_tail<C: LexerConfig + Drop>(
    lexer: &mut Lexer<'_, C>,
) -> Result<Option<LastRead>, AllocError>
    requires { lexer.old.place ≡ (token_or_default lexer.old.last).end }
    ensures ok { IfOk result (λ found. ReadsIfFits Goal.TemplateTail lexer.old found lexer.new) }
    ensures err { OnErr result (IsRestored lexer.old lexer.new) }
{
    if !may_read_again(lexer, Goal::TemplateTail) {
        return Ok(None);
    }
    let token = lexer.next_template_substitution_tail()?;
    Ok(Some(LastRead { token, regex: None }))
}

/// Reads the longest punctuator, where the last token is a `>`.
fn read_right_angle<C: LexerConfig + Drop>(lexer: &mut Lexer<'_, C>) -> Option<LastRead>
    requires { lexer.old.place ≡ (token_or_default lexer.old.last).end }
    ensures { ReadsIfFits Goal.RightAngle lexer.old result lexer.new }
{
    if !may_read_again(lexer, Goal::RightAngle) {
        return None;
    }
    let token = lexer.re_lex_right_angle();
    Some(LastRead { token, regex: None })
}

/// Reads a `<` alone, where the last token is a compound that begins with it.
fn read_first_left<C: LexerConfig + Drop>(lexer: &mut Lexer<'_, C>) -> Option<LastRead>
    requires { lexer.old.place ≡ (token_or_default lexer.old.last).end }
    ensures { ReadsIfFits Goal.TypeScriptLeftAngle lexer.old result lexer.new }
{
    if !may_read_again(lexer, Goal::TypeScriptLeftAngle) {
        return None;
    }
    let bytes = spelled_length(lexer.last_token().kind());
    let token = lexer.re_lex_as_typescript_l_angle(bytes);
    Some(LastRead { token, regex: None })
}

/// Reads a `>` alone, where the last token is a compound that begins with it.
fn read_first_right<C: LexerConfig + Drop>(lexer: &mut Lexer<'_, C>) -> Option<LastRead>
    requires { lexer.old.place ≡ (token_or_default lexer.old.last).end }
    ensures { ReadsIfFits Goal.TypeScriptRightAngle lexer.old result lexer.new }
{
    if !may_read_again(lexer, Goal::TypeScriptRightAngle) {
        return None;
    }
    let bytes = spelled_length(lexer.last_token().kind());
    let token = lexer.re_lex_as_typescript_r_angle(bytes);
    Some(LastRead { token, regex: None })
}

/// Reads a name of JSX on, where the last token is a name that a `-` follows.
fn read_jsx_name<C: LexerConfig + Drop>(lexer: &mut Lexer<'_, C>) -> Option<LastRead>
    requires { lexer.old.place ≡ (token_or_default lexer.old.last).end }
    ensures { ReadsIfFits Goal.JsxIdentifier lexer.old result lexer.new }
{
    let last = lexer.last_token();
    if !last.kind().is_identifier_name() {
        return None;
    }
    let token = lexer.continue_lex_jsx_identifier(last.start())?;
    Some(LastRead { token, regex: None })
}

/// Reads the last token of a lexer again, where it fits the goal; else nothing changes. Where there is no memory, the
/// lexer is as it was before.
pub fn read_again<C: LexerConfig + Drop>(
    lexer: &mut Lexer<'_, C>,
    goal: Goal,
) -> Result<Option<LastRead>, AllocError>
    requires { lexer.old.place ≡ (token_or_default lexer.old.last).end }
    ensures ok { IfOk result (λ found. ReadsIfFits goal lexer.old found lexer.new) }
    ensures err { OnErr result (IsRestored lexer.old lexer.new) }
{
    match goal {
        Goal::First | Goal::Next | Goal::JsxChild | Goal::JsxAttributeValue => Ok(None),
        Goal::RegularExpression => read_regex(lexer),
        Goal::TemplateTail => read_tail(lexer),
        Goal::RightAngle => Ok(read_right_angle(lexer)),
        Goal::TypeScriptLeftAngle => Ok(read_first_left(lexer)),
        Goal::TypeScriptRightAngle => Ok(read_first_right(lexer)),
        Goal::JsxIdentifier => Ok(read_jsx_name(lexer)),
    }
}
