//! The readings of a lexer that is driven.

ghost use Rattle.std.specs.Prelude.{◌≡◌, ◌++◌, true, List, [], ◌∷◌, None, IfOk, OnOk};
ghost use Rattle.js_text.specs.Lists.{with_last};
ghost use Rattle.js_kind.specs.TokenParts.{TokenParts};
ghost use Rattle.js_grammar.specs.Reads.{is_onward};
ghost use Rattle.js_grammar.specs.ReLexed.{fits};
ghost use Rattle.js_lexer.specs.Lexer.{ReadsToken, token_or_default};
ghost use Rattle.js_session.specs.RowReader.{ReadsAgainAs};

use js_choose::ChooseGoals;
use js_grammar::Goal;
use js_kind::{LexerConfig, Token};
use js_lexer::Lexer;
use js_session::LastRead;
use std::alloc::AllocError;

/// Reads a token of a goal that goes on, and is not the plain one, which is compiled apart.
#[inline(never)]
fn read_token<C: LexerConfig + Drop>(
    lexer: &mut Lexer<'_, C>,
    goal: Goal,
) -> Result<Token, AllocError>
    requires onward { is_onward goal ≡ true }
    requires other { goal ≡ Goal.Next → ⊥ }
    requires first { goal ≡ Goal.First → lexer.old.last ≡ None }
    ensures { IfOk result (λ token. ReadsToken goal lexer.old token lexer.new) }
{
    match goal {
        Goal::First => lexer.first_token(),
        Goal::JsxChild => lexer.next_jsx_child(),
        Goal::JsxAttributeValue => lexer.next_jsx_attribute_value(),
        _ => unreachable!(),
    }
}

/// Reads a token of a goal that goes on.
pub(crate) fn read_any<C: LexerConfig + Drop>(
    lexer: &mut Lexer<'_, C>,
    goal: Goal,
) -> Result<Token, AllocError>
    requires onward { is_onward goal ≡ true }
    requires first { goal ≡ Goal.First → lexer.old.last ≡ None }
    ensures { IfOk result (λ token. ReadsToken goal lexer.old token lexer.new) }
{
    match goal {
        Goal::Next => lexer.next_token(),
        _ => read_token(lexer, goal),
    }
}

/// Reads a token of a goal that goes on, other than the plain one, and tells it to the chooser.
#[inline(always)]
pub(crate) fn read_on<C: LexerConfig + Drop, G: ChooseGoals>(
    lexer: &mut Lexer<'_, C>,
    chooser: &mut G,
    goal: Goal,
) -> Result<LastRead, AllocError>
    requires onward { is_onward goal ≡ true }
    requires other { goal ≡ Goal.Next → ⊥ }
    requires first { goal ≡ Goal.First → lexer.old.last ≡ None }
    ensures read { IfOk result (λ last. ReadsToken goal lexer.old last.token lexer.new) }
    ensures regex { IfOk result (λ last. last.regex ≡ None) }
    ensures told { IfOk result (λ last. (tokens : List TokenParts) → G.is_told chooser.old tokens
        → G.is_told chooser.new (tokens ++ last.token ∷ [])) }
{
    // The last token is passed first: what was just asked of it is still known then.
    chooser.pass()?;
    let token = read_token(lexer, goal)?;
    chooser.read_passed(&token);
    Ok(LastRead { token, regex: None })
}

/// Reads the next token, which is the last one then, and tells it to the chooser. Of the last one nothing is known as a
/// regular expression.
// The last token is changed where it stands: one that is handed back is copied piece by piece.
#[inline(always)]
pub(crate) fn read_next<C: LexerConfig + Drop, G: ChooseGoals>(
    lexer: &mut Lexer<'_, C>,
    chooser: &mut G,
    last: &mut LastRead,
) -> Result<(), AllocError>
    requires { last.old.regex ≡ None }
    ensures read { OnOk result (ReadsToken Goal.Next lexer.old last.new.token lexer.new) }
    ensures regex { OnOk result (last.new.regex ≡ None) }
    ensures told { OnOk result ((tokens : List TokenParts) → G.is_told chooser.old tokens
        → G.is_told chooser.new (tokens ++ last.new.token ∷ [])) }
{
    chooser.pass()?;
    last.token = lexer.next_token()?;
    chooser.read_passed(&last.token);
    Ok(())
}

/// Reads the last token again, which fits the goal.
#[inline(never)]
fn read_token_again<C: LexerConfig + Drop>(
    lexer: &mut Lexer<'_, C>,
    goal: Goal,
) -> Result<LastRead, AllocError>
    requires behind { lexer.old.place ≡ (token_or_default lexer.old.last).end }
    requires fits { fits lexer.old.text goal (token_or_default lexer.old.last) ≡ true }
    ensures { IfOk result (λ last. ReadsAgainAs goal lexer.old last lexer.new) }
{
    let found = js_session::read_again(lexer, goal)?;
    match found {
        Some(last) => Ok(last),
        None => unreachable!(),
    }
}

/// Reads the last token again, and tells the chooser what stands in its place.
#[inline(always)]
pub(crate) fn read_again<C: LexerConfig + Drop, G: ChooseGoals>(
    lexer: &mut Lexer<'_, C>,
    chooser: &mut G,
    goal: Goal,
) -> Result<LastRead, AllocError>
    requires behind { lexer.old.place ≡ (token_or_default lexer.old.last).end }
    requires fits { fits lexer.old.text goal (token_or_default lexer.old.last) ≡ true }
    ensures read { IfOk result (λ last. ReadsAgainAs goal lexer.old last lexer.new) }
    ensures told { IfOk result (λ last. (tokens : List TokenParts) → G.is_told chooser.old tokens
        → G.is_told chooser.new (with_last tokens last.token)) }
{
    let last = read_token_again(lexer, goal)?;
    chooser.read_again(&last.token);
    Ok(last)
}
