//! The steps of a lexer that is driven by a chooser of goals.

ghost use Rattle.std.specs.Prelude.{◌≡◌, ◌≤◌, true, None, OnOk, IfOk};
ghost use Rattle.js_kind.specs.TokenParts.{TokenParts};
ghost use Rattle.js_grammar.specs.Reads.{is_onward};
ghost use Rattle.js_grammar.specs.ReLexed.{fits};
ghost use Rattle.js_lexer.specs.Lexer.{LexesAgain, ReadsToken, token_or_default};
ghost use Rattle.js_session.specs.Effects.{effect_of};
ghost use Rattle.js_choose.specs.Rules.{is_final};
ghost use Rattle.js_bench.specs.Drive.{Follows, MayFollow, ReadsAgain, ReadsOn};

use js_choose::ChooseGoals;
use js_grammar::Goal;
use js_kind::{LexerConfig, Token};
use js_lexer::Lexer;
use js_session::{Command, Effect};
use std::alloc::AllocError;

/// Reads a token of a goal that goes on, and is not the plain one, which is compiled apart.
fn read_token<C: LexerConfig + Drop>(
    lexer: &mut Lexer<'_, C>,
    goal: Goal,
) -> Result<Token, AllocError>
    requires onward { is_onward goal ≡ true }
    requires other { goal ≡ Goal.Next → ⊥ }
    requires later { goal ≡ Goal.First → ⊥ }
    ensures { IfOk result (λ token. ReadsToken goal lexer.old token lexer.new) }
{
    match goal {
        Goal::JsxChild => lexer.next_jsx_child(),
        Goal::JsxAttributeValue => lexer.next_jsx_attribute_value(),
        _ => unreachable!(),
    }
}

/// Does so; the lexer has the token then as the last one. Taken from there, and not handed back, it leaves what a chooser
/// keeps in registers.
#[inline(never)]
fn read_as_last<C: LexerConfig + Drop>(
    lexer: &mut Lexer<'_, C>,
    goal: Goal,
) -> Result<(), AllocError>
    requires onward { is_onward goal ≡ true }
    requires other { goal ≡ Goal.Next → ⊥ }
    requires later { goal ≡ Goal.First → ⊥ }
    ensures { OnOk result ((token : TokenParts) × ReadsToken goal lexer.old token lexer.new) }
{
    let _token = read_token(lexer, goal)?;
    Ok(())
}

/// Reads a token of a goal that goes on, other than the plain one, and tells it to the chooser.
#[inline(always)]
fn read_on<C: LexerConfig + Drop, G: ChooseGoals>(
    lexer: &mut Lexer<'_, C>,
    chooser: &mut G,
    goal: Goal,
) -> Result<(), AllocError>
    requires onward { is_onward goal ≡ true }
    requires other { goal ≡ Goal.Next → ⊥ }
    requires later { goal ≡ Goal.First → ⊥ }
    ensures { OnOk result (ReadsOn G.is_told goal lexer.old lexer.new chooser.old chooser.new) }
{
    // The last token is passed first: what was just asked of it is still known then.
    chooser.pass()?;
    read_as_last(lexer, goal)?;
    let token = lexer.last_token();
    chooser.read_passed(&token);
    Ok(())
}

/// Reads the first token, and tells it to the chooser.
#[inline(always)]
pub(crate) fn read_first<C: LexerConfig + Drop, G: ChooseGoals>(
    lexer: &mut Lexer<'_, C>,
    chooser: &mut G,
) -> Result<(), AllocError>
    requires { lexer.old.last ≡ None }
    ensures { OnOk result (ReadsOn G.is_told Goal.First lexer.old lexer.new chooser.old chooser.new) }
{
    chooser.pass()?;
    let token = lexer.first_token()?;
    chooser.read_passed(&token);
    Ok(())
}

/// Reads the next token, and tells it to the chooser.
#[inline(always)]
fn read_next<C: LexerConfig + Drop, G: ChooseGoals>(
    lexer: &mut Lexer<'_, C>,
    chooser: &mut G,
) -> Result<(), AllocError>
    ensures { OnOk result (ReadsOn G.is_told Goal.Next lexer.old lexer.new chooser.old chooser.new) }
{
    chooser.pass()?;
    let token = lexer.next_token()?;
    chooser.read_passed(&token);
    Ok(())
}

/// Reads the last token again, as a regular expression.
fn read_expression<C: LexerConfig + Drop>(lexer: &mut Lexer<'_, C>) -> Result<Token, AllocError>
    requires behind { lexer.old.place ≡ (token_or_default lexer.old.last).end }
    requires fits { fits lexer.old.text Goal.RegularExpression (token_or_default lexer.old.last) ≡ true }
    ensures { IfOk result (λ token. LexesAgain Goal.RegularExpression lexer.old token lexer.new) }
{
    let kind = lexer.last_token().kind();
    let found = lexer.next_regex(kind)?;
    Ok(found.token)
}

/// Reads the last token again, as a part of a template.
fn read_part<C: LexerConfig + Drop>(lexer: &mut Lexer<'_, C>) -> Result<Token, AllocError>
    requires behind { lexer.old.place ≡ (token_or_default lexer.old.last).end }
    requires fits { fits lexer.old.text Goal.TemplateTail (token_or_default lexer.old.last) ≡ true }
    ensures { IfOk result (λ token. LexesAgain Goal.TemplateTail lexer.old token lexer.new) }
{
    lexer.next_template_substitution_tail()
}

/// Reads the last token again, as a name of JSX.
fn read_jsx_name<C: LexerConfig + Drop>(lexer: &mut Lexer<'_, C>) -> Token
    requires behind { lexer.old.place ≡ (token_or_default lexer.old.last).end }
    requires fits { fits lexer.old.text Goal.JsxIdentifier (token_or_default lexer.old.last) ≡ true }
    ensures { LexesAgain Goal.JsxIdentifier lexer.old result lexer.new }
{
    let start = lexer.last_token().start();
    match lexer.continue_lex_jsx_identifier(start) {
        Some(token) => token,
        None => unreachable!(),
    }
}

/// Reads the last token again, where it fits a goal behind which none reads it once more.
fn read_token_again<C: LexerConfig + Drop>(
    lexer: &mut Lexer<'_, C>,
    goal: Goal,
) -> Result<Token, AllocError>
    requires settles { is_final goal ≡ true }
    requires behind { lexer.old.place ≡ (token_or_default lexer.old.last).end }
    requires fits { fits lexer.old.text goal (token_or_default lexer.old.last) ≡ true }
    ensures { IfOk result (λ token. LexesAgain goal lexer.old token lexer.new) }
{
    match goal {
        Goal::RegularExpression => read_expression(lexer),
        Goal::TemplateTail => read_part(lexer),
        Goal::JsxIdentifier => Ok(read_jsx_name(lexer)),
        _ => unreachable!(),
    }
}

/// Does so; the lexer has the token then as the last one.
#[inline(never)]
fn read_again_as_last<C: LexerConfig + Drop>(
    lexer: &mut Lexer<'_, C>,
    goal: Goal,
) -> Result<(), AllocError>
    requires settles { is_final goal ≡ true }
    requires behind { lexer.old.place ≡ (token_or_default lexer.old.last).end }
    requires fits { fits lexer.old.text goal (token_or_default lexer.old.last) ≡ true }
    ensures { OnOk result ((token : TokenParts) × LexesAgain goal lexer.old token lexer.new) }
{
    let _token = read_token_again(lexer, goal)?;
    Ok(())
}

/// Reads the last token again, and tells the chooser what stands in its place.
#[inline(always)]
fn read_again<C: LexerConfig + Drop, G: ChooseGoals>(
    lexer: &mut Lexer<'_, C>,
    chooser: &mut G,
    goal: Goal,
) -> Result<(), AllocError>
    requires settles { is_final goal ≡ true }
    requires behind { lexer.old.place ≡ (token_or_default lexer.old.last).end }
    requires fits { fits lexer.old.text goal (token_or_default lexer.old.last) ≡ true }
    ensures { OnOk result (ReadsAgain G.is_told goal lexer.old lexer.new chooser.old chooser.new) }
{
    read_again_as_last(lexer, goal)?;
    let token = lexer.last_token();
    chooser.read_again(&token);
    Ok(())
}

/// Follows a command that is chosen, and is not `Command::Next`.
#[inline(always)]
fn follow_any<C: LexerConfig + Drop, G: ChooseGoals>(
    lexer: &mut Lexer<'_, C>,
    chooser: &mut G,
    command: Command,
) -> Result<u64, AllocError>
    requires other { command ≡ Command.Next → ⊥ }
    requires may { MayFollow (effect_of command) lexer.old }
    ensures follows { IfOk result (λ more.
        Follows G.is_told (effect_of command) more lexer.old lexer.new chooser.old chooser.new) }
    ensures one_at_most { IfOk result (λ more. more ≤ 1) }
{
    match command.effect() {
        Effect::Reads(goal) => {
            read_on(lexer, chooser, goal)?;
            Ok(1)
        }
        Effect::ReLexes(goal) => {
            read_again(lexer, chooser, goal)?;
            Ok(0)
        }
        _ => unreachable!(),
    }
}

/// Follows a command that is chosen, and tells how many more tokens were read then: one, or none where the last one was
/// read again. Most steps read the next token, and that is compiled apart.
#[inline(always)]
pub(crate) fn follow<C: LexerConfig + Drop, G: ChooseGoals>(
    lexer: &mut Lexer<'_, C>,
    chooser: &mut G,
    command: Command,
) -> Result<u64, AllocError>
    requires { MayFollow (effect_of command) lexer.old }
    ensures follows { IfOk result (λ more.
        Follows G.is_told (effect_of command) more lexer.old lexer.new chooser.old chooser.new) }
    ensures one_at_most { IfOk result (λ more. more ≤ 1) }
{
    match command {
        Command::Next => {
            read_next(lexer, chooser)?;
            Ok(1)
        }
        _ => follow_any(lexer, chooser, command),
    }
}
