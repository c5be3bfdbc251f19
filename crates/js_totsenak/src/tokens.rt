//! The command `tokens`: the tokens of a source, a line for each.

ghost use Rattle.std.specs.Prelude.{◌≡◌, ◌⊎◌, ◌++◌, ◌^◌, ◌<◌, OnOk, IfOk, IfErr, IsOk, length, string_bytes};
ghost use Rattle.js_choose.specs.Faults.{ChoiceCause};
ghost use Rattle.js_choose.specs.declared.fault.ChoiceFault.{ChoiceFault};
ghost use Rattle.js_lines.specs.declared.line_ends.LineEnds.TheVariants.{EcmaScript};
ghost use Rattle.js_session.specs.Faults.{IsReadable};
ghost use Rattle.js_totsenak.specs.Check.{in_characters};
ghost use Rattle.js_totsenak.specs.Tokens.{HasTokens, place_head, token_line, tokens_text};

use crate::check::places_of;
use crate::escaped::push_escaped;
use crate::stretch::stretch_of;
use js_choose::{ChoiceFault, ChooseGoals};
use js_kind::Token;
use js_lines::{LineCursor, LineEnds, LineTable, Position};
use js_lists::chosen_lists;
use js_text::SourceType;
use std::alloc::{AllocError, Global};
use std::fmt::Write;

/// Appends a line and a column, counted from 1.
#[tactic(auto, unfolding(crate::specs::Tokens::place_head))]
fn push_place_head(text: &mut String, position: Position) -> Result<(), AllocError>
    ensures { OnOk result (string_bytes text.new ≡ string_bytes text.old ++ place_head position) }
{
    let line = u64::from(position.line) + 1;
    let column = u64::from(position.column) + 1;
    write!(text, "{line}:{column} ")
}

/// Appends the line of a token.
#[tactic(auto, unfolding(crate::specs::Tokens::token_line))]
fn push_token(
    text: &mut String,
    source: &str,
    places: &mut LineCursor<'_, '_>,
    token: &Token,
) -> Result<(), AllocError>
    requires short { length source.now < 2 ^ 32 }
    requires places { places.old ≡ in_characters (record { text = source.now; ends = EcmaScript }) }
    ensures text { OnOk result (string_bytes text.new ≡ string_bytes text.old ++ token_line source.now token.now) }
    ensures places { places.new ≡ places.old }
{
    push_place_head(text, places.position(token.start()))?;
    text.push_str(token.kind().name())?;
    text.push_str(" ")?;
    push_escaped(text, stretch_of(source, token.span()))?;
    text.push_str("\n")
}

/// The lines of the tokens of a source.
pub fn tokens_text(alloc: Global, source: &str, tokens: &[Token]) -> Result<String, AllocError>
    requires { length source.now < 2 ^ 32 }
    ensures { IfOk result (λ text. string_bytes text ≡ tokens_text source.now tokens.now) }
{
    let mut text = String::new(alloc);
    let lines = LineTable::new(alloc, source, LineEnds::EcmaScript)?;
    let mut places = places_of(&lines);
    for token in tokens {
        push_token(&mut text, source, &mut places, token)?;
    }
    Ok(text)
}

/// The lines of the tokens of a source whose goals are chosen by the rule of a chooser.
pub fn tokens_of_source<G: ChooseGoals>(
    alloc: Global,
    source: &[u8],
    source_type: SourceType,
) -> Result<String, ChoiceFault>
    ensures tokens { IfOk result (λ text. HasTokens G.choice source.now source_type (string_bytes text)) }
    ensures ok { OnOk result (IsReadable source.now) }
    ensures cause { IfErr result (λ fault. (fault ≡ ChoiceFault.Memory) ⊎ ChoiceCause source.now fault) }
    ensures exact { (fault : ChoiceFault) → ChoiceCause source.now fault → result ≡ Err fault }
    ensures complete { IsReadable source.now → IsOk result ⊎ (result ≡ Err ChoiceFault.Memory) }
{
    let lists = chosen_lists::<G>(alloc, source, source_type)?;
    let text = unsafe { str::from_utf8_unchecked(source) };
    match tokens_text(alloc, text, lists.tokens.as_slice()) {
        Ok(lines) => Ok(lines),
        Err(_) => Err(ChoiceFault::Memory),
    }
}
