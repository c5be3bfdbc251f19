//! What a document gives to a caller, whichever rule chooses its goals.

ghost use Rattle.std.specs.Prelude.{◌≡◌};
ghost use Rattle.js_lex_c.specs.Documents.{GivesComments, GivesDiagnostics, GivesTokens, GivesValues, NoCause};
ghost use Rattle.js_lex_c.specs.Refusals.{Tries};

use crate::document_fill::{
    count_found, fill_comments_from, fill_diagnostics_from, fill_tokens, fill_values,
};
use crate::document_record::{JsLiveToken, JsLiveValue};
use crate::record::{JsComment, JsDiagnostic};
use crate::refusal::Refusal;
use js_document::{Document, KeepGoals};

/// Puts the live tokens from an index on into a list as far as there is room, and tells how many there are.
pub(crate) fn tokens_of<K: KeepGoals>(
    document: &Document<K>,
    from: usize,
    tokens: &mut [JsLiveToken],
    count: &mut usize,
)
    ensures { GivesTokens from tokens.old tokens.new count.new document.now }
{
    fill_tokens(tokens, &mut document.tokens_from(from));
    *count = document.token_count();
}

/// Puts the values of these tokens from an index on into a list as far as there is room, and tells how many tokens there
/// are.
pub(crate) fn values_of<K: KeepGoals>(
    document: &Document<K>,
    from: usize,
    values: &mut [JsLiveValue],
    count: &mut usize,
)
    ensures { GivesValues from values.old values.new count.new document.now }
{
    fill_values(values, &mut document.values_from(from));
    *count = document.token_count();
}

/// Puts the comments from an index on into a list as far as there is room, and tells how many there are.
pub(crate) fn comments_of<K: KeepGoals>(
    document: &Document<K>,
    from: usize,
    comments: &mut [JsComment],
    count: &mut usize,
) -> Result<(), Refusal>
    ensures { Tries (NoCause document.now) (GivesComments from comments.old comments.new count.new document.now)
        ((comments.new ≡ comments.old) × (count.new ≡ count.old)) result }
{
    match count_found(&mut document.comments()) {
        Ok(found) => {
            fill_comments_from(comments, &mut document.comments(), from);
            *count = found;
            Ok(())
        }
        Err(_) => Err(Refusal::NO_MEMORY),
    }
}

/// Puts the diagnostics from an index on into a list as far as there is room, and tells how many there are.
pub(crate) fn diagnostics_of<K: KeepGoals>(
    document: &Document<K>,
    from: usize,
    diagnostics: &mut [JsDiagnostic],
    count: &mut usize,
) -> Result<(), Refusal>
    ensures { Tries (NoCause document.now) (GivesDiagnostics from diagnostics.old diagnostics.new count.new document.now)
        ((diagnostics.new ≡ diagnostics.old) × (count.new ≡ count.old)) result }
{
    match count_found(&mut document.diagnostics()) {
        Ok(found) => {
            fill_diagnostics_from(diagnostics, &mut document.diagnostics(), from);
            *count = found;
            Ok(())
        }
        Err(_) => Err(Refusal::NO_MEMORY),
    }
}
