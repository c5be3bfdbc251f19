//! The lists of a caller, as what is live is put into them.

ghost use Rattle.std.specs.Prelude.{◌≡◌, OnOk, OnErr};
ghost use Rattle.js_lists.specs.Taken.{taken_as};

use crate::fill::{JsCounts, JsLists};
use crate::token::token_record;
use js_kind::Token;
use js_lexer::Findings;
use js_lists::{TakeTokens, TokenValue};
use js_text::RegexInfo;
use std::alloc::AllocError;

/// The lists of a caller, and how many items there are of each so far, however much room there is.
#[derive(Drop)]
pub(crate) struct Filler<'o, 'l> {
    pub(crate) out: &'o mut JsLists<'l>,
    pub(crate) counts: JsCounts,
}

impl Filler<'_, '_> {
    ghost use Rattle.js_lex_c.specs.Filler.{PutsTaken};

    /// Puts a token behind those before it, and its units behind theirs.
    #[inline(always)]
    fn put(
        &mut self,
        token: &Token,
        value: TokenValue<'_>,
        regex: Option<RegexInfo>,
    ) -> Result<(), AllocError>
        ensures ok { OnOk result (PutsTaken self.old (taken_as token.now value.entry regex) self.new) }
        ensures err { OnErr result (self.new ≡ self.old) }
    {
        let record = token_record(self.counts.units, token, value, regex)?;
        let Some(tokens) = self.counts.tokens.checked_add(1) else {
            return Err(AllocError);
        };
        self.out.put_token(self.counts.tokens, record);
        self.counts.tokens = tokens;
        if let TokenValue::Units(text) = value {
            self.out.put_units(self.counts.units, text.units());
            self.counts.units = record.value.end as usize;
        }
        Ok(())
    }

    /// The same, of a token with a decoded value, or of a regular expression: few are such.
    #[cold]
    #[inline(never)]
    fn put_rare(
        &mut self,
        token: &Token,
        value: TokenValue<'_>,
        regex: Option<RegexInfo>,
    ) -> Result<(), AllocError>
        ensures ok { OnOk result (PutsTaken self.old (taken_as token.now value.entry regex) self.new) }
        ensures err { OnErr result (self.new ≡ self.old) }
    {
        self.put(token, value, regex)
    }
}

impl TakeTokens for Filler<'_, '_> {
    ghost use Rattle.std.specs.Prelude.{◌≡◌};
    ghost use Rattle.js_lex_c.specs.Filler.{PutsFound, PutsTaken};

    ghost takes = { PutsTaken };

    ghost ends = { PutsFound };

    ghost breaks_off = { λ old new. new ≡ old };

    #[inline(always)]
    fn take(
        &mut self,
        token: &Token,
        value: TokenValue<'_>,
        regex: Option<RegexInfo>,
    ) -> Result<(), AllocError> {
        match (value, regex) {
            (TokenValue::Nothing | TokenValue::Slice(_), None) => self.put(token, value, None),
            _ => self.put_rare(token, value, regex),
        }
    }

    fn end(&mut self, found: Findings) -> Result<(), AllocError> {
        self.out.fill_findings(&found);
        self.counts = JsCounts {
            diagnostics: found.diagnostics.len(),
            deferred: found.deferred.len(),
            comments: found.comments.len(),
            irregular: found.irregular.len(),
            warnings: found.warnings.len(),
            ..self.counts
        };
        Ok(())
    }
}
