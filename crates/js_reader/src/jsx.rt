//! Reading parts of JSX.

ghost use Rattle.std.specs.Prelude.{◌≡◌, ◌≤◌, true, IfOk, OnErr, Option, None};
ghost use Rattle.std.specs.Str.{IsCharBoundary};
ghost use Rattle.js_kind.specs.TokenParts.{TokenParts};
ghost use Rattle.js_grammar.specs.Gap.{whole_gap_piece};
ghost use Rattle.js_grammar.specs.Goals.{line_has_ended_behind};
ghost use Rattle.js_source.specs.Source.{rest};
ghost use Rattle.js_text.specs.Characters.{begins};
ghost use Rattle.js_grammar.specs.StringItems.{is_quote};
ghost use Rattle.js_reader.specs.Decoded.{HasValue, KeepsValues};
ghost use Rattle.js_reader.specs.Goals.{ReadsAttributeHere, ReadsNameOn, ReadsStringHere};
ghost use Rattle.js_reader.specs.Found.{Grows};
ghost use Rattle.js_reader.specs.Reader.{ReadsWithGap, MovesOn, ReadsInPart};

use crate::decoded::DecodedValues;
use crate::findings_builder::FindingsBuilder;
use crate::reader::Reader;
use crate::restart::token_from;
use js_grammar::Goal;
use js_kind::{Kind, Token};
use js_source::Source;
use js_spell::{read_jsx_child, read_jsx_identifier, read_jsx_string};
use js_text::DiagnosticList;
use std::alloc::AllocError;

/// Whether a quote is next.
fn begins_quote(source: &Source<'_>) -> bool
    ensures { result ≡ begins is_quote (rest source.now) }
{
    match source.peek_char() {
        Some(c) => c == '"' || c == '\'',
        None => false,
    }
}

impl Reader<'_> {
    /// Reads a name of JSX on, that begins at the offset and whose part up to the first `-` ends here. None: no `-` is
    /// next, and nothing was read.
    pub fn read_jsx_name(&mut self, start: u32) -> Option<Token>
        requires boundary { IsCharBoundary self.old.source.text start }
        requires ordered { start ≤ self.old.source.place }
        ensures { ReadsNameOn start self.old result self.new }
    {
        if !read_jsx_identifier(&mut self.source) {
            return None;
        }
        Some(token_from(&self.source, start, Kind::Ident, false))
    }

    /// Reads what stands between two tags of JSX.
    pub fn read_child(&mut self, found: &mut FindingsBuilder) -> Result<Token, AllocError>
        ensures ok { IfOk result (λ token. (previous : Option TokenParts)
            → line_has_ended_behind previous ≡ self.old.line_has_ended
            → ReadsWithGap Goal.JsxChild previous self.old found.old token self.new found.new) }
        ensures grown { Grows found.old found.new }
        ensures err { OnErr result (MovesOn self.old self.new) }
    {
        let start = self.source.offset();
        let kind = read_jsx_child(&mut self.source, &mut found.errors, &mut found.warnings)?;
        Ok(token_from(&self.source, start, kind, self.line_has_ended))
    }

    /// Reads the string of an attribute that is next.
    fn read_attribute_string(&mut self, errors: &mut DiagnosticList) -> Result<Token, AllocError>
        requires { begins is_quote (rest self.old.source) ≡ true }
        ensures ok { IfOk result (λ token. ReadsStringHere self.old errors.old token self.new errors.new) }
        ensures err { OnErr result (ReadsInPart self.old errors.old self.new errors.new) }
    {
        let start = self.source.offset();
        let kind = read_jsx_string(&mut self.source, errors)?;
        Ok(token_from(&self.source, start, kind, self.line_has_ended))
    }

    /// Reads what stands here as the value of an attribute, where no gap does.
    fn read_attribute(
        &mut self,
        errors: &mut DiagnosticList,
        decoded: &mut DecodedValues,
    ) -> Result<Token, AllocError>
        requires { whole_gap_piece self.old.source_type self.old.line_has_ended (rest self.old.source) ≡ None }
        ensures ok { IfOk result (λ token. ReadsAttributeHere self.old errors.old token self.new errors.new) }
        ensures value { IfOk result (λ token. HasValue self.old.source.text decoded.new token) }
        ensures kept { KeepsValues self.old.source.text decoded.old decoded.new }
        ensures err { OnErr result (ReadsInPart self.old errors.old self.new errors.new) }
    {
        if begins_quote(&self.source) {
            return self.read_attribute_string(errors);
        }
        self.read_here(errors, decoded)
    }

    /// Reads the value of an attribute of JSX: a string without escapes, or a token of the plain goal.
    pub fn read_attribute_value(
        &mut self,
        found: &mut FindingsBuilder,
        decoded: &mut DecodedValues,
    ) -> Result<Token, AllocError>
        ensures ok { IfOk result (λ token. (previous : Option TokenParts)
            → line_has_ended_behind previous ≡ self.old.line_has_ended
            → ReadsWithGap Goal.JsxAttributeValue previous self.old found.old token self.new found.new) }
        ensures grown { Grows found.old found.new }
        ensures value { IfOk result (λ token. HasValue self.old.source.text decoded.new token) }
        ensures kept { KeepsValues self.old.source.text decoded.old decoded.new }
        ensures err { OnErr result (MovesOn self.old self.new) }
    {
        self.skip_whole_gap(found)?;
        self.read_attribute(&mut found.errors, decoded)
    }
}
