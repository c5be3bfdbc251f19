//! Readings of goals that begin where the last token does.

ghost use Rattle.std.specs.Prelude.{◌≡◌, ◌∷◌, IfOk, OnErr, Some};
ghost use Rattle.std.specs.Str.{IsCharBoundary};
ghost use Rattle.js_text.specs.Characters.{from_place};
ghost use Rattle.js_grammar.specs.UnicodeEscape.{right_curly_bracket};
ghost use Rattle.js_kind.specs.TokenParts.{TokenParts};
ghost use Rattle.js_source.specs.Source.{rest};
ghost use Rattle.js_reader.specs.Decoded.{HasValue, KeepsValues};
ghost use Rattle.js_reader.specs.Reader.{ReadsWithoutGap, ReadsInPart};

use crate::decoded::DecodedValues;
use crate::lexeme::Lexeme;
use crate::reader::Reader;
use crate::reading::keep_part;
use js_grammar::Goal;
use js_kind::{Kind, Token};
use js_spell::{Spelt, read_template_part};
use js_text::{DiagnosticList, Span};
use std::alloc::AllocError;

impl Reader<'_> {
    /// Reads the next part of a template behind the `}` that stands at the offset, and keeps its value where something
    /// in it is escaped.
    pub fn read_next_part(
        &mut self,
        start: u32,
        errors: &mut DiagnosticList,
        decoded: &mut DecodedValues,
    ) -> Result<Token, AllocError>
        requires begins { IsCharBoundary self.old.source.text start }
        requires here { from_place self.old.source.text start ≡ right_curly_bracket ∷ rest self.old.source }
        ensures ok { IfOk result (λ token. (before : TokenParts) → before.start ≡ start
            → ReadsWithoutGap Goal.TemplateTail (Some before) self.old errors.old token self.new errors.new) }
        ensures value { IfOk result (λ token. HasValue self.old.source.text decoded.new token) }
        ensures kept { KeepsValues self.old.source.text decoded.old decoded.new }
        ensures err { OnErr result (ReadsInPart self.old errors.old self.new errors.new) }
    {
        let mut token = Token::default();
        token.set_start(start);
        let spelt = read_template_part(
            self.alloc,
            &mut self.source,
            errors,
            &mut token,
            Kind::TemplateMiddle,
            Kind::TemplateTail,
        )?;
        let Spelt { kind, value } = spelt;
        keep_part(decoded, start, value)?;
        let lexeme = Lexeme {
            kind,
            is_on_new_line: false,
            escaped: token.escaped(),
            has_separator: false,
        };
        Ok(lexeme.token(Span::new(start, self.source.offset())))
    }
}
