//! Reading regular expressions from their `/` on (ECMA-262 12.9.5).

ghost use Rattle.std.specs.Prelude.{◌≡◌, ◌==◌, true, IfOk, OnErr};
ghost use Rattle.std.specs.Str.{IsCharBoundary};
ghost use Rattle.js_text.specs.Ascii.{slash};
ghost use Rattle.js_text.specs.Characters.{begins, from_place};
ghost use Rattle.js_kind.specs.TokenParts.{TokenParts};
ghost use Rattle.js_reader.specs.Goals.{ReadsExpression};
ghost use Rattle.js_reader.specs.Reader.{ReadsInPart};

use crate::reader::Reader;
use crate::restart::{go_behind, token_from};
use js_kind::{Kind, Token};
use js_spell::read_regular_expression;
use js_text::{DiagnosticList, RegExpFlags};
use std::alloc::AllocError;

/// A regular expression that was read.
#[derive(Clone, Copy, PartialEq, Eq, Debug)]
pub struct RegexToken {
    pub token: Token,
    /// Where its pattern ends, as an offset in bytes.
    pub pattern_end: u32,
    pub flags: RegExpFlags,
    /// Whether a flag is unknown or stands twice.
    pub flags_error: bool,
}

impl Reader<'_> {
    /// Reads the regular expression that begins with the `/` at the offset, good or at fault.
    pub fn read_expression(
        &mut self,
        start: u32,
        errors: &mut DiagnosticList,
    ) -> Result<RegexToken, AllocError>
        requires boundary { IsCharBoundary self.old.source.text start }
        requires here { begins (λ c. c == slash) (from_place self.old.source.text start) ≡ true }
        ensures ok { IfOk result (λ found. (before : TokenParts) → before.start ≡ start
            → ReadsExpression before self.old errors.old found self.new errors.new) }
        ensures err { OnErr result (ReadsInPart self.old errors.old self.new errors.new) }
    {
        go_behind(&mut self.source, start);
        let info = read_regular_expression(&mut self.source, errors, start)?;
        Ok(RegexToken {
            token: token_from(&self.source, start, Kind::RegExp, false),
            pattern_end: info.pattern_end,
            flags: info.flags,
            flags_error: info.flags_error,
        })
    }
}
