//! Reading angles again: the longest one, or the first of a compound.

ghost use Rattle.std.specs.Prelude.{◌≡◌, ◌==◌, true, Some};
ghost use Rattle.std.specs.Str.{IsCharBoundary};
ghost use Rattle.js_text.specs.Ascii.{greater_than_sign, less_than_sign};
ghost use Rattle.js_text.specs.Characters.{begins, from_place};
ghost use Rattle.js_kind.specs.TokenParts.{TokenParts};
ghost use Rattle.js_reader.specs.Reader.{ReadsSilently};

use crate::reader::Reader;
use crate::restart::{go_behind, token_from};
use js_grammar::Goal;
use js_kind::{Kind, Token};
use js_spell::read_right_angle;

impl Reader<'_> {
    /// Reads the longest punctuator that begins with the `>` at the offset.
    pub fn read_longest_right_angle(&mut self, start: u32) -> Token
        requires boundary { IsCharBoundary self.old.source.text start }
        requires here { begins (λ c. c == greater_than_sign) (from_place self.old.source.text start) ≡ true }
        ensures { (before : TokenParts) → before.start ≡ start
            → ReadsSilently Goal.RightAngle (Some before) self.old result self.new }
    {
        go_behind(&mut self.source, start);
        let kind = read_right_angle(&mut self.source);
        token_from(&self.source, start, kind, false)
    }

    /// Reads the `<` at the offset alone.
    pub fn read_left_angle(&mut self, start: u32) -> Token
        requires boundary { IsCharBoundary self.old.source.text start }
        requires here { begins (λ c. c == less_than_sign) (from_place self.old.source.text start) ≡ true }
        ensures { (before : TokenParts) → before.start ≡ start
            → ReadsSilently Goal.TypeScriptLeftAngle (Some before) self.old result self.new }
    {
        go_behind(&mut self.source, start);
        token_from(&self.source, start, Kind::LAngle, false)
    }

    /// Reads the `>` at the offset alone.
    pub fn read_right_angle(&mut self, start: u32) -> Token
        requires boundary { IsCharBoundary self.old.source.text start }
        requires here { begins (λ c. c == greater_than_sign) (from_place self.old.source.text start) ≡ true }
        ensures { (before : TokenParts) → before.start ≡ start
            → ReadsSilently Goal.TypeScriptRightAngle (Some before) self.old result self.new }
    {
        go_behind(&mut self.source, start);
        token_from(&self.source, start, Kind::RAngle, false)
    }
}
