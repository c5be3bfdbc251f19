//! Reading a token again, from behind its first character on.

ghost use Rattle.std.specs.Prelude.{◌≡◌, ◌≤◌};
ghost use Rattle.std.specs.Str.{IsCharBoundary};
ghost use Rattle.js_source.specs.Source.{StepsFrom};
ghost use Rattle.js_reader.specs.Reader.{read_token};

use js_kind::{Kind, Token};
use js_source::Source;
use js_text::Span;

/// Goes behind the character that stands at the offset.
pub fn go_behind(source: &mut Source<'_>, start: u32)
    requires { IsCharBoundary source.old.text start }
    ensures past { StepsFrom source.old.text start source.new }
    ensures onward { start ≤ source.new.place }
{
    match source.position_at(start) {
        Some(position) => source.set_position(position),
        None => unreachable!(),
    }
    source.next_char();
}

/// The token of the kind from the offset up to where the source stands, without an escape and a separator.
pub fn token_from(source: &Source<'_>, start: u32, kind: Kind, is_on_new_line: bool) -> Token
    requires { start ≤ source.now.place }
    ensures { result ≡ read_token is_on_new_line start source.now.place kind }
{
    Token::new(kind, Span::new(start, source.offset()), is_on_new_line)
}
