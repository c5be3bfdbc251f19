//! What was read behind a gap.

ghost use Rattle.std.specs.Prelude.{◌≡◌, ◌≤◌};

use js_kind::{Kind, Token};
use js_text::Span;

/// The kind and the flags of what was read, from the end of a gap up to where the source stands.
#[derive(Clone, Copy)]
pub struct Lexeme {
    pub kind: Kind,
    pub is_on_new_line: bool,
    pub escaped: bool,
    pub has_separator: bool,
}

impl Lexeme {
    /// The token of this over a span.
    pub fn token(self, span: Span) -> Token
        requires { span.start ≤ span.end }
        ensures { result ≡ record {
          start = span.start;
          end = span.end;
          kind = self.kind;
          is_on_new_line = self.is_on_new_line;
          escaped = self.escaped;
          has_separator = self.has_separator;
        } }
    {
        let mut token = Token::new(self.kind, span, self.is_on_new_line);
        token.set_escaped(self.escaped);
        token.set_has_separator(self.has_separator);
        token
    }
}
