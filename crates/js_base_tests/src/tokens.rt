//! Tokens, their configurations, and how much memory is taken.

use js_kind::{
    Kind, LexerConfig, NoTokensParserConfig, ParserConfig, RuntimeParserConfig, Token,
    TokensParserConfig,
};
use js_places::ReservedList;
use js_text::{DiagnosticList, Span};
use std::mem::size_of;

#[test]
fn sizes(rt: HostRuntime) {
    assert_eq!(rt; size_of::<Token>(), 16);
    assert_eq!(rt; size_of::<DiagnosticList>(), size_of::<usize>());
    // No memory can hold so many places.
    let most = isize::MAX as usize;
    assert!(rt; ReservedList::<u64>::with_free(rt.alloc(), most).is_err());
}

#[test]
fn a_changed_token(rt: HostRuntime) {
    let mut token = Token::new_on_new_line();
    assert!(rt; token.is_same(&Token::new(Kind::Eof, Span::empty(0), true)));
    token.set_kind(Kind::At);
    token.set_is_on_new_line(false);
    assert!(rt; token.is_same(&Token::new(Kind::At, Span::empty(0), false)));
}

/// Whether all lexers of a parser with such a configuration collect tokens alike, and whether that of this one does.
fn collects<P: ParserConfig + Drop>(config: P) -> (bool, bool)
where
    P::LexerConfig: Drop,
{
    let is_static = P::LexerConfig::TOKENS_METHOD_IS_STATIC;
    (is_static, config.lexer_config().tokens())
}

#[test]
fn configurations(rt: HostRuntime) {
    assert_eq!(rt; collects(NoTokensParserConfig), (true, false));
    assert_eq!(rt; collects(TokensParserConfig), (true, true));
    assert_eq!(rt; collects(RuntimeParserConfig::new(true)), (false, true));
    assert_eq!(rt; collects(RuntimeParserConfig::default()), (false, false));
}
