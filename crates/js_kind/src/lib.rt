//! Kinds, the keyword table, tokens and the configurations of a lexer.
#![tactic(auto)]

mod config;
mod key;
mod keyword;
mod kind;
mod kind_rows;
mod kind_text;
mod packed;
mod predicates;
mod token;
mod token_list;
mod words;

pub use config::{
    LexerConfig, NoTokensLexerConfig, NoTokensParserConfig, ParserConfig, RuntimeLexerConfig,
    RuntimeParserConfig, TokensLexerConfig, TokensParserConfig,
};
pub use keyword::{
    identifier_name_is_ident_or_keyword, keyword_is_kind_of_name, keyword_of_text,
    match_keyword_between,
};
pub use kind::Kind;
pub use kind_rows::variants_by_number;
pub use token::{Token, equal_tokens_have_equal_parts};
pub use token_list::TokenList;
