//! Tests of js_text, js_places, js_kind, js_source, js_lines, js_edited_lines, js_trivia, js_spell, js_reader and
//! js_lexer, by their public calls. They stand in a crate of their own, since a crate's functions are proved again with
//! its tests.
#![tactic(auto)]

#[cfg(test)]
mod edited_lines;
#[cfg(test)]
mod integers;
#[cfg(test)]
mod kinds;
#[cfg(test)]
mod lexer_calls;
#[cfg(test)]
mod lexers;
#[cfg(test)]
mod lines;
#[cfg(test)]
mod offset_maps;
#[cfg(test)]
mod reader_calls;
#[cfg(test)]
mod sources;
#[cfg(test)]
mod text;
#[cfg(test)]
mod tokens;
#[cfg(test)]
mod trivia;
