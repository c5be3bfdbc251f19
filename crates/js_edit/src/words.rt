//! What the words of the program ask for: an edit of the input, and the commands of both texts.

ghost use Rattle.std.specs.Prelude.{◌≡◌, ◌∷◌, IfOk, map, string_bytes};
ghost use Rattle.std.specs.List.{position_or_len};
ghost use Rattle.js_edit.specs.Words.{edit_words_in, edit_words_of, is_dashes, new_words, old_words, place_in};

use js_lex_tool::{parse_number, parse_source_type, read_listed};
use js_relex::Edit;
use js_session::CommandList;
use js_text::SourceType;
use std::alloc::{AllocError, Global};
use std::marker::Model;

/// What the words of a run mean.
#[derive(Drop)]
pub struct EditLine<'w> {
    pub source_type: SourceType,
    pub edit: Edit<'w>,
    /// The commands of the old text.
    pub commands: CommandList,
    /// The commands of the new text.
    pub new_commands: CommandList,
}

impl<'w> Model for EditLine<'w> {
    ghost use Rattle.js_edit.specs.Words.{EditWords};

    ghost Value = { EditWords };

    ghost view = { λ l. record {
      source_type = l.source_type;
      start = l.edit.start;
      end = l.edit.end;
      text = l.edit.text.now;
      commands = l.commands;
      new_commands = l.new_commands;
    } };
}

/// The place that the word means.
fn parse_place(word: &str) -> Option<u32>
    ensures { result ≡ place_in word.now }
{
    let place = parse_number(word, u32::MAX as usize)?;
    Some(place as u32)
}

/// Where the first `--` stands, or else how many words there are.
fn dashes_at(words: &[String]) -> usize
    ensures { result ≡ position_or_len is_dashes (map string_bytes words.now) }
{
    let mut at = 0;
    while at < words.len() {
        if words[at].as_str() == "--" {
            return at;
        }
        at += 1;
    }
    at
}

/// The words before the first `--`, and those behind it; without one they stand for both.
fn split_words(words: &[String]) -> (&[String], &[String])
    ensures old { map string_bytes result.0.now ≡ old_words (map string_bytes words.now) }
    ensures new { map string_bytes result.1.now ≡ new_words (map string_bytes words.now) }
{
    let at = dashes_at(words);
    if at < words.len() {
        (&words[..at], &words[at + 1..])
    } else {
        (words, words)
    }
}

/// What these words mean. None: they are not valid.
fn read_parts<'w>(
    alloc: Global,
    source_type: &str,
    start: &str,
    end: &str,
    text: &'w str,
    words: &[String],
) -> Result<Option<EditLine<'w>>, AllocError>
    ensures { IfOk result (λ line. line ≡ edit_words_in
        (source_type.now ∷ start.now ∷ end.now ∷ text.now ∷ map string_bytes words.now)) }
{
    let Some(source_type) = parse_source_type(source_type) else {
        return Ok(None);
    };
    let Some(start) = parse_place(start) else {
        return Ok(None);
    };
    let Some(end) = parse_place(end) else {
        return Ok(None);
    };
    let (old, new) = split_words(words);
    let Some(commands) = read_listed(alloc, old)? else {
        return Ok(None);
    };
    let Some(new_commands) = read_listed(alloc, new)? else {
        return Ok(None);
    };
    Ok(Some(EditLine {
        source_type,
        edit: Edit { start, end, text },
        commands,
        new_commands,
    }))
}

/// What the words after the program's name mean: a source type, the places and the text of an edit, the commands of the
/// old text and, behind `--`, those of the new one. None: they are not valid.
pub fn read_edit_words(
    alloc: Global,
    words: &Vec<String>,
) -> Result<Option<EditLine<'_>>, AllocError>
    ensures { IfOk result (λ line. line ≡ edit_words_of words.now.items) }
{
    match words.as_slice() {
        [source_type, start, end, text, words @ ..] => read_parts(
            alloc,
            source_type.as_str(),
            start.as_str(),
            end.as_str(),
            text.as_str(),
            words,
        ),
        _ => Ok(None),
    }
}
