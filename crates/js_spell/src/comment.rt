//! The insides of comments, searched for the few characters that matter (ECMA-262 12.4).

ghost use Rattle.std.specs.Prelude.{◌≡◌, ◌≤◌, ◌<◌, ◌^◌, ◌-◌, true, [], length, IfNone, IfSome, codes};
ghost use Rattle.std.specs.List.{list_any};
ghost use Rattle.std.specs.Str.{chars};
ghost use Rattle.js_text.specs.Characters.{from_first, is_line_terminator};
ghost use Rattle.js_grammar.specs.Gap.{cut_behind};
ghost use Rattle.js_source.specs.Source.{rest, BeginsWith};
ghost use Rattle.js_source.specs.Search.{four_bytes, matches_char, PassesOthers};
ghost use Rattle.js_spell.specs.Comments.{line_bytes, HasNoAt, ReadsCut};

use js_source::{BytePair, FourBytes, Source};
use js_text::is_line_terminator;

/// What stands in a comment `/* .. */` that ends.
#[derive(Clone, Copy, Debug)]
pub struct BlockEnd {
    /// A line has ended.
    pub line_has_ended: bool,
    /// Only if there is no `@`.
    pub is_plain: bool,
}

/// The first bytes of the line terminators, which are LF, CR, and that of U+2028 and U+2029, and `@`.
const LINE_BYTES: FourBytes = FourBytes {
    first: b'\n',
    second: b'\r',
    third: 0xE2,
    fourth: b'@',
};

/// The mark that ends a block comment.
const BLOCK_END: BytePair = BytePair {
    first: b'*',
    second: b'/',
};

/// Goes to the first character whose first byte is one of `LINE_BYTES`, or to the end.
#[inline(always)]
fn advance_to_match(source: &mut Source<'_>) -> Option<char>
    ensures text { source.new.text ≡ source.old.text }
    ensures rest { rest source.new ≡ from_first (matches_char (four_bytes line_bytes)) (rest source.old) }
    ensures others { PassesOthers line_bytes source.old.text source.old.place source.new.place }
    ensures none { IfNone result (rest source.new ≡ []) }
    ensures some { IfSome result (λ c. BeginsWith c (rest source.new)) }
{
    match source.advance_to_one_of(LINE_BYTES)? {
        b if b.is_ascii() => Some(b as char),
        _ => source.peek_char(),
    }
}

/// Goes to the next line terminator, or to the end of the text, and answers true only if there is no `@` before.
#[inline(always)]
pub fn skip_line(source: &mut Source<'_>) -> bool
    ensures text { source.new.text ≡ source.old.text }
    ensures rest { rest source.new ≡ from_first is_line_terminator (rest source.old) }
    ensures onward { source.old.place ≤ source.new.place }
    ensures plain { result ≡ true → HasNoAt source.old.text source.old.place source.new.place }
{
    let mut is_plain = true;
    while let Some(c) = advance_to_match(source) {
        if is_line_terminator(c) {
            return is_plain;
        }
        is_plain = false;
        source.next_char();
    }
    is_plain
}

/// Whether a line ends in the text.
#[inline(never)]
fn has_line_end(text: &str) -> bool
    requires { length text.now < 2 ^ 32 }
    ensures { result ≡ list_any is_line_terminator (chars text.now) }
{
    let mut source = Source::new(text);
    skip_line(&mut source);
    !source.is_eof()
}

/// Goes behind the next `*/`, if there is one, and tells what stands before.
pub fn skip_block(source: &mut Source<'_>) -> Option<BlockEnd>
    ensures text { source.new.text ≡ source.old.text }
    ensures cut { ReadsCut (cut_behind (codes "*/") (rest source.old)) source.new result }
    ensures plain { IfSome result (λ end. end.is_plain ≡ true
        → HasNoAt source.old.text source.old.place (source.new.place - 2)) }
{
    let start = source.position();
    let is_plain = source.advance_behind_pair(BLOCK_END, LINE_BYTES)?;
    Some(BlockEnd {
        line_has_ended: !is_plain && has_line_end(source.str_from_pos_to_current(start)),
        is_plain,
    })
}
