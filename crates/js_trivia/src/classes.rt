//! The classes of comments by what is in them.

ghost use Rattle.std.specs.Prelude.{◌≡◌, ◌<◌, ◌≤◌, ◌==◌, ◌||◌, false, length, IfNone, IfSome, MatchBool};
ghost use Rattle.std.specs.Prelude.{if◌then◌else◌};
ghost use Rattle.js_trivia.specs.Words.{BeginsNoWord};
ghost use Rattle.js_text.specs.Characters.{begins};
ghost use Rattle.js_grammar.specs.CommentClasses.{stays_leading, begins_with, is_licensed, is_blank, without_blanks};
ghost use Rattle.js_grammar.specs.CommentClasses.{is_capital, is_beyond_ascii, is_empty, begins_with_either};
ghost use Rattle.js_grammar.specs.CommentClasses.{is_hint_for};
ghost use Rattle.js_grammar.specs.CommentClasses.{is_key_sign, may_mark_key, ends_or_is_blank, is_word};
ghost use Rattle.js_grammar.specs.CommentClasses.{is_for_coverage, is_for_whole_file, has_stars_alone};
ghost use Rattle.js_grammar.specs.CommentClasses.{documentation_class};
ghost use Rattle.js_grammar.specs.CommentClasses.{annotation_class, tool_class, worded_class, class_of};

use js_text::CommentContent;
use memchr::memchr;

/// Whether a comment of the class belongs to what follows, also where it ends a line.
pub(crate) fn stays_leading(content: CommentContent) -> bool
    ensures { result ≡ stays_leading content }
{
    match content {
        CommentContent::Legal
        | CommentContent::JsdocLegal
        | CommentContent::Pure
        | CommentContent::PureNotApplied
        | CommentContent::NoSideEffects
        | CommentContent::NoSideEffectsNotApplied
        | CommentContent::PropertyKey => true,
        CommentContent::None
        | CommentContent::Jsdoc
        | CommentContent::Webpack
        | CommentContent::Vite
        | CommentContent::CoverageIgnore
        | CommentContent::CoverageIgnoreFile
        | CommentContent::Turbopack => false,
    }
}

fn is_empty(text: &[u8]) -> bool
    ensures { result ≡ is_empty text.now }
{
    text.is_empty()
}

fn begins_with(text: &[u8], mark: &[u8]) -> bool
    ensures { result ≡ begins_with mark.now text.now }
{
    text.starts_with(mark)
}

fn begins_with_either(text: &[u8], first: &[u8], second: &[u8]) -> bool
    ensures { result ≡ begins_with_either first.now second.now text.now }
{
    begins_with(text, first) || begins_with(text, second)
}

/// What is left from the next `@` on.
fn from_next_at(text: &[u8]) -> Option<&[u8]>
    ensures none { IfNone result (is_licensed text.now ≡ false) }
    ensures some { IfSome result (λ found. (is_licensed found.now ≡ is_licensed text.now) × (0 < length found.now)) }
    ensures bound { IfSome result (λ found. length found.now ≤ length text.now) }
{
    match memchr(b'@', text) {
        Some(at) => Some(&text[at..]),
        None => None,
    }
}

/// From so many bytes on, a search by `memchr` is faster than one by blocks.
const LONG: usize = 128;

/// What is left behind blocks of so many bytes without an `@`.
#[inline(always)]
fn past_blocks(text: &[u8], size: usize) -> &[u8]
    requires { 0 < size }
    ensures { is_licensed result.now ≡ is_licensed text.now }
{
    let mut rest = text;
    while rest.len() >= size {
        if rest[..size].contains(&b'@') {
            return rest;
        }
        rest = &rest[size..];
    }
    rest
}

/// Whether `@license` or `@preserve` stands anywhere in a text that may be long.
#[inline(never)]
fn is_licensed_anywhere(content: &[u8]) -> bool
    ensures { result ≡ is_licensed content.now }
{
    let mut rest = content;
    while let Some(found) = from_next_at(rest) {
        if begins_with_either(found, b"@license", b"@preserve") {
            return true;
        }
        rest = &found[1..];
    }
    false
}

/// Whether `@license` or `@preserve` stands anywhere. Seven bytes hold neither.
fn is_licensed(content: &[u8]) -> bool
    ensures { result ≡ is_licensed content.now }
{
    if content.len() >= LONG {
        return is_licensed_anywhere(content);
    }
    let rest = past_blocks(past_blocks(content, 16), 8);
    rest.len() >= 8 && is_licensed_anywhere(rest)
}

/// The same of a content of which it may be known that neither stands in it.
#[inline(always)]
fn is_licensed_if(content: &[u8], may_be_licensed: bool) -> bool
    requires { may_be_licensed ≡ false → is_licensed content.now ≡ false }
    ensures { result ≡ is_licensed content.now }
{
    may_be_licensed && is_licensed(content)
}

/// Whether the byte is SP, TAB, LF, FF or CR.
#[tactic(auto, unfolding(js_grammar::specs::CommentClasses::is_blank))]
fn is_blank(b: u8) -> bool
    ensures { result ≡ is_blank b }
{
    b == b' ' || (b == b'\t' || (b == b'\n' || (b == 0x0C || b == b'\r')))
}

/// What is left from the first byte on that is not blank.
fn without_blanks(text: &[u8]) -> &[u8]
    ensures { result.now ≡ without_blanks text.now }
{
    let mut rest = text;
    while let [first, after @ ..] = rest {
        if !is_blank(*first) {
            return rest;
        }
        rest = after;
    }
    rest
}

#[tactic(auto, unfolding(js_grammar::specs::CommentClasses::is_capital))]
fn begins_with_capital(text: &[u8]) -> bool
    ensures { result ≡ begins is_capital text.now }
{
    match text {
        [first, ..] => b'A' <= *first && *first <= b'Z',
        [] => false,
    }
}

#[tactic(auto, unfolding(js_grammar::specs::CommentClasses::is_beyond_ascii))]
fn begins_beyond_ascii(text: &[u8]) -> bool
    ensures { result ≡ begins is_beyond_ascii text.now }
{
    match text {
        [first, ..] => 128 <= *first,
        [] => false,
    }
}

/// Whether it is a hint for a tool: its name, and then a capital.
fn is_hint_for(text: &[u8], tool: &[u8]) -> bool
    ensures { result ≡ is_hint_for tool.now text.now }
{
    if !text.starts_with(tool) {
        return false;
    }
    begins_with_capital(&text[tool.len()..])
}

/// Whether the text, without white space around it, is the mark of a key of a property.
fn is_key_sign(content: &str) -> bool
    ensures { result ≡ is_key_sign content.now }
{
    let mark = content.trim();
    mark == "@__KEY__" || mark == "#__KEY__"
}

/// Whether it may be the mark of a key: a quick look at how it begins.
fn may_mark_key(text: &[u8]) -> bool
    ensures { result ≡ may_mark_key text.now }
{
    begins_with_either(text, b"@__KEY__", b"#__KEY__") || begins_beyond_ascii(text)
}

fn ends_or_is_blank(text: &[u8]) -> bool
    ensures { result ≡ ends_or_is_blank text.now }
{
    match text {
        [first, ..] => is_blank(*first),
        [] => true,
    }
}

/// Whether the text begins with the words, and then ends or goes on with a blank.
fn is_word(text: &[u8], words: &[u8]) -> bool
    ensures { result ≡ is_word words.now text.now }
{
    if !text.starts_with(words) {
        return false;
    }
    ends_or_is_blank(&text[words.len()..])
}

/// Whether it speaks to a tool that measures coverage.
fn is_for_coverage(text: &[u8]) -> bool
    ensures { result ≡ is_for_coverage text.now }
{
    begins_with_either(text, b"v8 ignore", b"c8 ignore")
        || begins_with_either(text, b"node:coverage", b"istanbul ignore")
}

/// Whether it takes the whole file out of coverage.
fn is_for_whole_file(text: &[u8]) -> bool
    ensures { result ≡ is_for_whole_file text.now }
{
    is_word(text, b"v8 ignore file") || is_word(text, b"istanbul ignore file")
}

/// Whether there is no byte but `*`.
fn has_stars_alone(content: &[u8]) -> bool
    ensures { result ≡ has_stars_alone content.now }
{
    let mut rest = content;
    while let [first, after @ ..] = rest {
        if *first != b'*' {
            return false;
        }
        rest = after;
    }
    true
}

/// The class of a block comment that begins with a further `*`.
fn documentation_class(content: &[u8], may_be_licensed: bool) -> CommentContent
    requires { may_be_licensed ≡ false → is_licensed content.now ≡ false }
    ensures { result ≡ documentation_class content.now }
{
    if has_stars_alone(content) {
        CommentContent::None
    } else if is_licensed_if(content, may_be_licensed) {
        CommentContent::JsdocLegal
    } else {
        CommentContent::Jsdoc
    }
}

/// The class of an annotation, or of a licence anywhere.
fn annotation_class(content: &[u8], text: &[u8]) -> CommentContent
    ensures { result ≡ annotation_class content.now text.now }
{
    if begins_with_either(text, b"@__PURE__", b"#__PURE__") {
        CommentContent::PureNotApplied
    } else if begins_with_either(text, b"@__NO_SIDE_EFFECTS__", b"#__NO_SIDE_EFFECTS__") {
        CommentContent::NoSideEffectsNotApplied
    } else if is_licensed(content) {
        CommentContent::Legal
    } else {
        CommentContent::None
    }
}

/// The class of a hint for a tool, or else of an annotation.
fn tool_class(content: &[u8], text: &[u8]) -> CommentContent
    ensures { result ≡ tool_class content.now text.now }
{
    if is_hint_for(text, b"webpack") {
        CommentContent::Webpack
    } else if is_hint_for(text, b"turbopack") {
        CommentContent::Turbopack
    } else if is_for_coverage(text) {
        if is_for_whole_file(text) {
            CommentContent::CoverageIgnoreFile
        } else {
            CommentContent::CoverageIgnore
        }
    } else {
        annotation_class(content, text)
    }
}

/// The class by the text behind the blanks in front.
#[inline(never)]
fn worded_class(content: &str, text: &[u8]) -> CommentContent
    ensures { result ≡ worded_class content.now text.now }
{
    if is_empty(text) {
        CommentContent::None
    } else if may_mark_key(text) && is_key_sign(content) {
        CommentContent::PropertyKey
    } else if text.len() == 1 && begins_with(text, b"@") {
        CommentContent::None
    } else if begins_with(text, b"@vite") {
        CommentContent::Vite
    } else if begins_with_either(text, b"@license", b"@preserve") {
        CommentContent::Legal
    } else {
        tool_class(content.as_bytes(), text)
    }
}

/// Whether no mark and no word that a class goes by begins with the byte.
fn begins_no_word(b: u8) -> bool
    ensures { MatchBool result (BeginsNoWord b) (Unit {0}) }
{
    if b >= 128 {
        return false;
    }
    match b {
        b'@' => false,
        b'#' => false,
        b'w' => false,
        b't' => false,
        b'v' => false,
        b'c' => false,
        b'n' => false,
        b'i' => false,
        _ => true,
    }
}

/// The class of a comment that no mark and no word begins.
fn licensed_class(content: &[u8], may_be_licensed: bool) -> CommentContent
    requires { may_be_licensed ≡ false → is_licensed content.now ≡ false }
    ensures { result ≡ (if is_licensed content.now then CommentContent.Legal else CommentContent.None) }
{
    if is_licensed_if(content, may_be_licensed) {
        CommentContent::Legal
    } else {
        CommentContent::None
    }
}

/// The class by the text behind the blanks in front; most comments are told by its first byte.
#[inline(always)]
fn class_by_words(content: &str, text: &[u8], may_be_licensed: bool) -> CommentContent
    requires { may_be_licensed ≡ false → is_licensed content.now ≡ false }
    ensures { result ≡ worded_class content.now text.now }
{
    match text {
        [first, ..] if begins_no_word(*first) => {
            licensed_class(content.as_bytes(), may_be_licensed)
        }
        _ => worded_class(content, text),
    }
}

/// What a comment tells tools, by its text without the marks of the comment, of which it may be known that neither
/// `@license` nor `@preserve` stands in it.
#[inline(always)]
pub(crate) fn classify_if(content: &str, is_block: bool, may_be_licensed: bool) -> CommentContent
    requires { may_be_licensed ≡ false → is_licensed content.now ≡ false }
    ensures { result ≡ class_of is_block content.now }
{
    let bytes = content.as_bytes();
    if is_empty(bytes) {
        CommentContent::None
    } else if begins_with(bytes, b"!") {
        CommentContent::Legal
    } else if is_block && begins_with(bytes, b"*") {
        documentation_class(bytes, may_be_licensed)
    } else {
        class_by_words(content, without_blanks(bytes), may_be_licensed)
    }
}

/// What a comment tells tools, by its text without the marks of the comment.
pub fn classify(content: &str, is_block: bool) -> CommentContent
    ensures { result ≡ class_of is_block content.now }
{
    classify_if(content, is_block, true)
}
