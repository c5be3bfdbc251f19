//! Sources as elements of a page.

ghost use Rattle.std.specs.Prelude.{◌≡◌, ◌++◌, ◌≤◌, ◌<◌, ◌^◌, [], IfOk, OnOk, codes, length, map, string_bytes};
ghost use Rattle.js_page.specs.Elements.{behind_element, comment_element, comments_before, element_pieces};
ghost use Rattle.js_page.specs.Elements.{elements_of, late_faults, pieces_from};
ghost use Rattle.js_page.specs.Fragment.{ShowsBehind};
ghost use Rattle.js_page.specs.Parts.{behind_fault, behind_faults, behind_part, behind_stretch, class_closing};
ghost use Rattle.js_page.specs.Parts.{class_opening, count_before, fault_pieces, faults_pieces, part_to, plain_to};
ghost use Rattle.js_page.specs.Pieces.{anchor, bytes_of, fault_text};
ghost use Rattle.js_page.specs.Written.{WritesOn, here};

use crate::class::Class;
use crate::lines::{Lines, push_anchor, push_in_lines};
use crate::title::push_title;
use js_kind::Token;
use js_lines::ColumnUnit;
use js_text::{Comment, SourceText, Span};
use std::alloc::AllocError;

/// A fault of a source.
#[derive(Drop)]
pub struct Fault {
    /// Where it starts and ends, as offsets in bytes.
    pub start: u32,
    pub end: u32,
    /// What is told of it.
    pub title: SourceText,
}

/// A page that is written, and where its writing is.
#[derive(Drop)]
struct Page<'s> {
    text: String,
    lines: Lines,
    /// What is left of the source.
    left: &'s str,
    /// Where that begins, as an offset in bytes.
    place: u32,
    /// The faults of which nothing was told, by their starts.
    faults: &'s [Fault],
}

/// Appends what opens an element of a class, if there is one.
fn push_class_opening(text: &mut String, class: Option<Class>) -> Result<(), AllocError>
    ensures { OnOk result (string_bytes text.new ≡ string_bytes text.old ++ bytes_of (class_opening class)) }
{
    match class {
        None => Ok(()),
        Some(class) => text.push_str(class.opening()),
    }
}

/// Appends what closes it.
fn push_class_closing(text: &mut String, class: Option<Class>) -> Result<(), AllocError>
    ensures { OnOk result (string_bytes text.new ≡ string_bytes text.old ++ bytes_of (class_closing class)) }
{
    match class {
        None => Ok(()),
        Some(_) => text.push_str("</i>"),
    }
}

/// Appends what opens the element of a fault.
fn push_fault_opening(text: &mut String, title: &str) -> Result<(), AllocError>
    ensures { OnOk result (string_bytes text.new ≡ string_bytes text.old ++ fault_text title.now) }
{
    text.push_str("<u title=\"")?;
    push_title(text, title)?;
    text.push_str("\">")
}

/// Appends faults, each in an element of its own with no text.
fn push_late_faults(text: &mut String, faults: &[Fault]) -> Result<(), AllocError>
    ensures { OnOk result (string_bytes text.new ≡ string_bytes text.old ++ bytes_of (late_faults faults.now)) }
{
    for fault in faults {
        push_fault_opening(text, fault.title.as_str())?;
        text.push_str("</u>")?;
    }
    Ok(())
}

/// How many of the faults, from the first on, start before a place.
fn faults_before(faults: &[Fault], to: u32) -> usize
    ensures count { result ≡ count_before to faults.now }
    ensures within { result ≤ length faults.now }
{
    let mut count = 0;
    for fault in faults {
        if fault.start >= to {
            return count;
        }
        count += 1;
    }
    count
}

/// How many of the comments, from the first on, start before a place.
fn comments_before(comments: &[Comment], to: u32) -> usize
    ensures count { result ≡ comments_before to comments.now }
    ensures within { result ≤ length comments.now }
{
    let mut count = 0;
    for comment in comments {
        if comment.span.start >= to {
            return count;
        }
        count += 1;
    }
    count
}

impl<'s> Page<'s> {
    /// Writes the characters up to a place.
    fn push_up_to(&mut self, to: u32) -> Result<(), AllocError>
        requires { length self.old.left.now < 2 ^ 32 }
        ensures text { OnOk result (string_bytes self.new.text
            ≡ string_bytes self.old.text ++ bytes_of (plain_to to (here self.old))) }
        ensures here { OnOk result (here self.new ≡ behind_stretch to (here self.old)) }
        ensures short { OnOk result (length self.new.left.now < 2 ^ 32) }
    {
        if to <= self.place {
            return Ok(());
        }
        let length = to - self.place;
        let (stretch, left) = ColumnUnit::Bytes.split_at(self.left, length as usize);
        self.lines = push_in_lines(&mut self.text, self.lines, stretch)?;
        self.left = left;
        self.place = to;
        Ok(())
    }

    /// Writes a fault of the part up to a place: what stands before it, and what it is about.
    fn push_fault(&mut self, fault: &Fault, to: u32) -> Result<(), AllocError>
        requires { length self.old.left.now < 2 ^ 32 }
        ensures text { OnOk result (string_bytes self.new.text
            ≡ string_bytes self.old.text ++ bytes_of (fault_pieces to fault.now (here self.old))) }
        ensures here { OnOk result (here self.new ≡ behind_fault to fault.now (here self.old)) }
        ensures short { OnOk result (length self.new.left.now < 2 ^ 32) }
    {
        self.push_up_to(fault.start)?;
        push_fault_opening(&mut self.text, fault.title.as_str())?;
        self.push_up_to(fault.end.min(to))?;
        self.text.push_str("</u>")
    }

    /// Writes faults of the part up to a place.
    fn push_faults(&mut self, faults: &[Fault], to: u32) -> Result<(), AllocError>
        requires { length self.old.left.now < 2 ^ 32 }
        ensures text { OnOk result (string_bytes self.new.text
            ≡ string_bytes self.old.text ++ bytes_of (faults_pieces to faults.now (here self.old))) }
        ensures here { OnOk result (here self.new ≡ behind_faults to faults.now (here self.old)) }
        ensures short { OnOk result (length self.new.left.now < 2 ^ 32) }
    {
        for fault in faults {
            self.push_fault(fault, to)?;
        }
        Ok(())
    }

    /// Writes the part of the source up to a place, in an element of a class, if there is one.
    fn push_part(&mut self, class: Option<Class>, to: u32) -> Result<(), AllocError>
        requires { length self.old.left.now < 2 ^ 32 }
        ensures text { OnOk result (string_bytes self.new.text
            ≡ string_bytes self.old.text ++ bytes_of (part_to class to (here self.old))) }
        ensures here { OnOk result (here self.new ≡ behind_part to (here self.old)) }
        ensures short { OnOk result (length self.new.left.now < 2 ^ 32) }
    {
        let (told, faults) = self.faults.split_at(faults_before(self.faults, to));
        push_class_opening(&mut self.text, class)?;
        self.push_faults(told, to)?;
        self.push_up_to(to)?;
        self.faults = faults;
        push_class_closing(&mut self.text, class)
    }

    /// Writes what stands before an element, and the element.
    fn push_element(&mut self, class: Class, span: Span) -> Result<(), AllocError>
        requires { length self.old.left.now < 2 ^ 32 }
        ensures text { OnOk result (string_bytes self.new.text ≡ string_bytes self.old.text
            ++ bytes_of (element_pieces (record { class = class; start = span.start; end = span.end })
            (here self.old))) }
        ensures here { OnOk result (here self.new
            ≡ behind_element (record { class = class; start = span.start; end = span.end }) (here self.old)) }
        ensures short { OnOk result (length self.new.left.now < 2 ^ 32) }
    {
        self.push_part(None, span.start)?;
        self.push_part(Some(class), span.end)
    }

    /// Writes comments.
    fn push_comments(&mut self, comments: &[Comment]) -> Result<(), AllocError>
        requires { length self.old.left.now < 2 ^ 32 }
        ensures writes { OnOk result (WritesOn (map comment_element comments.now) self.old self.new) }
        ensures short { OnOk result (length self.new.left.now < 2 ^ 32) }
    {
        for comment in comments {
            self.push_element(Class::of_comment(comment.content), comment.span)?;
        }
        Ok(())
    }

    /// Writes tokens and comments in order of place.
    fn push_all(&mut self, tokens: &[Token], comments: &[Comment]) -> Result<(), AllocError>
        requires { length self.old.left.now < 2 ^ 32 }
        ensures { OnOk result (WritesOn (elements_of comments.now tokens.now) self.old self.new) }
    {
        let mut comments = comments;
        for token in tokens {
            let (before, behind) = comments.split_at(comments_before(comments, token.start()));
            self.push_comments(before)?;
            self.push_element(Class::of_token(token.kind()), token.span())?;
            comments = behind;
        }
        self.push_comments(comments)
    }

    /// Writes what is left of the source, and gives the text.
    fn finish(self) -> Result<String, AllocError>
        ensures { IfOk result (λ text. string_bytes text
            ≡ string_bytes self.entry.text ++ bytes_of (pieces_from (here self.entry) [])) }
    {
        let mut text = self.text;
        push_in_lines(&mut text, self.lines, self.left)?;
        push_late_faults(&mut text, self.faults)?;
        Ok(text)
    }
}

/// A text with room for what is written of a source, which is about five times as long as it.
fn with_room(text: String, length: usize) -> Result<String, AllocError>
    ensures { IfOk result (λ new. string_bytes new ≡ string_bytes text) }
{
    let mut text = text;
    text.reserve(length.saturating_mul(5))?;
    Ok(text)
}

/// A text, and behind it the start tag of a `pre` and the anchor of the first line.
fn begun(text: String) -> Result<String, AllocError>
    ensures { IfOk result (λ new. string_bytes new
        ≡ string_bytes text ++ (codes "<pre class=totsenak>" ++ anchor 1)) }
{
    let mut text = text;
    text.push_str("<pre class=totsenak>")?;
    push_anchor(&mut text, 1)?;
    Ok(text)
}

/// A text, and behind it a source as a `pre`: each of its tokens and comments in an element of its own, and what faults
/// are about underlined. The lists are in order of place.
pub fn with_fragment(
    text: String,
    source: &str,
    tokens: &[Token],
    comments: &[Comment],
    faults: &[Fault],
) -> Result<String, AllocError>
    requires { length source.now < 2 ^ 32 }
    ensures { IfOk result (λ new. ShowsBehind (string_bytes text) source.now tokens.now comments.now faults.now
        (string_bytes new)) }
{
    let text = with_room(text, source.len())?;
    let mut page = Page {
        text: begun(text)?,
        lines: Lines {
            number: 1,
            behind_return: false,
        },
        left: source,
        place: 0,
        faults,
    };
    page.push_all(tokens, comments)?;
    let mut text = page.finish()?;
    text.push_str("</pre>")?;
    Ok(text)
}
