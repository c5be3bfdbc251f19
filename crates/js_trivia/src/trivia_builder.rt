//! The trivia builder: it collects comments and irregular white space, and attaches each comment to a token.

ghost use Rattle.std.specs.Prelude.{◌≡◌, ◌-◌, ◌^◌, ◌<◌, ◌≤◌, ◌↔◌, [], length, true, false, OnOk, OnErr, None};
ghost use Rattle.std.specs.Prelude.{IsTrue, IfSome};
ghost use Rattle.js_text.specs.Comment.{is_line_kind};
ghost use Rattle.js_trivia.specs.Attachment.{trail_pending};
ghost use Rattle.js_grammar.specs.GapItems.{found_at};
ghost use Rattle.js_trivia.specs.Marks.{IsRangeOf, mark_range, pure_applied, no_side_effects_applied};
ghost use Rattle.js_trivia.specs.Trivia.{Trivia, no_trivia, held, IsNew, push_comment, note_class, add_comment};
ghost use Rattle.js_trivia.specs.Trivia.{add_irregular, handle_newline, handle_token, lengths_of, cut_to, IsPlacedIn};
ghost use Rattle.js_trivia.specs.Trivia.{class_in_text, found_in, CanCutBack, without_ranges, IsRangeUpTo};
ghost use Rattle.js_trivia.specs.Trivia.{is_licensed_in, AreRangesUpTo, IsSettled};

use crate::attaching::{attach_each_pending, attach_pending, mark_last_pending};
use crate::classes::{classify_if, stays_leading};
use crate::kinds::keeps_line_comment_leading;
use crate::lengths::TriviaLengths;
use crate::marks::{mark_no_side_effects_within, mark_pure_within};
use crate::order::{extend, find_comment, is_past_comments, is_past_spans, new_index};
use js_kind::{Kind, Token};
use js_text::{Comment, CommentContent, CommentKind, CommentPosition, CommentRange, Span};
use std::alloc::{AllocError, Global};
use std::marker::Model;

/// The class of a comment of a text, of which it may be known that neither `@license` nor `@preserve` stands in it.
#[inline(always)]
fn class_in(
    source_text: &str,
    kind: CommentKind,
    span: Span,
    may_be_licensed: bool,
) -> CommentContent
    requires placed { IsPlacedIn source_text.now kind span }
    requires licensed { may_be_licensed ≡ false → is_licensed_in source_text.now kind span ≡ false }
    ensures { result ≡ class_in_text source_text.now kind span }
{
    let start = span.start + kind.opening_length();
    let end = span.end - kind.closing_length();
    let content = &source_text[start as usize..end as usize];
    classify_if(content, !kind.is_line(), may_be_licensed)
}

/// Whether there is neither range.
#[inline(always)]
fn are_none(
    pure_comments: Option<CommentRange>,
    no_side_effects_comments: Option<CommentRange>,
) -> bool
    ensures { result ≡ true → (pure_comments ≡ None) × (no_side_effects_comments ≡ None) }
{
    pure_comments.is_none() && no_side_effects_comments.is_none()
}

/// Whether the range, if there is one, has a comment in it and ends within so many.
fn is_range_up_to(range: Option<CommentRange>, count: u32) -> bool
    ensures { IsTrue result ↔ IfSome range (IsRangeUpTo count) }
{
    match range {
        Some(CommentRange { start, end }) => start < end && end <= count,
        None => true,
    }
}

/// Whether both ranges are of comments that stay where a builder goes back there.
fn are_ranges_up_to(to: &TriviaLengths) -> bool
    ensures { IsTrue result ↔ AreRangesUpTo to.now.comments to.now.pure_range to.now.no_side_effects }
{
    is_range_up_to(to.pure_range, to.comments) && is_range_up_to(to.no_side_effects, to.comments)
}

/// Comments and irregular white space in the order of the text. Comments wait for the next token, until it is clear to
/// which token they belong.
#[derive(Drop)]
pub struct TriviaBuilder {
    comments: Vec<Comment>,
    irregular_whitespaces: Vec<Span>,
    /// How many comments are attached.
    processed: usize,
    /// A newline event came since the last token.
    saw_newline: bool,
    /// A newline event came since the last block comment or token.
    saw_newline_for_comment: bool,
    /// The last token.
    previous: Token,
    pure_comments: Option<CommentRange>,
    no_side_effects_comments: Option<CommentRange>,
    /// Only if no comment waits, no line end came since the last token, and no range is held.
    settled: bool,
}

impl Model for TriviaBuilder {
    ghost use Rattle.std.specs.Prelude.{◌≡◌, true, take, drop, length};
    ghost use Rattle.js_trivia.specs.Trivia.{Trivia, AreRangesUpTo};
    ghost use Rattle.js_trivia.specs.Builder.{IsInOrder, AreSettled};

    ghost Value = { Trivia };

    ghost view = { λ b. record {
      attachment = record {
        attached = take b.processed b.comments.items;
        pending = drop b.processed b.comments.items;
        saw_newline = b.saw_newline;
        saw_newline_for_comment = b.saw_newline_for_comment;
        previous = b.previous;
      };
      irregular_whitespaces = b.irregular_whitespaces.items;
      pure_comments = b.pure_comments;
      no_side_effects_comments = b.no_side_effects_comments;
    } };

    ghost invariant = { λ b. IsInOrder b.processed b.comments.items b.irregular_whitespaces.items
        × (b.settled ≡ true → AreSettled b.processed b.comments.items b.saw_newline b.saw_newline_for_comment
        b.pure_comments b.no_side_effects_comments)
        × AreRangesUpTo (length b.comments.items) b.pure_comments b.no_side_effects_comments };
}

impl TriviaBuilder {
    /// A builder that holds nothing, at the start of a source.
    pub fn new_in(alloc: Global) -> TriviaBuilder
        ensures { result ≡ no_trivia }
    {
        TriviaBuilder {
            comments: Vec::new(alloc),
            irregular_whitespaces: Vec::new(alloc),
            processed: 0,
            saw_newline: true,
            saw_newline_for_comment: true,
            previous: Token::new(Kind::Undetermined, Span::empty(0), false),
            pure_comments: None,
            no_side_effects_comments: None,
            settled: false,
        }
    }

    /// The comments, in the order of the text.
    pub fn comments(&self) -> &[Comment]
        ensures { result.now ≡ held self.now.attachment }
    {
        self.comments.as_slice()
    }

    /// Hands out the comments, and leaves none, and no range of them, between two gaps.
    pub fn take_comments(&mut self) -> Vec<Comment>
        requires { self.old.attachment.pending ≡ [] }
        ensures comments { result.items ≡ self.old.attachment.attached }
        ensures after { self.new ≡ without_ranges (record self.old {
          attachment = record self.old.attachment { attached = [] };
        }) }
    {
        self.processed = 0;
        self.pure_comments = None;
        self.no_side_effects_comments = None;
        let none = Vec::new(*self.comments.allocator());
        std::mem::replace(&mut self.comments, none)
    }

    /// Hands out the irregular white space that is listed, and leaves none.
    pub fn take_irregular_whitespaces(&mut self) -> Vec<Span>
        ensures spans { result.items ≡ self.old.irregular_whitespaces }
        ensures after { self.new ≡ record self.old { irregular_whitespaces = [] } }
    {
        let none = Vec::new(*self.irregular_whitespaces.allocator());
        std::mem::replace(&mut self.irregular_whitespaces, none)
    }

    /// The irregular white space that is listed, in the order of the text.
    pub fn irregular_whitespaces(&self) -> &[Span]
        ensures { result.now ≡ self.now.irregular_whitespaces }
    {
        self.irregular_whitespaces.as_slice()
    }

    /// The last token, of kind `Undetermined` before the first.
    pub fn previous_token(&self) -> Token
        ensures { result ≡ self.now.attachment.previous }
    {
        self.previous
    }

    /// The comments of class `PureNotApplied` before the last token, from the first of them to the last.
    pub fn previous_token_pure_comments(&self) -> Option<CommentRange>
        ensures range { result ≡ self.now.pure_comments }
        ensures held { IfSome result (IsRangeOf (held self.now.attachment)) }
    {
        self.pure_comments
    }

    /// The comments of class `NoSideEffectsNotApplied` before the last token, from the first of them to the last.
    pub fn previous_token_no_side_effects_comments(&self) -> Option<CommentRange>
        ensures range { result ≡ self.now.no_side_effects_comments }
        ensures held { IfSome result (IsRangeOf (held self.now.attachment)) }
    {
        self.no_side_effects_comments
    }

    /// Forgets the range of comments of class `PureNotApplied`.
    pub fn clear_pure_comments(&mut self)
        ensures { self.new ≡ record self.old { pure_comments = None } }
    {
        self.pure_comments = None;
    }

    /// Forgets the range of comments of class `NoSideEffectsNotApplied`.
    pub fn clear_no_side_effects_comments(&mut self)
        ensures { self.new ≡ record self.old { no_side_effects_comments = None } }
    {
        self.no_side_effects_comments = None;
    }

    /// Sets the range of comments of class `PureNotApplied` before the last token.
    pub fn set_pure_comments(&mut self, range: Option<CommentRange>)
        requires { IfSome range (IsRangeOf (held self.old.attachment)) }
        ensures { self.new ≡ record self.old { pure_comments = range } }
    {
        self.pure_comments = range;
        self.settled = false;
    }

    /// Sets the range of comments of class `NoSideEffectsNotApplied` before the last token.
    pub fn set_no_side_effects_comments(&mut self, range: Option<CommentRange>)
        requires { IfSome range (IsRangeOf (held self.old.attachment)) }
        ensures { self.new ≡ record self.old { no_side_effects_comments = range } }
    {
        self.no_side_effects_comments = range;
        self.settled = false;
    }

    /// Turns `PureNotApplied` into `Pure` in a range of the comments: a parser has taken them up.
    pub fn mark_pure_comments_applied(&mut self, range: CommentRange)
        requires { IsRangeOf (held self.old.attachment) range }
        ensures { self.new ≡ mark_range pure_applied range self.old }
    {
        mark_pure_within(&mut self.comments, range);
    }

    /// Turns `NoSideEffectsNotApplied` into `NoSideEffects` in a range of the comments: a parser has taken them up.
    pub fn mark_no_side_effects_comments_applied(&mut self, range: CommentRange)
        requires { IsRangeOf (held self.old.attachment) range }
        ensures { self.new ≡ mark_range no_side_effects_applied range self.old }
    {
        mark_no_side_effects_within(&mut self.comments, range);
    }

    /// Attaches the comments that wait to the last token.
    fn trail_pending(&mut self)
        ensures { self.new ≡ record self.old { attachment = trail_pending self.old.attachment } }
    {
        attach_pending(
            &mut self.comments,
            self.processed,
            CommentPosition::Trailing,
            self.previous.end(),
        );
        self.processed = self.comments.len();
    }

    /// Takes notice of the next token: the comments that wait are attached to it or to the token before.
    #[inline(always)]
    pub fn handle_token(&mut self, token: Token)
        ensures { self.new ≡ handle_token token self.old }
    {
        let len = self.comments.len();
        if self.processed < len {
            attach_each_pending(&mut self.comments, self.processed, &self.previous, token);
            self.processed = len;
        }
        self.saw_newline = false;
        self.saw_newline_for_comment = false;
        self.previous = token;
        self.settled = are_none(self.pure_comments, self.no_side_effects_comments);
    }

    /// Only if nothing is kept but the lists and the last token.
    #[inline(always)]
    pub fn is_settled(&self) -> bool
        ensures { result ≡ true → IsSettled self.now }
    {
        self.settled
    }

    /// Takes notice of a token before which there was nothing to tell of, where nothing is kept but the last token.
    #[inline(always)]
    pub fn handle_token_settled(&mut self, token: Token)
        requires { IsSettled self.old }
        ensures { self.new ≡ handle_token token (without_ranges self.old) }
    {
        self.previous = token;
    }

    /// Adds a comment after those that wait, and attaches them if it is a trailing line comment.
    #[inline(always)]
    fn push_comment(
        &mut self,
        start: u32,
        end: u32,
        kind: CommentKind,
        content: CommentContent,
    ) -> Result<(), AllocError>
        requires new { IsNew start self.old }
        requires span { start < end }
        ensures ok { OnOk result (self.new
            ≡ push_comment (found_at (record { start = start; end = end }) kind content) self.old) }
        ensures err { OnErr result (self.new ≡ self.old) }
    {
        let is_line = kind.is_line();
        self.settled = false;
        self.comments.push(Comment {
            span: Span { start, end },
            kind,
            position: CommentPosition::Leading,
            attached_to: 0,
            preceded: self.saw_newline_for_comment,
            followed: is_line,
            content,
        })?;
        let trails = is_line
            && !self.saw_newline
            && !keeps_line_comment_leading(self.previous.kind())
            && !stays_leading(content);
        self.saw_newline = is_line || self.saw_newline;
        self.saw_newline_for_comment = is_line;
        if trails {
            self.trail_pending();
        }
        Ok(())
    }

    /// Notes the comment at an index in the range of its class, if it has one.
    #[inline(always)]
    fn note_class(&mut self, content: CommentContent, index: u32)
        requires fits { index < 2 ^ 32 - 1 }
        requires held { index < length (held self.old.attachment) }
        ensures { self.new ≡ note_class content index self.old }
    {
        match content {
            CommentContent::PureNotApplied => {
                self.pure_comments = extend(self.pure_comments, index);
                self.settled = false;
            }
            CommentContent::NoSideEffectsNotApplied => {
                self.no_side_effects_comments = extend(self.no_side_effects_comments, index);
                self.settled = false;
            }
            _ => {}
        }
    }

    /// Adds a comment, or counts it for the range of its class where it is held already.
    #[inline(always)]
    fn add_comment(
        &mut self,
        start: u32,
        end: u32,
        kind: CommentKind,
        content: CommentContent,
    ) -> Result<(), AllocError>
        requires { start < end }
        ensures ok { OnOk result (self.new
            ≡ add_comment (found_at (record { start = start; end = end }) kind content) self.old) }
        ensures err { OnErr result (self.new ≡ self.old) }
    {
        match new_index(self.comments.as_slice(), start) {
            Some(index) => {
                self.push_comment(start, end, kind, content)?;
                self.note_class(content, index);
            }
            None => {
                if let Some(index) = find_comment(self.comments.as_slice(), start, end) {
                    self.note_class(content, index);
                }
            }
        }
        Ok(())
    }

    /// Adds a comment that ends before the next line end. One that starts at or before the last one is not added, but
    /// counts for the range of its class where it is held already.
    #[inline(always)]
    pub fn add_line_comment(
        &mut self,
        start: u32,
        end: u32,
        kind: CommentKind,
        source_text: &str,
    ) -> Result<(), AllocError>
        requires kind { is_line_kind kind ≡ true }
        requires placed { IsPlacedIn source_text.now kind (record { start = start; end = end }) }
        ensures ok { OnOk result (self.new
            ≡ add_comment (found_in source_text.now kind (record { start = start; end = end })) self.old) }
        ensures err { OnErr result (self.new ≡ self.old) }
    {
        self.add_searched_comment(start, end, kind, source_text, true)
    }

    /// Adds a comment `/* .. */`. One that starts at or before the last one is not added, but counts for the range of
    /// its class where it is held already.
    #[inline(always)]
    pub fn add_block_comment(
        &mut self,
        start: u32,
        end: u32,
        kind: CommentKind,
        source_text: &str,
    ) -> Result<(), AllocError>
        requires kind { is_line_kind kind ≡ false }
        requires placed { IsPlacedIn source_text.now kind (record { start = start; end = end }) }
        ensures ok { OnOk result (self.new
            ≡ add_comment (found_in source_text.now kind (record { start = start; end = end })) self.old) }
        ensures err { OnErr result (self.new ≡ self.old) }
    {
        self.add_searched_comment(start, end, kind, source_text, true)
    }

    /// Adds a comment of any kind, as the two above do. Where its reader knows that neither `@license` nor `@preserve`
    /// stands in it, it is not searched for them.
    #[inline(always)]
    pub fn add_searched_comment(
        &mut self,
        start: u32,
        end: u32,
        kind: CommentKind,
        source_text: &str,
        may_be_licensed: bool,
    ) -> Result<(), AllocError>
        requires placed { IsPlacedIn source_text.now kind (record { start = start; end = end }) }
        requires licensed { may_be_licensed ≡ false
            → is_licensed_in source_text.now kind (record { start = start; end = end }) ≡ false }
        ensures ok { OnOk result (self.new
            ≡ add_comment (found_in source_text.now kind (record { start = start; end = end })) self.old) }
        ensures err { OnErr result (self.new ≡ self.old) }
    {
        let content = class_in(source_text, kind, Span { start, end }, may_be_licensed);
        self.add_comment(start, end, kind, content)
    }

    /// Takes notice of a line end.
    pub fn handle_newline(&mut self)
        ensures { self.new ≡ handle_newline self.old }
    {
        let trails = mark_last_pending(&mut self.comments, self.processed) && !self.saw_newline;
        self.saw_newline = true;
        self.saw_newline_for_comment = true;
        self.settled = false;
        if trails {
            self.trail_pending();
        }
    }

    /// Adds irregular white space. Where it starts at or before the last one, nothing is added.
    pub fn add_irregular_whitespace(&mut self, start: u32, end: u32) -> Result<(), AllocError>
        requires { start < end }
        ensures ok { OnOk result (self.new ≡ add_irregular (record { start = start; end = end }) self.old) }
        ensures err { OnErr result (self.new ≡ self.old) }
    {
        if is_past_spans(self.irregular_whitespaces.as_slice(), start) {
            self.irregular_whitespaces.push(Span { start, end })?;
        }
        Ok(())
    }

    /// How far it has come, between two gaps.
    pub fn lengths(&self) -> TriviaLengths
        requires { self.now.attachment.pending ≡ [] }
        ensures lengths { result ≡ lengths_of self.now }
        ensures ranges { AreRangesUpTo result.comments result.pure_range result.no_side_effects }
    {
        TriviaLengths {
            comments: self.processed as u32,
            irregular: self.irregular_whitespaces.len() as u32,
            saw_newline: self.saw_newline,
            saw_newline_for_comment: self.saw_newline_for_comment,
            previous: self.previous,
            pure_range: self.pure_comments,
            no_side_effects: self.no_side_effects_comments,
        }
    }

    /// Whether it may go back there: no list is shorter than it was, the ranges are of comments that stay, and what
    /// stays starts before the place.
    pub fn can_cut_back(&self, to: &TriviaLengths, place: u32) -> bool
        ensures { IsTrue result ↔ CanCutBack to.now place self.now }
    {
        let comments = to.comments as usize;
        let irregular = to.irregular as usize;
        if comments > self.comments.len() {
            return false;
        }
        if irregular > self.irregular_whitespaces.len() {
            return false;
        }
        if !are_ranges_up_to(to) {
            return false;
        }
        if !is_past_comments(&self.comments[..comments], place) {
            return false;
        }
        is_past_spans(&self.irregular_whitespaces[..irregular], place)
    }

    /// Goes back to where it was, if since then the lists only grew.
    pub fn cut_back(&mut self, to: TriviaLengths)
        requires comments { to.comments ≤ length (held self.old.attachment) }
        requires irregular { to.irregular ≤ length self.old.irregular_whitespaces }
        requires ranges { AreRangesUpTo to.comments to.pure_range to.no_side_effects }
        ensures { self.new ≡ cut_to to self.old }
    {
        self.comments.truncate(to.comments as usize);
        self.irregular_whitespaces.truncate(to.irregular as usize);
        self.processed = to.comments as usize;
        self.saw_newline = to.saw_newline;
        self.saw_newline_for_comment = to.saw_newline_for_comment;
        self.previous = to.previous;
        self.pure_comments = to.pure_range;
        self.no_side_effects_comments = to.no_side_effects;
        self.settled = false;
    }
}
