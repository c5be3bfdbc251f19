//! Comments as data.

ghost use Rattle.std.specs.Prelude.{◌≡◌, not};
ghost use Rattle.js_text.specs.CommentNewlines.{newlines_of};
ghost use Rattle.js_text.specs.Comment.{comment_kind_name, comment_position_name, comment_content_name, is_line_kind};
ghost use Rattle.js_text.specs.Comment.{opening_length, closing_length, HoldsMarks, content_span};

use crate::comment_newlines::CommentNewlines;
use crate::span::Span;

/// How a comment is written.
#[derive(Clone, Copy, PartialEq, Eq, Debug)]
pub enum CommentKind {
    /// `// ..`
    Line,
    /// `/* .. */` without a line end inside.
    SingleLineBlock,
    /// `/* .. */` with a line end inside.
    MultiLineBlock,
    /// `<!-- ..` (ECMA-262 B.1.1).
    HtmlOpen,
    /// `--> ..` (ECMA-262 B.1.1).
    HtmlClose,
}

impl CommentKind {
    /// The name of the variant.
    pub fn name(self) -> &'static str
        ensures { result.now ≡ comment_kind_name self }
    {
        match self {
            CommentKind::Line => "Line",
            CommentKind::SingleLineBlock => "SingleLineBlock",
            CommentKind::MultiLineBlock => "MultiLineBlock",
            CommentKind::HtmlOpen => "HtmlOpen",
            CommentKind::HtmlClose => "HtmlClose",
        }
    }

    /// Whether such a comment ends before the next line end.
    pub fn is_line(self) -> bool
        ensures { result ≡ is_line_kind self }
    {
        match self {
            CommentKind::Line | CommentKind::HtmlOpen | CommentKind::HtmlClose => true,
            CommentKind::SingleLineBlock | CommentKind::MultiLineBlock => false,
        }
    }

    /// How many bytes the mark in front has.
    pub fn opening_length(self) -> u32
        ensures { result ≡ opening_length self }
    {
        match self {
            CommentKind::Line | CommentKind::SingleLineBlock | CommentKind::MultiLineBlock => 2,
            CommentKind::HtmlOpen => 4,
            CommentKind::HtmlClose => 3,
        }
    }

    /// How many bytes the mark at the end has.
    pub fn closing_length(self) -> u32
        ensures { result ≡ closing_length self }
    {
        match self {
            CommentKind::SingleLineBlock | CommentKind::MultiLineBlock => 2,
            CommentKind::Line | CommentKind::HtmlOpen | CommentKind::HtmlClose => 0,
        }
    }
}

/// Whether a comment belongs to the token after it or to the one before it.
#[derive(Clone, Copy, PartialEq, Eq, Debug)]
pub enum CommentPosition {
    /// To the token after it.
    Leading,
    /// To the token before it.
    Trailing,
}

impl CommentPosition {
    /// The name of the variant.
    pub fn name(self) -> &'static str
        ensures { result.now ≡ comment_position_name self }
    {
        match self {
            CommentPosition::Leading => "Leading",
            CommentPosition::Trailing => "Trailing",
        }
    }
}

/// What a comment tells tools.
#[derive(Clone, Copy, PartialEq, Eq, Debug)]
pub enum CommentContent {
    /// Nothing.
    None,
    /// A licence, as `/*! .. */` or `@license`.
    Legal,
    /// Documentation, as `/** .. */`.
    Jsdoc,
    /// Documentation with a licence in it.
    JsdocLegal,
    /// `@__PURE__` before a call, taken up by a parser.
    Pure,
    /// `@__PURE__`, not taken up yet.
    PureNotApplied,
    /// `@__NO_SIDE_EFFECTS__` before a function, taken up by a parser.
    NoSideEffects,
    /// `@__NO_SIDE_EFFECTS__`, not taken up yet.
    NoSideEffectsNotApplied,
    /// A hint for webpack.
    Webpack,
    /// A hint for Vite.
    Vite,
    /// What follows does not count as uncovered by tests.
    CoverageIgnore,
    /// The whole file does not count as uncovered by tests.
    CoverageIgnoreFile,
    /// A hint for Turbopack.
    Turbopack,
    /// `@__KEY__` before a string that names a property.
    PropertyKey,
}

impl CommentContent {
    /// The name of the variant.
    pub fn name(self) -> &'static str
        ensures { result.now ≡ comment_content_name self }
    {
        match self {
            CommentContent::None => "None",
            CommentContent::Legal => "Legal",
            CommentContent::Jsdoc => "Jsdoc",
            CommentContent::JsdocLegal => "JsdocLegal",
            CommentContent::Pure => "Pure",
            CommentContent::PureNotApplied => "PureNotApplied",
            CommentContent::NoSideEffects => "NoSideEffects",
            CommentContent::NoSideEffectsNotApplied => "NoSideEffectsNotApplied",
            CommentContent::Webpack => "Webpack",
            CommentContent::Vite => "Vite",
            CommentContent::CoverageIgnore => "CoverageIgnore",
            CommentContent::CoverageIgnoreFile => "CoverageIgnoreFile",
            CommentContent::Turbopack => "Turbopack",
            CommentContent::PropertyKey => "PropertyKey",
        }
    }
}

/// A comment of a source text.
#[derive(Clone, Copy, PartialEq, Eq, Debug)]
pub struct Comment {
    /// The whole comment with its marks, without the line end after it.
    pub span: Span,
    /// How it is written.
    pub kind: CommentKind,
    /// To which token it belongs.
    pub position: CommentPosition,
    /// The start of the token that it leads, or the end of the token that it trails.
    pub attached_to: u32,
    /// A line has ended before it.
    pub preceded: bool,
    /// A line ends after it.
    pub followed: bool,
    /// What it tells tools.
    pub content: CommentContent,
}

impl Comment {
    /// Whether it ends before the next line end.
    pub fn is_line(&self) -> bool
        ensures { result ≡ is_line_kind self.now.kind }
    {
        self.kind.is_line()
    }

    /// Whether it is `/* .. */`.
    pub fn is_block(&self) -> bool
        ensures { result ≡ not (is_line_kind self.now.kind) }
    {
        !self.kind.is_line()
    }

    /// The span without the marks.
    pub fn content_span(&self) -> Span
        requires { HoldsMarks self.now.kind self.now.span }
        ensures { result ≡ content_span self.now.kind self.now.span }
    {
        let Span { start, end } = self.span;
        Span {
            start: start + self.kind.opening_length(),
            end: end - self.kind.closing_length(),
        }
    }

    /// On which sides of it lines end.
    pub fn newlines(&self) -> CommentNewlines
        ensures { result ≡ newlines_of self.now.preceded self.now.followed }
    {
        CommentNewlines::of_sides(self.preceded, self.followed)
    }
}

/// Comments from one index up to another, without it.
#[derive(Clone, Copy, PartialEq, Eq, Debug)]
pub struct CommentRange {
    pub start: u32,
    pub end: u32,
}
