//! Classes of elements, by what a token or a comment is.

ghost use Rattle.std.specs.Prelude.{◌≡◌};
ghost use Rattle.js_page.specs.Classes.{class_of_comment, class_of_token, class_of_other, opening_text};

use js_kind::Kind;
use js_text::CommentContent;

/// What the element of a token or a comment shows.
#[derive(Clone, Copy, PartialEq, Eq, Debug)]
pub enum Class {
    /// A word that is reserved.
    Reserved,
    /// A word that means something at some places alone.
    Word,
    Name,
    PrivateName,
    Number,
    /// A string.
    Text,
    /// A part of a template.
    Template,
    RegularExpression,
    Punctuator,
    /// The text of a child of JSX.
    JsxText,
    /// A comment of no class of its own.
    Comment,
    /// A comment that documents.
    Documentation,
    /// A comment that holds a licence.
    Licence,
    /// A comment that tells tools something.
    Annotation,
    /// The end of the source.
    End,
    /// What is no token of the language.
    Unknown,
}

impl Class {
    /// The class of a token that is neither a word nor a number.
    #[tactic(auto, unfolding(crate::specs::Classes::class_of_other))]
    fn of_other(kind: Kind) -> Class
        ensures { result ≡ class_of_other kind }
    {
        match kind {
            Kind::Ident => Class::Name,
            Kind::PrivateIdentifier => Class::PrivateName,
            Kind::Str => Class::Text,
            Kind::NoSubstitutionTemplate => Class::Template,
            Kind::TemplateHead => Class::Template,
            Kind::TemplateMiddle => Class::Template,
            Kind::TemplateTail => Class::Template,
            Kind::RegExp => Class::RegularExpression,
            Kind::JSXText => Class::JsxText,
            Kind::HashbangComment => Class::Comment,
            Kind::Eof => Class::End,
            Kind::Undetermined => Class::Unknown,
            Kind::Skip => Class::Unknown,
            _ => Class::Punctuator,
        }
    }

    /// The class of a token.
    pub fn of_token(kind: Kind) -> Class
        ensures { result ≡ class_of_token kind }
    {
        if kind.is_reserved_keyword() {
            Class::Reserved
        } else if kind.is_any_keyword() {
            Class::Word
        } else if kind.is_number() {
            Class::Number
        } else {
            Class::of_other(kind)
        }
    }

    /// The class of a comment.
    pub fn of_comment(content: CommentContent) -> Class
        ensures { result ≡ class_of_comment content }
    {
        match content {
            CommentContent::None => Class::Comment,
            CommentContent::Legal | CommentContent::JsdocLegal => Class::Licence,
            CommentContent::Jsdoc => Class::Documentation,
            CommentContent::Pure
            | CommentContent::PureNotApplied
            | CommentContent::NoSideEffects
            | CommentContent::NoSideEffectsNotApplied
            | CommentContent::Webpack
            | CommentContent::Vite
            | CommentContent::CoverageIgnore
            | CommentContent::CoverageIgnoreFile
            | CommentContent::Turbopack
            | CommentContent::PropertyKey => Class::Annotation,
        }
    }

    /// What opens an element of the class.
    pub(crate) fn opening(self) -> &'static str
        ensures { result.now ≡ opening_text self }
    {
        match self {
            Class::Reserved => "<i class=k>",
            Class::Word => "<i class=w>",
            Class::Name => "<i class=n>",
            Class::PrivateName => "<i class=p>",
            Class::Number => "<i class=d>",
            Class::Text => "<i class=s>",
            Class::Template => "<i class=t>",
            Class::RegularExpression => "<i class=r>",
            Class::Punctuator => "<i class=o>",
            Class::JsxText => "<i class=x>",
            Class::Comment => "<i class=c>",
            Class::Documentation => "<i class=j>",
            Class::Licence => "<i class=l>",
            Class::Annotation => "<i class=a>",
            Class::End => "<i class=e>",
            Class::Unknown => "<i class=u>",
        }
    }
}
