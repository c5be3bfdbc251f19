//! What tokens do to what is open.

ghost use Rattle.std.specs.Prelude.{◌≡◌, ◌↔◌, IsTrue};
ghost use Rattle.js_jsx.specs.Changes.{change_in_children, change_in_code, change_in_types, change_within_tag};
ghost use Rattle.js_jsx.specs.Changes.{element_end, ends_element, ends_tags, in_place_of_tag, next_place, place_behind};
ghost use Rattle.js_jsx.specs.Changes.{place_in, stays, was_no_tag};

use crate::class::TokenClass;
use crate::scope::Scope;

/// What a token does to the scopes that are open.
#[derive(Clone, Copy)]
pub(crate) enum Change {
    /// None opens, and none ends but one that it closes.
    Stays,
    /// One opens.
    Opens(Scope),
    /// One opens in the place of the one that was opened last.
    Becomes(Scope),
    /// The one that was opened last ends.
    EndsScope,
    /// An element ends: its closing tag, and the children below it.
    EndsElement,
    /// An element without children ends: its tag.
    EndsEmptyElement,
    /// The tags end that were opened last.
    EndsTags,
    /// The tags, and the type arguments in them, end that were opened last.
    EndsTypes,
    /// All above the last open brace end.
    EndsUpToBrace,
}

/// Which of its own tokens comes next in a tag.
#[derive(Clone, Copy)]
pub enum TagPlace {
    /// The one behind its `<`.
    First,
    Second,
    /// The third one, where the second one is the word `extends`.
    BehindExtends,
    Later,
}

impl Change {
    /// The same, where the tag that was opened last was none.
    pub fn in_place_of_tag(self) -> Change
        ensures { result ≡ in_place_of_tag self }
    {
        match self {
            Change::Opens(scope) => Change::Becomes(scope),
            _ => Change::EndsScope,
        }
    }

    /// Whether an element has ended.
    pub fn ends_element(self) -> bool
        ensures { result ≡ ends_element self }
    {
        matches!(self, Change::EndsElement | Change::EndsEmptyElement)
    }

    /// Whether nothing opens or ends.
    pub fn stays(self) -> bool
        ensures { result ≡ stays self }
    {
        matches!(self, Change::Stays)
    }
}

impl TagPlace {
    /// Whether it is the same place.
    pub fn is_same(self, other: TagPlace) -> bool
        ensures { IsTrue result ↔ (self ≡ other) }
    {
        matches!(
            (self, other),
            (TagPlace::First, TagPlace::First)
                | (TagPlace::Second, TagPlace::Second)
                | (TagPlace::BehindExtends, TagPlace::BehindExtends)
                | (TagPlace::Later, TagPlace::Later)
        )
    }

    /// Which of its tokens comes next behind one of the class.
    pub(crate) fn next(self, class: TokenClass) -> TagPlace
        ensures { result ≡ next_place self class }
    {
        match (self, class) {
            (TagPlace::First, _) => TagPlace::Second,
            (TagPlace::Second, TokenClass::Extends) => TagPlace::BehindExtends,
            _ => TagPlace::Later,
        }
    }

    /// Which of its tokens comes first in a scope.
    pub(crate) fn in_scope(scope: Scope) -> TagPlace
        ensures { result ≡ place_in scope }
    {
        match scope {
            Scope::OpeningTag => TagPlace::First,
            Scope::ClosingTag => TagPlace::Second,
            _ => TagPlace::Later,
        }
    }

    /// Whether a token of the class at this place tells that what was taken for a tag was none.
    pub(crate) fn tells_no_tag(self, class: TokenClass) -> bool
        ensures { result ≡ was_no_tag self class }
    {
        match self {
            TagPlace::First | TagPlace::Later => matches!(class, TokenClass::Comma),
            TagPlace::Second => matches!(class, TokenClass::Comma | TokenClass::Equal),
            TagPlace::BehindExtends => !matches!(
                class,
                TokenClass::Equal | TokenClass::RightAngle | TokenClass::Slash
            ),
        }
    }

    /// Which of its own tokens comes next in what was opened last, behind a token of the class with the change.
    pub(crate) fn behind(self, is_in_tag: bool, class: TokenClass, change: Change) -> TagPlace
        ensures { result ≡ place_behind is_in_tag self class change }
    {
        match change {
            Change::Stays if is_in_tag => self.next(class),
            Change::Stays => self,
            Change::Opens(scope) | Change::Becomes(scope) => TagPlace::in_scope(scope),
            _ => TagPlace::Later,
        }
    }
}

/// What a token of the class does among children.
pub(crate) fn change_in_children(has_brace: bool, class: TokenClass) -> Change
    ensures { result ≡ change_in_children has_brace class }
{
    match class {
        TokenClass::LeftAngle => Change::Opens(Scope::OpeningTag),
        TokenClass::LeftCurly => Change::Opens(Scope::Container),
        TokenClass::End if has_brace => Change::EndsUpToBrace,
        _ => Change::Stays,
    }
}

/// What a token of the class does in type arguments.
pub(crate) fn change_in_types(class: TokenClass) -> Change
    ensures { result ≡ change_in_types class }
{
    match class {
        TokenClass::LeftAngle => Change::Opens(Scope::TypeArguments),
        TokenClass::RightAngle => Change::EndsScope,
        TokenClass::LeftCurly => Change::Opens(Scope::Block),
        TokenClass::TemplateHead => Change::Opens(Scope::Template),
        TokenClass::Semicolon => Change::EndsTypes,
        _ => Change::Stays,
    }
}

/// What a token of the class does outside of tags and children, where a `<` may open a tag or not.
pub(crate) fn change_in_code(may_open: bool, class: TokenClass) -> Change
    ensures { result ≡ change_in_code may_open class }
{
    match class {
        TokenClass::LeftAngle if may_open => Change::Opens(Scope::OpeningTag),
        TokenClass::LeftCurly => Change::Opens(Scope::Block),
        TokenClass::TemplateHead => Change::Opens(Scope::Template),
        _ => Change::Stays,
    }
}

/// Whether a token of the class tells that all that was taken for tags was none.
pub(crate) fn ends_tags(class: TokenClass) -> bool
    ensures { result ≡ ends_tags class }
{
    matches!(class, TokenClass::Semicolon | TokenClass::RightBracket)
}

/// What a token of the class does in a tag that goes on, behind one of the class `before`.
pub(crate) fn change_within_tag(
    is_closing: bool,
    has_brace: bool,
    place: TagPlace,
    before: TokenClass,
    class: TokenClass,
) -> Change
    ensures { result ≡ change_within_tag is_closing has_brace place before class }
{
    match class {
        TokenClass::Slash => match place {
            TagPlace::First => Change::Becomes(Scope::ClosingTag),
            _ => Change::Stays,
        },
        TokenClass::LeftCurly => Change::Opens(Scope::Container),
        TokenClass::TemplateHead => Change::Opens(Scope::Template),
        TokenClass::LeftAngle => match before {
            TokenClass::Equal => Change::Opens(Scope::OpeningTag),
            _ => Change::Opens(Scope::TypeArguments),
        },
        TokenClass::RightCurly | TokenClass::TemplateMiddle | TokenClass::TemplateTail
            if has_brace => { Change::EndsUpToBrace }
        TokenClass::RightAngle => element_end(is_closing, before),
        _ => Change::Stays,
    }
}

/// What the `>` of a tag does behind a token of the class `before`.
fn element_end(is_closing: bool, before: TokenClass) -> Change
    ensures { result ≡ element_end is_closing before }
{
    if is_closing {
        return Change::EndsElement;
    }
    match before {
        TokenClass::Slash => Change::EndsEmptyElement,
        _ => Change::Becomes(Scope::Children),
    }
}
