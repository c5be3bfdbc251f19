//! The scopes of the rule of js_jsx behind links.

ghost use Rattle.std.specs.Prelude.{◌≡◌, ◌<◌, ◌^◌, List, drop, length, map, IfOk};
ghost use Rattle.js_jsx.specs.Scopes.{skip_while, top};
ghost use Rattle.js_jsx.specs.Steps.{scopes_after};
ghost use Rattle.js_jsx.specs.declared.scope.Scope.{Scope};
ghost use Rattle.js_document.specs.LinkedScopes.{is_passed, scope_number, scope_numbered, scopes_at};
ghost use Rattle.js_document.specs.Trie.{HasMore, IsOpen};

use crate::open::OpenTrie;
use js_jsx::{ReadScopes, Scope, ScopesChange};
use std::alloc::AllocError;
use std::marker::Model;

/// The number of a scope.
fn scope_number(scope: Scope) -> u8
    ensures is { result ≡ scope_number scope }
    ensures few { result < 8 }
{
    match scope {
        Scope::Block => 0,
        Scope::Template => 1,
        Scope::Container => 2,
        Scope::OpeningTag => 3,
        Scope::ClosingTag => 4,
        Scope::TypeArguments => 5,
        Scope::Children => 6,
    }
}

/// The scope with the number.
fn scope_numbered(number: u8) -> Scope
    ensures { result ≡ scope_numbered number }
{
    match number {
        0 => Scope::Block,
        1 => Scope::Template,
        2 => Scope::Container,
        3 => Scope::OpeningTag,
        4 => Scope::ClosingTag,
        5 => Scope::TypeArguments,
        _ => Scope::Children,
    }
}

/// Which scopes are passed.
#[derive(Clone, Copy)]
enum Passed {
    Tags,
    /// Tags, and the type arguments in them.
    TagsAndTypes,
    AllButBraces,
}

impl Passed {
    /// Whether the scope is one of them.
    fn takes(self, scope: Scope) -> bool
        ensures { result ≡ is_passed self scope }
    {
        match self {
            Passed::Tags => scope.is_tag(),
            Passed::TagsAndTypes => scope.is_within_tag(),
            Passed::AllButBraces => !scope.is_brace(),
        }
    }
}

/// A link has 32 bits.
fn is_short(link: u32)
    ensures { link < 2 ^ 32 }
{
    let _ = link;
}

/// The scopes that are open where a link leads to, as they are asked.
#[derive(Drop)]
pub(crate) struct LinkedScopes<'a> {
    open: &'a OpenTrie,
    link: u32,
}

impl<'a> Model for LinkedScopes<'a> {
    ghost use Rattle.std.specs.Prelude.{List};
    ghost use Rattle.js_jsx.specs.declared.scope.Scope.{Scope};
    ghost use Rattle.js_document.specs.LinkedScopes.{scopes_at};

    ghost Value = { List Scope };

    ghost view = { λ s. scopes_at s.open.now s.link };
}

impl<'a> LinkedScopes<'a> {
    /// Those of this link.
    pub(crate) fn new(open: &'a OpenTrie, link: u32) -> LinkedScopes<'a>
        ensures { result ≡ scopes_at open.now link }
    {
        LinkedScopes { open, link }
    }

    /// There are fewer of them than links.
    fn are_few(&self)
        ensures { length self.now < 2 ^ 32 }
    {
        is_short(self.link);
    }

    /// The scope that was opened last, if one is open.
    fn top(&self) -> Option<Scope>
        ensures { result ≡ top self.now }
    {
        match self.open.last(self.link) {
            Some(number) => Some(scope_numbered(number)),
            None => None,
        }
    }

    /// Those without so many, the one that was opened last first.
    fn without(&self, count: usize) -> LinkedScopes<'a>
        ensures { result ≡ drop count self.now }
    {
        LinkedScopes {
            open: self.open,
            link: self.open.close_all(self.link, count),
        }
    }

    /// How many of those that are passed were opened last.
    fn passed(&self, passed: Passed) -> usize
        ensures { drop result self.now ≡ skip_while (is_passed passed) self.now }
    {
        self.are_few();
        let mut rest = self.without(0);
        let mut count = 0;
        while let Some(scope) = rest.top() {
            if !passed.takes(scope) {
                break;
            }
            let below = rest.without(1);
            rest = below;
            count += 1;
        }
        count
    }
}

impl<'a> ReadScopes for LinkedScopes<'a> {
    ghost scopes = { λ s. s };

    fn at(&self, depth: usize) -> Option<Scope> {
        self.are_few();
        self.without(depth).top()
    }

    fn last_brace(&self) -> Option<Scope> {
        match self.open.last_brace(self.link) {
            Some(number) => Some(scope_numbered(number)),
            None => None,
        }
    }

    fn above_brace(&self) -> usize {
        self.passed(Passed::AllButBraces)
    }

    fn tags(&self) -> usize {
        self.passed(Passed::Tags)
    }

    fn types(&self) -> usize {
        self.passed(Passed::TagsAndTypes)
    }
}

/// The link to what is open once what a token changes is carried out. Where there is no memory for a scope, all stays
/// as it was.
pub(crate) fn carry_out(
    open: &mut OpenTrie,
    link: u32,
    change: ScopesChange,
) -> Result<u32, AllocError>
    requires { (scopes : List Scope) × IsOpen open.old link (map scope_number scopes) }
    ensures ok { (scopes : List Scope) → IsOpen open.old link (map scope_number scopes)
        → IfOk result (λ new. IsOpen open.new new (map scope_number (scopes_after change scopes))) }
    ensures more { HasMore open.old open.new }
{
    match change {
        ScopesChange::Opens(scope) => open.open(link, scope_number(scope)),
        ScopesChange::Becomes(scope) => {
            let below = open.close(link);
            open.open(below, scope_number(scope))
        }
        ScopesChange::Ends(count) => Ok(open.close_all(link, count)),
    }
}
