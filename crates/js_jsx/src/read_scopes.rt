//! What is asked of the scopes that are open, however they are kept, and what a token changes of them.

ghost use Rattle.std.specs.Prelude.{◌≡◌, ◌+◌, ◌<◌, ◌^◌, ◌&&◌, not, List, drop, slice_get, Some, IfSome};
ghost use Rattle.js_jsx.specs.declared.scope.Scope.{Scope};
ghost use Rattle.js_jsx.specs.Changes.{changed, closed, closes, left};
ghost use Rattle.js_jsx.specs.Scopes.{from_brace, is_children, is_code, last_brace, passes, top};
ghost use Rattle.js_jsx.specs.Scopes.{without_children, without_tags, without_types};
ghost use Rattle.js_jsx.specs.Steps.{scopes_after};

use crate::change::Change;
use crate::class::TokenClass;
use crate::scope::Scope;
use crate::step::ScopesChange;

/// The scopes that are open, as they are asked. The rule of JSX stands over these questions, so that who keeps the
/// scopes may keep them as the steps ask: in one stack, where tokens come one after the other, or behind links, where
/// what was open is kept for each token.
pub trait ReadScopes: Drop {
    /// The scopes, the one that was opened last first.
    ghost scopes: { Self → List Scope };

    /// The scope that has so many above it, if there is one.
    fn at(&self, depth: usize) -> Option<Scope>
        ensures is { result ≡ slice_get (scopes self.now) depth }
        ensures within { IfSome result (λ scope. depth + 1 < 2 ^ 64) };

    /// The last open brace, if one is open.
    fn last_brace(&self) -> Option<Scope>
        ensures { result ≡ last_brace (scopes self.now) };

    /// How many scopes there are above the last open brace, or all of them where none is open.
    fn above_brace(&self) -> usize
        ensures { drop result (scopes self.now) ≡ from_brace (scopes self.now) };

    /// How many tags were opened last.
    fn tags(&self) -> usize
        ensures { drop result (scopes self.now) ≡ without_tags (scopes self.now) };

    /// How many tags, with the type arguments in them, were opened last.
    fn types(&self) -> usize
        ensures { drop result (scopes self.now) ≡ without_types (scopes self.now) };
}

/// Whether a token of the class closes the scope.
fn closes(class: TokenClass, scope: Scope) -> bool
    ensures { result ≡ closes class (Some scope) }
{
    match class {
        TokenClass::RightCurly => scope.is_curly(),
        TokenClass::TemplateTail => scope.is_template(),
        _ => false,
    }
}

/// The scope that was opened last, if one is open.
pub(crate) fn top<S: ReadScopes>(scopes: &S) -> Option<Scope>
    ensures { result ≡ top (S.scopes scopes.now) }
{
    scopes.at(0)
}

/// Whether a brace was opened last, or nothing is open.
pub(crate) fn are_code<S: ReadScopes>(scopes: &S) -> bool
    ensures { result ≡ is_code (top (S.scopes scopes.now)) }
{
    match top(scopes) {
        Some(scope) => scope.is_brace(),
        None => true,
    }
}

/// The same, and no operand has ended but by the last token.
pub(crate) fn are_plain<S: ReadScopes>(scopes: &S, has_ended: bool) -> bool
    ensures { result ≡ (is_code (top (S.scopes scopes.now)) && not has_ended) }
{
    are_code(scopes) && !has_ended
}

/// How many scopes end with a closing tag: the tag, and the children below it.
fn element<S: ReadScopes>(scopes: &S) -> usize
    ensures { drop result (S.scopes scopes.now) ≡ without_children (drop 1 (S.scopes scopes.now)) }
{
    match scopes.at(1) {
        Some(Scope::Children) => 2,
        _ => 1,
    }
}

/// How many scopes end by a change that opens none.
fn ended_by<S: ReadScopes>(scopes: &S, change: Change) -> usize
    ensures { drop result (S.scopes scopes.now) ≡ left change (S.scopes scopes.now) }
{
    match change {
        Change::Stays | Change::Opens(_) | Change::Becomes(_) => 0,
        Change::EndsScope | Change::EndsEmptyElement => 1,
        Change::EndsElement => element(scopes),
        Change::EndsTags => scopes.tags(),
        Change::EndsTypes => scopes.types(),
        Change::EndsUpToBrace => scopes.above_brace(),
    }
}

/// How many scopes end by a change that opens none, with the one that a token of the class closes then.
pub(crate) fn ended<S: ReadScopes>(scopes: &S, change: Change, class: TokenClass) -> usize
    ensures { drop result (S.scopes scopes.now) ≡ closed class (left change (S.scopes scopes.now)) }
{
    let count = ended_by(scopes, change);
    match scopes.at(count) {
        Some(scope) => {
            if closes(class, scope) {
                count + 1
            } else {
                count
            }
        }
        None => count,
    }
}

/// Whether children have so many scopes above them.
fn is_child_at<S: ReadScopes>(scopes: &S, depth: usize) -> bool
    ensures { result ≡ passes is_children (slice_get (S.scopes scopes.now) depth) }
{
    match scopes.at(depth) {
        Some(scope) => scope.is_children(),
        None => false,
    }
}

/// Whether children were opened last, behind a token of the class with the change.
pub(crate) fn are_children_behind<S: ReadScopes>(
    scopes: &S,
    change: Change,
    class: TokenClass,
) -> bool
    ensures { result ≡ passes is_children (top (changed change class (S.scopes scopes.now))) }
{
    match change {
        Change::Opens(scope) | Change::Becomes(scope) => scope.is_children(),
        _ => is_child_at(scopes, ended(scopes, change, class)),
    }
}

/// What a token of the class with the change does to the scopes.
pub(crate) fn scopes_change<S: ReadScopes>(
    scopes: &S,
    change: Change,
    class: TokenClass,
) -> ScopesChange
    ensures { scopes_after result (S.scopes scopes.now) ≡ changed change class (S.scopes scopes.now) }
{
    match change {
        Change::Opens(scope) => ScopesChange::Opens(scope),
        Change::Becomes(scope) => ScopesChange::Becomes(scope),
        _ => ScopesChange::Ends(ended(scopes, change, class)),
    }
}
