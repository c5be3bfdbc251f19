//! What a token changes of what is kept.

use crate::change::TagPlace;
use crate::scope::Scope;

/// What a token changes of the scopes that are open.
#[derive(Clone, Copy)]
pub enum ScopesChange {
    /// One opens.
    Opens(Scope),
    /// One opens in the place of the one that was opened last, if one is open.
    Becomes(Scope),
    /// So many end, the one that was opened last first.
    Ends(usize),
}

/// What a token changes of what is kept: so far it is told, and who keeps the scopes carries it out.
#[derive(Clone, Copy)]
pub struct StateStep {
    /// What it changes of the scopes that are open.
    pub scopes: ScopesChange,
    /// Which of its own tokens comes next then in what was opened last, if it is a tag.
    pub place: TagPlace,
    /// Whether an operand has ended behind the token, though it does not tell.
    pub has_ended: bool,
}
