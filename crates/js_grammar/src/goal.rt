//! The goals of reading, and the kinds of tokens that they may read again.

ghost use Rattle.std.specs.Prelude.{◌≡◌, true, length};
ghost use Rattle.js_kind.specs.Kinds.{is_one_of, kind_text};
ghost use Rattle.js_grammar.specs.ReLexed.{again_kinds, is_re_lexed};

use js_kind::Kind;

/// What a reading may find.
#[derive(Clone, Copy, PartialEq, Eq, Debug)]
pub enum Goal {
    /// What the first reading of a source may find: a hashbang, or what any plain reading may.
    First,
    /// A token of the plain goal.
    Next,
    /// The next part of a template, from the `}` that was read last.
    TemplateTail,
    /// A regular expression, from the `/` on that was read last.
    RegularExpression,
    /// The longest punctuator, from the `>` on that was read last.
    RightAngle,
    /// The `<` alone with which the token begins that was read last.
    TypeScriptLeftAngle,
    /// The `>` alone with which the token begins that was read last.
    TypeScriptRightAngle,
    /// A name of JSX, of which the part before its first `-` was read last.
    JsxIdentifier,
    /// What stands between two tags of JSX: its text, or the mark that begins a tag or an expression.
    JsxChild,
    /// The value of an attribute of JSX: a string without escapes, or a token of the plain goal.
    JsxAttributeValue,
}

impl Goal {
    /// Whether the goal may read tokens of the kind again. `Goal::JsxIdentifier` goes by more than a kind: it reads on
    /// behind names, and is not meant here.
    #[inline(always)]
    pub fn reads_again(self, kind: Kind) -> bool
        ensures { result ≡ is_one_of (again_kinds self) kind }
    {
        match self {
            Goal::TemplateTail => matches!(kind, Kind::RCurly),
            Goal::RegularExpression => matches!(kind, Kind::Slash | Kind::SlashEq),
            Goal::RightAngle => matches!(kind, Kind::RAngle),
            Goal::TypeScriptLeftAngle => {
                matches!(kind, Kind::ShiftLeft | Kind::LtEq | Kind::ShiftLeftEq)
            }
            Goal::TypeScriptRightAngle => matches!(kind, Kind::ShiftRight | Kind::ShiftRight3),
            Goal::First
            | Goal::Next
            | Goal::JsxIdentifier
            | Goal::JsxChild
            | Goal::JsxAttributeValue => false,
        }
    }
}

/// Whether a goal may read tokens of the kind again.
#[tactic(auto, using(crate::proofs::AgainKinds::by_last_goal))]
pub fn is_re_lexed(kind: Kind) -> bool
    ensures { result ≡ is_re_lexed kind }
{
    if Goal::TemplateTail.reads_again(kind) {
        return true;
    }
    if Goal::RegularExpression.reads_again(kind) {
        return true;
    }
    if Goal::RightAngle.reads_again(kind) {
        return true;
    }
    if Goal::TypeScriptLeftAngle.reads_again(kind) {
        return true;
    }
    Goal::TypeScriptRightAngle.reads_again(kind)
}

/// How many bytes the one spelling of tokens of the kind has, which may be read again.
#[tactic(auto, using(crate::proofs::AgainKinds::spelled_shortly))]
pub fn spelled_length(kind: Kind) -> u32
    requires { is_re_lexed kind ≡ true }
    ensures { result ≡ length (kind_text kind) }
{
    kind.to_str().len() as u32
}
