//! Commands, and what each of them does to a session.

ghost use Rattle.std.specs.Prelude.{◌≡◌};
ghost use Rattle.js_session.specs.Effects.{effect_of, is_lasting, is_step};

use js_grammar::Goal;
use js_text::ItemList;

/// What a session does next.
#[derive(Clone, Copy, PartialEq, Eq, Debug)]
pub enum Command {
    /// Reads the next token, which is live from then on.
    Next,
    /// Reads what stands between two tags of JSX, which is live from then on.
    JsxChild,
    /// Reads the value of an attribute of JSX, which is live from then on.
    JsxAttr,
    /// Reads a regular expression from the `/` or `/=` on that is the last live token, and stands in its place.
    Regex,
    /// Reads on a template behind the `}` that is the last live token, with what is read live in its place.
    TemplateTail,
    /// Reads on a name of JSX where a `-` follows the last live token, a name, and stands in its place.
    JsxName,
    /// Reads the longest punctuator from the `>` on that is the last live token, and stands in its place.
    RAngle,
    /// Reads the `<` alone with which the last live token begins, a compound, and stands in its place.
    TsLAngle,
    /// Reads the `>` alone with which the last live token begins, a compound, and stands in its place.
    TsRAngle,
    /// Reads the next token, and goes back before it.
    Peek,
    /// Marks what is live.
    Mark,
    /// Goes back to the last mark that is open, and closes it.
    Rewind,
    /// Closes the last mark that is open.
    Commit,
}

/// What a command does.
#[derive(Clone, Copy, PartialEq, Eq, Debug)]
pub enum Effect {
    /// Reads on behind the last live token; what is read is live from then on.
    Reads(Goal),
    /// Reads on, and goes back.
    Peeks(Goal),
    /// Reads the last live token again; what is read stands in its place, where it fits.
    ReLexes(Goal),
    /// Opens a mark.
    Opens,
    /// Goes back to the last open mark, and closes it.
    Rewinds,
    /// Closes the last open mark.
    Commits,
}

/// A growing list of commands.
pub type CommandList = ItemList<Command>;

impl Command {
    /// What the command does: all else that is asked of a command is asked of this.
    pub fn effect(self) -> Effect
        ensures { result ≡ effect_of self }
    {
        match self {
            Command::Next => Effect::Reads(Goal::Next),
            Command::JsxChild => Effect::Reads(Goal::JsxChild),
            Command::JsxAttr => Effect::Reads(Goal::JsxAttributeValue),
            Command::Regex => Effect::ReLexes(Goal::RegularExpression),
            Command::TemplateTail => Effect::ReLexes(Goal::TemplateTail),
            Command::JsxName => Effect::ReLexes(Goal::JsxIdentifier),
            Command::RAngle => Effect::ReLexes(Goal::RightAngle),
            Command::TsLAngle => Effect::ReLexes(Goal::TypeScriptLeftAngle),
            Command::TsRAngle => Effect::ReLexes(Goal::TypeScriptRightAngle),
            Command::Peek => Effect::Peeks(Goal::Next),
            Command::Mark => Effect::Opens,
            Command::Rewind => Effect::Rewinds,
            Command::Commit => Effect::Commits,
        }
    }

    /// Whether the command gives a row.
    pub fn is_step(self) -> bool
        ensures { result ≡ is_step self }
    {
        match self.effect() {
            Effect::Reads(_) | Effect::Peeks(_) | Effect::ReLexes(_) => true,
            Effect::Opens | Effect::Rewinds | Effect::Commits => false,
        }
    }

    /// Whether the command gives a row which stays.
    pub fn is_lasting(self) -> bool
        ensures { result ≡ is_lasting self }
    {
        match self.effect() {
            Effect::Reads(_) | Effect::ReLexes(_) => true,
            Effect::Peeks(_) | Effect::Opens | Effect::Rewinds | Effect::Commits => false,
        }
    }
}
