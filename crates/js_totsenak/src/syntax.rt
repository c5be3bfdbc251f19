//! Which syntax a source has.

ghost use Rattle.std.specs.Prelude.{◌≡◌};
ghost use Rattle.js_totsenak.specs.Syntaxes.{syntax_of};

/// The syntax of a source, by which its goals are chosen.
#[derive(Clone, Copy, PartialEq, Eq, Debug)]
pub enum Syntax {
    /// ECMAScript: the goals are those of `js_auto::GoalChooser`.
    JavaScript,
    /// ECMAScript with JSX: the goals are those of `js_jsx::JsxChooser`.
    Jsx,
}

/// The syntax of a source: that with JSX where it was said to have some, or where its name ends in `.jsx` or `.tsx`.
pub fn syntax_of(said_jsx: bool, name: &str) -> Syntax
    ensures { result ≡ syntax_of said_jsx name.now }
{
    match said_jsx {
        true => Syntax::Jsx,
        false if name.as_bytes().ends_with(b".jsx") => Syntax::Jsx,
        false if name.as_bytes().ends_with(b".tsx") => Syntax::Jsx,
        false => Syntax::JavaScript,
    }
}
