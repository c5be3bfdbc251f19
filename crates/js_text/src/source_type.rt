//! Types of a source text.

ghost use Rattle.std.specs.Prelude.{◌≡◌};
ghost use Rattle.js_text.specs.SourceType.{is_module, is_strict, is_unambiguous};

/// As what a source text is read (ECMA-262 16.1 and 16.2).
#[derive(Clone, Copy, PartialEq, Eq, Debug)]
pub enum SourceType {
    /// A module (ECMA-262 16.2): always strict mode code, without HTML-like comments.
    Module,
    /// A script (ECMA-262 16.1).
    Script,
    /// A module if it has an import or an export, else a script: the lexer can't tell yet.
    Unambiguous,
}

impl SourceType {
    /// Whether the text is a module (ECMA-262 16.2).
    pub fn is_module(self) -> bool
        ensures { result ≡ is_module self }
    {
        matches!(self, SourceType::Module)
    }

    /// Whether the text is strict mode code without a directive.
    pub fn is_strict(self) -> bool
        ensures { result ≡ is_strict self }
    {
        matches!(self, SourceType::Module)
    }

    /// Whether it is not settled yet if the text is a module or a script.
    pub fn is_unambiguous(self) -> bool
        ensures { result ≡ is_unambiguous self }
    {
        matches!(self, SourceType::Unambiguous)
    }
}
