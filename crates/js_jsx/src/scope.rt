//! What tokens stand in.

ghost use Rattle.std.specs.Prelude.{◌≡◌};
ghost use Rattle.js_jsx.specs.Scopes.{is_brace, is_children, is_curly, is_tag, is_template, is_types, is_within_tag};

/// What a token may stand in.
#[derive(Clone, Copy)]
pub enum Scope {
    /// A block, an object or another thing between `{` and `}`.
    Block,
    /// A substitution in a template, between `${` and `}`.
    Template,
    /// An expression between `{` and `}`, in a tag or among children.
    Container,
    /// A tag that begins an element, between `<` and `>`.
    OpeningTag,
    /// A tag that ends an element, between `</` and `>`.
    ClosingTag,
    /// Type arguments in a tag, between `<` and `>`.
    TypeArguments,
    /// What stands between the two tags of an element.
    Children,
}

impl Scope {
    /// Whether a brace opens it.
    pub fn is_brace(self) -> bool
        ensures { result ≡ is_brace self }
    {
        matches!(self, Scope::Block | Scope::Template | Scope::Container)
    }

    /// Whether it stands between `{` and `}`.
    pub(crate) fn is_curly(self) -> bool
        ensures { result ≡ is_curly self }
    {
        matches!(self, Scope::Block | Scope::Container)
    }

    /// Whether it is a substitution in a template.
    pub(crate) fn is_template(self) -> bool
        ensures { result ≡ is_template self }
    {
        matches!(self, Scope::Template)
    }

    /// Whether it is a tag.
    pub fn is_tag(self) -> bool
        ensures { result ≡ is_tag self }
    {
        matches!(self, Scope::OpeningTag | Scope::ClosingTag)
    }

    /// Whether it is a tag, or type arguments in one.
    pub fn is_within_tag(self) -> bool
        ensures { result ≡ is_within_tag self }
    {
        matches!(
            self,
            Scope::OpeningTag | Scope::ClosingTag | Scope::TypeArguments
        )
    }

    /// Whether it is type arguments.
    pub(crate) fn is_types(self) -> bool
        ensures { result ≡ is_types self }
    {
        matches!(self, Scope::TypeArguments)
    }

    /// Whether it is what stands between two tags.
    pub(crate) fn is_children(self) -> bool
        ensures { result ≡ is_children self }
    {
        matches!(self, Scope::Children)
    }
}
