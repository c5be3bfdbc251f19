//! What is found of a source.

ghost use Rattle.std.specs.Prelude.{◌≡◌, ◌++◌, ◌∷◌, [], length, OnOk};
ghost use Rattle.js_imports.specs.Scans.{change, is_something, told, unsettled, with_argument_end, with_argument_start};
ghost use Rattle.js_imports.specs.Scans.{with_end, with_role, with_text, without_value};
ghost use Rattle.js_imports.specs.declared.found.Role.TheVariants.{ExportName};

use js_text::{RowValue, Span};
use std::alloc::{AllocError, Global};
use std::marker::Model;

/// What something that is found is.
#[derive(Clone, Copy, PartialEq, Eq, Debug)]
pub enum Role {
    /// Nothing: what began like the others has not gone on like them.
    Nothing,
    /// An import by a declaration (ECMA-262 16.2.2).
    StaticImport,
    /// An import call (ECMA-262 13.3.10).
    DynamicImport,
    /// `import.meta` (ECMA-262 13.3.12).
    ImportMeta,
    /// A call of `require` with a string.
    Require,
    /// An export of what another module exports (ECMA-262 16.2.3).
    ExportFrom,
    /// A name that is exported.
    ExportName,
    /// A pattern whose names are exported.
    ExportPattern,
}

impl Role {
    /// Whether it is something.
    fn is_something(self) -> bool
        ensures { result ≡ is_something self }
    {
        match self {
            Role::Nothing => false,
            _ => true,
        }
    }
}

/// Something that is found of a source.
#[derive(PartialEq, Eq, Debug, Drop)]
pub struct Found {
    pub role: Role,
    /// From its first token up to the end of its last one, in bytes.
    pub span: Span,
    /// Where its specifier, its argument, its name or its pattern stands, in bytes: from its first token up to the end of
    /// its last one.
    pub part: Span,
    /// The specifier or the name, decoded: `RowValue::Nothing` where the argument of an import call is no string, and of
    /// `import.meta` and of a pattern.
    pub value: RowValue,
}

/// What is found so far, in the order in which it began.
#[derive(Drop)]
pub(crate) struct FoundList {
    items: Vec<Found>,
}

impl Model for FoundList {
    ghost use Rattle.std.specs.Prelude.{List};
    ghost use Rattle.js_imports.specs.declared.found.Found.{Found};

    ghost Value = { List Found };

    ghost view = { λ l. l.items.items };
}

impl FoundList {
    /// Nothing is found. It needs no memory yet.
    pub(crate) fn new(alloc: Global) -> FoundList
        ensures { result ≡ [] }
    {
        FoundList {
            items: Vec::new(alloc),
        }
    }

    /// How many there are.
    pub(crate) fn len(&self) -> usize
        ensures { result ≡ length self.now }
    {
        self.items.len()
    }

    /// Those that are something, in order.
    pub(crate) fn into_told(self) -> Vec<Found>
        ensures { result.items ≡ told self }
    {
        let mut items = self.items;
        items.retain(|found| found.role.is_something());
        items
    }

    /// Adds what begins at this span, and is nothing yet.
    pub(crate) fn begin(&mut self, span: Span) -> Result<(), AllocError>
        ensures { OnOk result (self.new ≡ self.old ++ unsettled span ∷ []) }
    {
        Ok(
            self.items.push(Found {
                role: Role::Nothing,
                span,
                part: span,
                value: RowValue::Nothing,
            })?,
        )
    }

    /// Adds a name that is exported.
    pub(crate) fn add_name(&mut self, span: Span, value: RowValue) -> Result<(), AllocError>
        ensures { OnOk result (self.new ≡ self.old ++ with_text ExportName span value (unsettled span) ∷ []) }
    {
        Ok(
            self.items.push(Found {
                role: Role::ExportName,
                span,
                part: span,
                value,
            })?,
        )
    }

    /// What has this index is something, and ends there.
    pub(crate) fn set_role(&mut self, index: usize, role: Role, end: u32)
        ensures { self.new ≡ change (with_role role end) index self.old }
    {
        if self.items.len() <= index {
            return;
        }
        let found = &mut self.items[index];
        found.role = role;
        found.span.end = end;
    }

    /// What has this index is something with this specifier or name, which stands there at its end.
    pub(crate) fn set_text(&mut self, index: usize, role: Role, span: Span, value: RowValue)
        ensures { self.new ≡ change (with_text role span value) index self.old }
    {
        if self.items.len() <= index {
            return;
        }
        let found = &mut self.items[index];
        found.role = role;
        found.span.end = span.end;
        found.part = span;
        found.value = value;
    }

    /// What has this index goes on up to there.
    pub(crate) fn set_end(&mut self, index: usize, end: u32)
        ensures { self.new ≡ change (with_end end) index self.old }
    {
        if self.items.len() <= index {
            return;
        }
        let found = &mut self.items[index];
        found.span.end = end;
    }

    /// The argument of what has this index starts there.
    pub(crate) fn set_argument_start(&mut self, index: usize, start: u32)
        ensures { self.new ≡ change (with_argument_start start) index self.old }
    {
        if self.items.len() <= index {
            return;
        }
        let found = &mut self.items[index];
        found.part.start = start;
    }

    /// The argument of what has this index ends there.
    pub(crate) fn set_argument_end(&mut self, index: usize, end: u32)
        ensures { self.new ≡ change (with_argument_end end) index self.old }
    {
        if self.items.len() <= index {
            return;
        }
        let found = &mut self.items[index];
        found.part.end = end;
    }

    /// What has this index has no specifier.
    pub(crate) fn drop_value(&mut self, index: usize)
        ensures { self.new ≡ change without_value index self.old }
    {
        if self.items.len() <= index {
            return;
        }
        let found = &mut self.items[index];
        found.value = RowValue::Nothing;
    }
}
