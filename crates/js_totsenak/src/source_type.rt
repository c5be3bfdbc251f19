//! Which type a source is of.

ghost use Rattle.std.specs.Prelude.{◌≡◌};
ghost use Rattle.js_totsenak.specs.SourceTypes.{source_type_of, type_by_name};

use crate::syntax::Syntax;
use js_text::SourceType;

/// The type of a source by the ending of its name.
fn type_by_name(name: &str) -> SourceType
    ensures { result ≡ type_by_name name.now }
{
    match name.as_bytes() {
        name if name.ends_with(b".mjs") => SourceType::Module,
        name if name.ends_with(b".cjs") => SourceType::Script,
        _ => SourceType::Unambiguous,
    }
}

/// The type of a source: that which was said; or else a module, where it has JSX; or else by the ending of its name.
/// One that ends in neither `.mjs` nor `.cjs` is read as a script, and faults that it has as a module alone are warned
/// of.
pub fn source_type_of(said: Option<SourceType>, syntax: Syntax, name: &str) -> SourceType
    ensures { result ≡ source_type_of said syntax name.now }
{
    match (said, syntax) {
        (Some(source_type), _) => source_type,
        (None, Syntax::Jsx) => SourceType::Module,
        (None, Syntax::JavaScript) => type_by_name(name),
    }
}
