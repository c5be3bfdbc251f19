//! What the names of sources tell.

use js_text::SourceType;
use js_totsenak::{Syntax, source_type_of, syntax_of};

/// The type that was said, whether JSX was said, a name, and the syntax and the type.
static NAMED: [(Option<SourceType>, bool, &str, Syntax, SourceType); 11] = [
    (
        None,
        false,
        "a.js",
        Syntax::JavaScript,
        SourceType::Unambiguous,
    ),
    (None, true, "a.js", Syntax::Jsx, SourceType::Module),
    (None, false, "a.jsx", Syntax::Jsx, SourceType::Module),
    (None, false, "a.tsx", Syntax::Jsx, SourceType::Module),
    (
        None,
        false,
        "a.jsx.mjs",
        Syntax::JavaScript,
        SourceType::Module,
    ),
    (
        None,
        false,
        "jsx",
        Syntax::JavaScript,
        SourceType::Unambiguous,
    ),
    (None, false, "a.mjs", Syntax::JavaScript, SourceType::Module),
    (None, false, "a.cjs", Syntax::JavaScript, SourceType::Script),
    (None, true, "a.cjs", Syntax::Jsx, SourceType::Module),
    (
        Some(SourceType::Script),
        true,
        "a.mjs",
        Syntax::Jsx,
        SourceType::Script,
    ),
    (
        Some(SourceType::Module),
        false,
        "a.cjs",
        Syntax::JavaScript,
        SourceType::Module,
    ),
];

#[test]
fn names(rt: HostRuntime) {
    for &(said, said_jsx, name, syntax, source_type) in &NAMED {
        let told = syntax_of(said_jsx, name);
        assert!(rt; told == syntax, "{name}");
        assert!(rt; source_type_of(said, told, name) == source_type, "{name}");
    }
}
