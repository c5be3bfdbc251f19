//! What sources import and export, row by row.

use js_auto::GoalChooser;
use js_choose::ChoiceFault;
use js_imports::{Found, Role, imports_of_source};
use js_imports_text::{tell_imports, tell_imports_by};
use js_text::{RowValue, SourceType, Span};
use js_totsenak::{Format, Syntax};
use std::alloc::Global;
use std::process::Abort;
use std::test::Fail;

/// Sources, with what is told of each.
static IMPORTS: [(&'static str, &'static str); 15] = [
    ("", ""),
    (
        "import 'a'; import \"b\"",
        "1:1 static \"a\"\n1:13 static \"b\"\n",
    ),
    (
        "import a, {b as c, 'd e' as f}, * as g from \"h\"",
        "1:1 static \"h\"\n",
    ),
    (
        "import from from 'a'\nimport as, * as from from \"b\"",
        "1:1 static \"a\"\n2:1 static \"b\"\n",
    ),
    ("import '\\x41\\ud800'", "1:1 static \"A\\ud800\"\n"),
    // An escape in the word: it is no keyword.
    ("i\\u006dport 'a'; import {a} fr\\u006fm 'b'", ""),
    (
        "import a from 'b' with {type: 'json'}; import 'c'\nassert {}",
        "1:1 static \"b\"\n1:40 static \"c\"\n",
    ),
    // A declaration stands in no bracket.
    ("{ import 'a'; export var b } import c from", ""),
    (
        "import('a'); import(\"b\",); x = import('c', {}) + import ( /**/ 'd' /**/ )",
        "1:1 dynamic \"a\"\n1:14 dynamic \"b\"\n1:32 dynamic \"c\"\n1:50 dynamic \"d\"\n",
    ),
    (
        "import(`a`) import('b' + c) import('d'.e, f) import(/**/ [g, h] /**/)",
        "1:1 dynamic 7-10\n1:13 dynamic 19-26\n1:29 dynamic 35-40\n1:46 dynamic 57-63\n",
    ),
    (
        "import(import('a'), import(b))",
        "1:1 dynamic 7-18\n1:8 dynamic \"a\"\n1:21 dynamic 27-28\n",
    ),
    (
        "import.meta; import . meta.url; import.m\\u0065ta; import.other",
        "1:1 meta\n1:14 meta\n",
    ),
    // Properties, methods, and other tokens.
    (
        "a.import('b'); a?.import('c'); a.import.meta; a.#import('d')",
        "",
    ),
    (
        "({ import(a = import('b')) {}, import: 1, get import() {} }); class c { import(d)\n{} }",
        "1:15 dynamic \"b\"\n",
    ),
    (
        "// import 'a'\n/import 'b'/; `import 'c' ${import('d')}`; '\\\nimport \"e\"'; import('f')\n{}",
        "2:29 dynamic \"d\"\n3:14 dynamic \"f\"\n",
    ),
];

/// The same of exports.
static EXPORTS: [(&'static str, &'static str); 8] = [
    (
        "export * from 'a'; export * as b from \"c\" assert {}; export * as 'd' from 'e'",
        "1:1 export-from \"a\"\n1:20 export-from \"c\"\n1:32 export \"b\"\n1:54 export-from \"e\"\n1:66 export \"d\"\n",
    ),
    (
        "export {a, b as c, d as default, e as 'f', as, as as as,}",
        "1:9 export \"a\"\n1:12 export \"c\"\n1:20 export \"default\"\n1:34 export \"f\"\n1:44 export \"as\"\n1:48 export \"as\"\n",
    ),
    (
        "export {default, 'a'} from 'b'; export {} from 'c'",
        "1:1 export-from \"b\"\n1:9 export \"default\"\n1:18 export \"a\"\n1:33 export-from \"c\"\n",
    ),
    (
        "export default import('a')",
        "1:8 export \"default\"\n1:16 dynamic \"a\"\n",
    ),
    (
        "export const a = 1, b = 2; export let c, \\u0064; export var e = 3",
        "1:14 export \"a\"\n1:39 export \"c\"\n1:42 export \"d\"\n1:61 export \"e\"\n",
    ),
    (
        "export const {a, b: [c = import('d')]} = e; export let [f] = g",
        "1:14 export-pattern 13-38\n1:26 dynamic \"d\"\n1:56 export-pattern 55-58\n",
    ),
    (
        "export function a() {} export function* b() {} export async function c() {} export async function *d() {}",
        "1:17 export \"a\"\n1:41 export \"b\"\n1:70 export \"c\"\n1:100 export \"d\"\n",
    ),
    (
        "export class a extends b {}\nc.export; ({ export: d })",
        "1:14 export \"a\"\n",
    ),
];

/// The same where calls of `require` count.
static REQUIRES: [(&'static str, &'static str); 3] = [
    (
        "require('a'); require ( \"b\" ); x(require('c'))",
        "1:1 require \"a\"\n1:15 require \"b\"\n1:34 require \"c\"\n",
    ),
    (
        "require(`a`); require('b' + c); require('d', e); f.require('g'); require; requir\\u0065('h')",
        "",
    ),
    ("require(import('a'))", "1:9 dynamic \"a\"\n"),
];

/// Tells of the sources of a table.
fn check_rows(
    rt: &impl Abort,
    alloc: Global,
    rows: &[(&str, &str)],
    counts_require: bool,
) -> Result<(), Fail> {
    for (source, lines) in rows {
        let told = tell_imports_by::<GoalChooser>(
            alloc,
            Format::Lines,
            counts_require,
            source.as_bytes(),
            SourceType::Module,
        )?;
        assert_eq!(rt; told.as_str(), *lines);
    }
    Ok(())
}

#[test]
fn tells_imports(rt: HostRuntime) -> Result<(), Fail> {
    check_rows(&rt, rt.alloc(), &IMPORTS, false)
}

#[test]
fn tells_exports(rt: HostRuntime) -> Result<(), Fail> {
    check_rows(&rt, rt.alloc(), &EXPORTS, false)
}

#[test]
fn tells_calls_of_require(rt: HostRuntime) -> Result<(), Fail> {
    check_rows(&rt, rt.alloc(), &REQUIRES, true)
}

/// A source with JSX, and what is told of it as JSON.
static JSX: &'static str = "import a from \"b\\n\";\n\
    \"\u{1f600}\", <a import=\"c\">import 'd' {import('e')}{import.meta}</a>;\n\
    export {a as f}; export let {} = {}; import(g)";

static JSON: &'static str = "{\"type\":\"static\",\"start\":0,\"end\":19,\"line\":1,\"column\":1,\
    \"part_start\":14,\"part_end\":19,\"specifier\":\"b\\u000a\"}\n\
    {\"type\":\"dynamic\",\"start\":55,\"end\":66,\"line\":2,\"column\":32,\
    \"part_start\":62,\"part_end\":65,\"specifier\":\"e\"}\n\
    {\"type\":\"meta\",\"start\":68,\"end\":79,\"line\":2,\"column\":45,\
    \"part_start\":75,\"part_end\":79,\"specifier\":null}\n\
    {\"type\":\"export\",\"start\":94,\"end\":100,\"line\":3,\"column\":9,\
    \"part_start\":99,\"part_end\":100,\"name\":\"f\"}\n\
    {\"type\":\"export-pattern\",\"start\":114,\"end\":116,\"line\":3,\"column\":29,\
    \"part_start\":114,\"part_end\":116,\"name\":null}\n\
    {\"type\":\"dynamic\",\"start\":123,\"end\":132,\"line\":3,\"column\":38,\
    \"part_start\":130,\"part_end\":131,\"specifier\":null}\n";

#[test]
fn tells_of_jsx_as_json(rt: HostRuntime) -> Result<(), Fail> {
    let told = tell_imports(
        rt.alloc(),
        Format::Json,
        false,
        Syntax::Jsx,
        JSX.as_bytes(),
        SourceType::Module,
    )?;
    assert_eq!(rt; told.as_str(), JSON);
    Ok(())
}

/// Whether the import of `a` in `import a from 'b' with {}` was found alone.
fn is_found(found: &[Found]) -> bool {
    match found {
        [one] => {
            one.role == Role::StaticImport
                && one.span == Span { start: 0, end: 25 }
                && one.part == Span { start: 14, end: 17 }
                && one.value == RowValue::Slice(Span { start: 15, end: 16 })
        }
        _ => false,
    }
}

#[test]
fn finds_places_and_values(rt: HostRuntime) -> Result<(), Fail> {
    let found = imports_of_source::<GoalChooser>(
        rt.alloc(),
        b"import a from 'b' with {}",
        SourceType::Module,
        false,
    )?;
    assert!(rt; is_found(found.as_slice()));
    Ok(())
}

#[test]
fn tells_nothing_of_a_source_at_fault(rt: HostRuntime) -> Result<(), Fail> {
    let found = imports_of_source::<GoalChooser>(
        rt.alloc(),
        b"import 'a'\xff",
        SourceType::Module,
        false,
    );
    assert!(rt; matches!(found, Err(ChoiceFault::NotUtf8(10))));
    Ok(())
}
