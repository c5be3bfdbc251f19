//! The rule: what a token means behind those before it.

ghost use Rattle.std.specs.Prelude.{◌≡◌};
ghost use Rattle.js_imports.specs.Moves.{begins_clause, behind_clause_from, behind_declared};
ghost use Rattle.js_imports.specs.Moves.{behind_export, behind_export_all, behind_export_all_as};
ghost use Rattle.js_imports.specs.Moves.{behind_export_async, behind_export_from, behind_export_name};
ghost use Rattle.js_imports.specs.Moves.{behind_export_name_as, behind_export_named, behind_exported};
ghost use Rattle.js_imports.specs.Moves.{behind_import, behind_import_dot, behind_plain};
ghost use Rattle.js_imports.specs.Moves.{behind_require, behind_require_text, behind_specifier};
ghost use Rattle.js_imports.specs.Moves.{behind_with, going_on, in_attributes, in_call, in_clause};
ghost use Rattle.js_imports.specs.Moves.{in_clause_braces, in_declaration, in_export_names};
ghost use Rattle.js_imports.specs.Moves.{in_require_call, move_behind};

use crate::class::TokenClass;

/// What the last tokens were.
#[derive(Clone, Copy)]
pub(crate) enum Phase {
    /// Nothing that is to be gone on with.
    Plain,
    /// `.` or `?.`
    Dot,
    /// `import`
    Import,
    /// `import .`
    ImportDot,
    /// `import`, and a part of a clause
    Clause,
    /// the same, and `from`
    ClauseFrom,
    /// `import`, and a part of a clause with an open brace
    ClauseBraces,
    /// a declaration with its specifier
    Specifier,
    /// the same, and `with`
    With,
    /// the same, and `{`
    Attributes,
    /// `import (`
    Call,
    /// `import (` and a string
    CallText,
    /// `import (` up to its `)`
    CallEnd,
    /// `export`
    Export,
    /// `export *`
    ExportAll,
    /// `export * as`
    ExportAllAs,
    /// `export * as NAME` or `export {..}`
    Exported,
    /// the same, or `export *`, and `from`
    ExportFrom,
    /// `export {`, or a name of such a list and `,`
    ExportNames,
    /// the same, and a name
    ExportName,
    /// the same, and `as`
    ExportNameAs,
    /// `export` and `const`, `let` or `var`, or a name behind it and `,`
    Declares,
    /// the same, and a name
    Declared,
    /// `export async`
    ExportAsync,
    /// `export` and `function`, `function *` or `class`
    ExportNamed,
    /// `require`
    Require,
    /// `require (`
    RequireCall,
    /// `require (` and a string
    RequireText,
}

/// What is done at a token.
#[derive(Clone, Copy)]
pub(crate) enum Act {
    Nothing,
    /// Something begins that may be found.
    Begin,
    /// It is an import by a declaration, and this is its specifier.
    TellImport,
    /// It is an export from another module, and this is its specifier.
    TellFrom,
    /// It is `import.meta`, and ends here.
    TellMeta,
    /// It is a call of `require`, and ends here.
    TellRequire,
    /// It goes on up to here.
    Extend,
    /// This string is its specifier, if nothing but the call's end follows.
    KeepText,
    /// The argument of an import call begins behind this.
    OpenCall,
    /// The import call has no argument: it is none.
    DropCall,
    /// A pattern whose names are exported begins.
    OpenPattern,
    /// This name is exported.
    AddName,
    /// The last name that was told is exported by this one.
    Rename,
}

/// What is done at a token, and what the last tokens were then.
#[derive(Clone, Copy)]
pub(crate) struct Move {
    pub act: Act,
    pub phase: Phase,
}

/// The move where something is done.
fn with(act: Act, phase: Phase) -> Move
    ensures { result ≡ record { act = act; phase = phase } }
{
    Move { act, phase }
}

/// The move where nothing is done.
fn to(phase: Phase) -> Move
    ensures { result ≡ record { act = Act.Nothing; phase = phase } }
{
    Move {
        act: Act::Nothing,
        phase,
    }
}

/// Behind nothing that is to be gone on with. It is told whether no bracket is open.
fn behind_plain(class: TokenClass, top: bool) -> Move
    ensures { result ≡ behind_plain top class }
{
    match class {
        TokenClass::Import => with(Act::Begin, Phase::Import),
        TokenClass::Export if top => with(Act::Begin, Phase::Export),
        TokenClass::Require => with(Act::Begin, Phase::Require),
        TokenClass::Dot => to(Phase::Dot),
        _ => to(Phase::Plain),
    }
}

/// Where a clause, or the specifier of an import without one, may begin.
fn begins_clause(class: TokenClass) -> Option<Move>
    ensures { result ≡ begins_clause class }
{
    match class {
        TokenClass::Text => Some(with(Act::TellImport, Phase::Specifier)),
        TokenClass::OpenBrace => Some(to(Phase::ClauseBraces)),
        TokenClass::Star => Some(to(Phase::Clause)),
        class if class.is_name() => Some(to(Phase::Clause)),
        _ => None,
    }
}

/// Behind `import .`.
fn behind_import_dot(class: TokenClass) -> Option<Move>
    ensures { result ≡ behind_import_dot class }
{
    match class {
        TokenClass::Meta => Some(with(Act::TellMeta, Phase::Plain)),
        _ => None,
    }
}

/// In a clause, outside its braces.
fn in_clause(class: TokenClass) -> Option<Move>
    ensures { result ≡ in_clause class }
{
    match class {
        TokenClass::From => Some(to(Phase::ClauseFrom)),
        TokenClass::Comma => Some(to(Phase::Clause)),
        TokenClass::Star => Some(to(Phase::Clause)),
        TokenClass::OpenBrace => Some(to(Phase::ClauseBraces)),
        class if class.is_name() => Some(to(Phase::Clause)),
        _ => None,
    }
}

/// Behind the `from` of a clause, which may be a name of it.
fn behind_clause_from(class: TokenClass) -> Option<Move>
    ensures { result ≡ behind_clause_from class }
{
    match class {
        TokenClass::Text => Some(with(Act::TellImport, Phase::Specifier)),
        TokenClass::From => Some(to(Phase::ClauseFrom)),
        TokenClass::Comma => Some(to(Phase::Clause)),
        class if class.is_name() => Some(to(Phase::Clause)),
        _ => None,
    }
}

/// In the braces of a clause.
fn in_clause_braces(class: TokenClass) -> Option<Move>
    ensures { result ≡ in_clause_braces class }
{
    match class {
        TokenClass::CloseBrace => Some(to(Phase::Clause)),
        TokenClass::Comma => Some(to(Phase::ClauseBraces)),
        class if class.is_label() => Some(to(Phase::ClauseBraces)),
        _ => None,
    }
}

/// Behind the specifier of a declaration.
fn behind_specifier(class: TokenClass) -> Option<Move>
    ensures { result ≡ behind_specifier class }
{
    match class {
        TokenClass::With => Some(to(Phase::With)),
        TokenClass::Assert => Some(to(Phase::With)),
        _ => None,
    }
}

/// Behind the `with` of attributes.
fn behind_with(class: TokenClass) -> Option<Move>
    ensures { result ≡ behind_with class }
{
    match class {
        TokenClass::OpenBrace => Some(to(Phase::Attributes)),
        _ => None,
    }
}

/// In attributes.
fn in_attributes(class: TokenClass) -> Option<Move>
    ensures { result ≡ in_attributes class }
{
    match class {
        TokenClass::CloseBrace => Some(with(Act::Extend, Phase::Plain)),
        TokenClass::Comma => Some(to(Phase::Attributes)),
        TokenClass::Other => Some(to(Phase::Attributes)),
        class if class.is_label() => Some(to(Phase::Attributes)),
        _ => None,
    }
}

/// Behind the `(` of an import call.
fn in_call(class: TokenClass) -> Option<Move>
    ensures { result ≡ in_call class }
{
    match class {
        TokenClass::Text => Some(with(Act::KeepText, Phase::CallText)),
        TokenClass::CloseParen => Some(with(Act::DropCall, Phase::Plain)),
        _ => None,
    }
}

/// Behind `export`.
fn behind_export(class: TokenClass) -> Option<Move>
    ensures { result ≡ behind_export class }
{
    match class {
        TokenClass::Star => Some(to(Phase::ExportAll)),
        TokenClass::OpenBrace => Some(to(Phase::ExportNames)),
        TokenClass::Default => Some(with(Act::AddName, Phase::Plain)),
        TokenClass::Declares => Some(to(Phase::Declares)),
        TokenClass::Function => Some(to(Phase::ExportNamed)),
        TokenClass::ClassWord => Some(to(Phase::ExportNamed)),
        TokenClass::Async => Some(to(Phase::ExportAsync)),
        _ => None,
    }
}

/// Behind `export *`.
fn behind_export_all(class: TokenClass) -> Option<Move>
    ensures { result ≡ behind_export_all class }
{
    match class {
        TokenClass::As => Some(to(Phase::ExportAllAs)),
        TokenClass::From => Some(to(Phase::ExportFrom)),
        _ => None,
    }
}

/// Behind `export * as`.
fn behind_export_all_as(class: TokenClass) -> Option<Move>
    ensures { result ≡ behind_export_all_as class }
{
    match class {
        class if class.is_label() => Some(with(Act::AddName, Phase::Exported)),
        _ => None,
    }
}

/// Behind `export {..}` or `export * as NAME`.
fn behind_exported(class: TokenClass) -> Option<Move>
    ensures { result ≡ behind_exported class }
{
    match class {
        TokenClass::From => Some(to(Phase::ExportFrom)),
        _ => None,
    }
}

/// Behind the `from` of an export.
fn behind_export_from(class: TokenClass) -> Option<Move>
    ensures { result ≡ behind_export_from class }
{
    match class {
        TokenClass::Text => Some(with(Act::TellFrom, Phase::Specifier)),
        _ => None,
    }
}

/// In a list of exports, where a name may begin.
fn in_export_names(class: TokenClass) -> Option<Move>
    ensures { result ≡ in_export_names class }
{
    match class {
        TokenClass::CloseBrace => Some(to(Phase::Exported)),
        class if class.is_label() => Some(with(Act::AddName, Phase::ExportName)),
        _ => None,
    }
}

/// Behind a name of such a list.
fn behind_export_name(class: TokenClass) -> Option<Move>
    ensures { result ≡ behind_export_name class }
{
    match class {
        TokenClass::CloseBrace => Some(to(Phase::Exported)),
        TokenClass::Comma => Some(to(Phase::ExportNames)),
        TokenClass::As => Some(to(Phase::ExportNameAs)),
        _ => None,
    }
}

/// Behind the `as` of such a list.
fn behind_export_name_as(class: TokenClass) -> Option<Move>
    ensures { result ≡ behind_export_name_as class }
{
    match class {
        class if class.is_label() => Some(with(Act::Rename, Phase::ExportName)),
        _ => None,
    }
}

/// Where a declaration of variables has a name or a pattern.
fn in_declaration(class: TokenClass) -> Option<Move>
    ensures { result ≡ in_declaration class }
{
    match class {
        TokenClass::OpenBrace => Some(with(Act::OpenPattern, Phase::Plain)),
        TokenClass::OpenSquare => Some(with(Act::OpenPattern, Phase::Plain)),
        class if class.is_name() => Some(with(Act::AddName, Phase::Declared)),
        _ => None,
    }
}

/// Behind a name that is declared.
fn behind_declared(class: TokenClass) -> Option<Move>
    ensures { result ≡ behind_declared class }
{
    match class {
        TokenClass::Comma => Some(to(Phase::Declares)),
        _ => None,
    }
}

/// Behind `export async`.
fn behind_export_async(class: TokenClass) -> Option<Move>
    ensures { result ≡ behind_export_async class }
{
    match class {
        TokenClass::Function => Some(to(Phase::ExportNamed)),
        _ => None,
    }
}

/// Behind `export function` or `export class`.
fn behind_export_named(class: TokenClass) -> Option<Move>
    ensures { result ≡ behind_export_named class }
{
    match class {
        TokenClass::Star => Some(to(Phase::ExportNamed)),
        class if class.is_name() => Some(with(Act::AddName, Phase::Plain)),
        _ => None,
    }
}

/// Behind `require`.
fn behind_require(class: TokenClass) -> Option<Move>
    ensures { result ≡ behind_require class }
{
    match class {
        TokenClass::OpenParen => Some(to(Phase::RequireCall)),
        _ => None,
    }
}

/// Behind the `(` of a call of `require`.
fn in_require_call(class: TokenClass) -> Option<Move>
    ensures { result ≡ in_require_call class }
{
    match class {
        TokenClass::Text => Some(with(Act::KeepText, Phase::RequireText)),
        _ => None,
    }
}

/// Behind the string of such a call.
fn behind_require_text(class: TokenClass) -> Option<Move>
    ensures { result ≡ behind_require_text class }
{
    match class {
        TokenClass::CloseParen => Some(with(Act::TellRequire, Phase::Plain)),
        _ => None,
    }
}

/// Behind `import`. It is told whether no bracket is open: else no declaration begins.
fn behind_import(class: TokenClass, top: bool) -> Option<Move>
    ensures { result ≡ behind_import top class }
{
    match class {
        TokenClass::OpenParen => Some(with(Act::OpenCall, Phase::Call)),
        TokenClass::Dot => Some(to(Phase::ImportDot)),
        class if top => begins_clause(class),
        _ => None,
    }
}

/// How what the last tokens were goes on, if it does.
fn going_on(phase: Phase, class: TokenClass, top: bool) -> Option<Move>
    ensures { result ≡ going_on phase top class }
{
    match phase {
        Phase::Plain => None,
        Phase::Dot => Some(to(Phase::Plain)),
        Phase::Import => behind_import(class, top),
        Phase::ImportDot => behind_import_dot(class),
        Phase::Clause => in_clause(class),
        Phase::ClauseFrom => behind_clause_from(class),
        Phase::ClauseBraces => in_clause_braces(class),
        Phase::Specifier => behind_specifier(class),
        Phase::With => behind_with(class),
        Phase::Attributes => in_attributes(class),
        Phase::Call => in_call(class),
        Phase::CallText => None,
        Phase::CallEnd => None,
        Phase::Export => behind_export(class),
        Phase::ExportAll => behind_export_all(class),
        Phase::ExportAllAs => behind_export_all_as(class),
        Phase::Exported => behind_exported(class),
        Phase::ExportFrom => behind_export_from(class),
        Phase::ExportNames => in_export_names(class),
        Phase::ExportName => behind_export_name(class),
        Phase::ExportNameAs => behind_export_name_as(class),
        Phase::Declares => in_declaration(class),
        Phase::Declared => behind_declared(class),
        Phase::ExportAsync => behind_export_async(class),
        Phase::ExportNamed => behind_export_named(class),
        Phase::Require => behind_require(class),
        Phase::RequireCall => in_require_call(class),
        Phase::RequireText => behind_require_text(class),
    }
}

/// The move at a token of the class: how what the last tokens were goes on; or as behind others, where it doesn't.
pub(crate) fn move_behind(phase: Phase, class: TokenClass, top: bool) -> Move
    ensures { result ≡ move_behind phase top class }
{
    match going_on(phase, class, top) {
        Some(found) => found,
        None => behind_plain(class, top),
    }
}
