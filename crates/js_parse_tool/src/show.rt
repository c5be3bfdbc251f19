//! What the program prints.

ghost use Rattle.std.specs.Prelude.{◌≡◌, ◌++◌, codes, string_bytes, IfOk, OnOk};
ghost use Rattle.std.specs.List.{flat_map};
ghost use Rattle.js_parse_tool.specs.Shown.{error_line, fatal_line, indent, line_text, lexer_line};
ghost use Rattle.js_parse_tool.specs.Shown.{node_line, parser_line, shown};

use crate::draw::Line;
use crate::node::Node;
use crate::tokens::Tokens;
use js_cursor::{CursorDiagnostic, FatalError};
use js_text::{Diagnostic, Span};
use std::alloc::{AllocError, Global};
use std::fmt::Write;

/// Writes the line of a node.
#[tactic(auto, unfolding(crate::specs::Shown::node_line))]
fn push_node(text: &mut String, node: &Node) -> Result<(), AllocError>
    ensures { OnOk result (string_bytes text.new ≡ string_bytes text.old ++ node_line node.now) }
{
    let name = node.kind.name();
    let (start, end) = (node.span.start, node.span.end);
    writeln!(text, "{name} {start}..{end}")
}

/// Writes two spaces for each level.
#[tactic(auto, using(crate::proofs::Showing::indented))]
fn push_indent(text: &mut String, depth: usize) -> Result<(), AllocError>
    ensures { OnOk result (string_bytes text.new ≡ string_bytes text.old ++ indent depth) }
{
    for _ in 0..depth {
        text.push_str("  ")?;
    }
    Ok(())
}

/// Writes the line of a node, indented by how deep it stands.
fn push_line(text: &mut String, line: &Line) -> Result<(), AllocError>
    ensures { OnOk result (string_bytes text.new ≡ string_bytes text.old ++ line_text line.now) }
{
    push_indent(text, line.depth)?;
    push_node(text, &line.node)
}

/// Writes the lines of nodes.
fn push_lines(text: &mut String, lines: &[Line]) -> Result<(), AllocError>
    ensures { OnOk result (string_bytes text.new ≡ string_bytes text.old ++ flat_map line_text lines.now) }
{
    for line in lines {
        push_line(text, line)?;
    }
    Ok(())
}

/// Writes the line of an error.
#[tactic(auto, unfolding(crate::specs::Shown::error_line))]
fn push_error(text: &mut String, what: &str, name: &str, span: Span) -> Result<(), AllocError>
    ensures { OnOk result (string_bytes text.new ≡ string_bytes text.old ++ error_line what.now name.now span) }
{
    let Span { start, end } = span;
    writeln!(text, "{what} {name} {start}..{end}")
}

/// Writes the line of an error of the parser.
fn push_parser_error(
    text: &mut String,
    what: &str,
    error: &CursorDiagnostic,
) -> Result<(), AllocError>
    ensures { OnOk result (string_bytes text.new ≡ string_bytes text.old ++ parser_line what.now error.now) }
{
    push_error(text, what, error.name(), error.span())
}

/// Writes a line for each error of the parser.
fn push_errors(text: &mut String, errors: &[CursorDiagnostic]) -> Result<(), AllocError>
    ensures { OnOk result (string_bytes text.new
        ≡ string_bytes text.old ++ flat_map (parser_line (codes "error")) errors.now) }
{
    for error in errors {
        push_parser_error(text, "error", error)?;
    }
    Ok(())
}

/// Writes the line of the fatal error, if there is one.
fn push_fatal(text: &mut String, fatal: Option<FatalError>) -> Result<(), AllocError>
    ensures { OnOk result (string_bytes text.new ≡ string_bytes text.old ++ fatal_line fatal) }
{
    match fatal {
        Some(fatal) => push_parser_error(text, "fatal", &fatal.error),
        None => Ok(()),
    }
}

/// Writes the line of an error of the lexer that has a place.
fn push_diagnostic(text: &mut String, error: &Diagnostic) -> Result<(), AllocError>
    ensures { OnOk result (string_bytes text.new ≡ string_bytes text.old ++ lexer_line error.now) }
{
    match error.span() {
        Some(span) => push_error(text, "lexer", error.name(), span),
        None => Ok(()),
    }
}

/// Writes a line for each error of the lexer that has a place.
fn push_diagnostics(text: &mut String, errors: &[Diagnostic]) -> Result<(), AllocError>
    ensures { OnOk result (string_bytes text.new ≡ string_bytes text.old ++ flat_map lexer_line errors.now) }
{
    for error in errors {
        push_diagnostic(text, error)?;
    }
    Ok(())
}

/// The lines of all nodes, and then those of all errors.
fn all_lines(
    alloc: Global,
    lines: &[Line],
    errors: &[CursorDiagnostic],
    fatal: Option<FatalError>,
    found: &[Diagnostic],
) -> Result<String, AllocError>
    ensures { IfOk result (λ text. string_bytes text ≡ shown lines.now errors.now fatal found.now) }
{
    let mut text = String::new(alloc);
    push_lines(&mut text, lines)?;
    push_errors(&mut text, errors)?;
    push_fatal(&mut text, fatal)?;
    push_diagnostics(&mut text, found)?;
    Ok(text)
}

/// The lines of the nodes, and then those of all errors that a cursor has.
pub(crate) fn shown(
    alloc: Global,
    cursor: &Tokens<'_>,
    lines: &[Line],
) -> Result<String, AllocError>
    ensures { IfOk result (λ text. string_bytes text ≡ shown lines.now cursor.now.errors cursor.now.fatal
        cursor.now.lexer.findings.diagnostics) }
{
    all_lines(
        alloc,
        lines,
        cursor.errors(),
        cursor.fatal_error(),
        cursor.lexer().errors(),
    )
}
