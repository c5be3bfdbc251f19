//! The program, from its streams on.

ghost use Rattle.std.specs.Prelude.{Some};
ghost use Rattle.std.specs.Process.{exit_status};
ghost use Rattle.js_process.specs.Exit.{Tells};
ghost use Rattle.js_process.specs.Status.{line_for};
ghost use Rattle.js_process.specs.TextRun.{RunsMaker};
ghost use Rattle.js_jsx_report.specs.Run.{IsJsxText, js_jsx_report, js_jsx_report_usage};
ghost use Rattle.js_jsx_report.specs.declared.program.JsxReport.{JsxReport};

use js_jsx::jsx_session;
use js_lex_tool::report_text;
use js_process::{ByteIn, ByteOut, TextMaker, end_program, text_run};
use js_text::SourceType;
use std::alloc::{AllocError, Global};
use std::process::ExitCode;

/// The name of the program.
const JSX_REPORT: &str = "js_jsx_report";

/// How it is called: with no arguments.
const JSX_REPORT_USAGE: &str = "usage: js_jsx_report";

/// What the program does with its input.
#[derive(Clone, Copy)]
struct JsxReport {}

impl TextMaker for JsxReport {
    ghost may_make = { λ _ source text. IsJsxText source text };

    fn text(&self, alloc: Global, source: &str) -> Result<String, AllocError> {
        match jsx_session(alloc, source.as_bytes(), SourceType::Module, false) {
            Ok(jsx) => report_text(alloc, source, &jsx.report),
            // the source is UTF-8, and short enough
            Err(_) => Err(AllocError),
        }
    }
}

/// The program, from its streams on: it ends with the status of the run, whose line is written to `errors`.
pub fn jsx_program<I: ByteIn, O: ByteOut, E: ByteOut>(
    alloc: Global,
    input: &mut I,
    output: &mut O,
    errors: &mut E,
) -> ExitCode
    ensures run { (p : JsxReport) × RunsMaker (λ (q : JsxReport) source text. IsJsxText source text) (Some p)
        (I.state input.old) (I.state input.new) (O.state output.old) (O.state output.new) (exit_status result) }
    ensures line { Tells (line_for js_jsx_report js_jsx_report_usage (exit_status result))
        (E.state errors.old) (E.state errors.new) }
{
    let status = text_run(alloc, Ok(Some(JsxReport {})), input, output);
    end_program(JSX_REPORT, JSX_REPORT_USAGE, status, errors)
}
