//! The program, from its streams on.

ghost use Rattle.std.specs.Prelude.{Some};
ghost use Rattle.std.specs.Process.{exit_status};
ghost use Rattle.js_process.specs.Exit.{Tells};
ghost use Rattle.js_process.specs.Programs.{js_parse_example, js_parse_example_usage};
ghost use Rattle.js_process.specs.Status.{line_for};
ghost use Rattle.js_process.specs.TextRun.{RunsMaker};
ghost use Rattle.js_parse_tool.specs.Covered.{IsParseText};
ghost use Rattle.js_parse_tool.specs.declared.program.Parse.{Parse};

use crate::parse::parse_text;
use js_cursor::Cursor;
use js_kind::RuntimeLexerConfig;
use js_lexer::Lexer;
use js_process::programs::{PARSE_EXAMPLE, PARSE_EXAMPLE_USAGE};
use js_process::{ByteIn, ByteOut, TextMaker, end_program, text_run};
use js_text::SourceType;
use std::alloc::{AllocError, Global};
use std::process::ExitCode;

/// What the program does with its input.
#[derive(Clone, Copy)]
struct Parse {}

impl TextMaker for Parse {
    ghost may_make = { λ _ source text. IsParseText source text };

    fn text(&self, alloc: Global, source: &str) -> Result<String, AllocError> {
        let config = RuntimeLexerConfig::new(false);
        let lexer = match Lexer::new(alloc, source, SourceType::Module, config) {
            Ok(lexer) => lexer,
            // the source is short enough
            Err(_) => return Err(AllocError),
        };
        match Cursor::new(alloc, lexer, false) {
            Ok(mut cursor) => parse_text(alloc, &mut cursor, source),
            Err(error) => Err(error),
        }
    }
}

/// The program, from its streams on: it ends with the status of the run, whose line is written to `errors`.
pub fn parse_program<I: ByteIn, O: ByteOut, E: ByteOut>(
    alloc: Global,
    input: &mut I,
    output: &mut O,
    errors: &mut E,
) -> ExitCode
    ensures run { (p : Parse) × RunsMaker (λ (q : Parse) source text. IsParseText source text) (Some p)
        (I.state input.old) (I.state input.new) (O.state output.old) (O.state output.new) (exit_status result) }
    ensures line { Tells (line_for js_parse_example js_parse_example_usage (exit_status result))
        (E.state errors.old) (E.state errors.new) }
{
    let status = text_run(alloc, Ok(Some(Parse {})), input, output);
    end_program(PARSE_EXAMPLE, PARSE_EXAMPLE_USAGE, status, errors)
}
