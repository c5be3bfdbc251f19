//! The program as a library: what words mean, what a run comes to, and what is written.
#![tactic(auto)]

mod anew;
mod command;
mod generator;
mod line;
mod names;
mod numbers;
mod program;
mod put;
mod report;
mod report_out;
mod stop;
mod tool;
mod units;
mod words;

pub use generator::{MOST_LINES, gen_summary, generated};
pub use js_process::{
    ByteIn, ByteOut, Course, FlushAnswer, InAnswer, MOST_BYTES, MemoryIn, MemoryOut, OutAnswer,
    ReadFault, StatusLine, StdIn, StdOut, SureIn, SureOut, TextMaker, end_program, line_for,
    program_words, programs, read_to_end, status, status_line, status_without_words, system,
    text_run, words_behind_name, write_all,
};
pub use program::{lex_main, lex_program};
pub use report::report_text;
pub use stop::end_lex;
pub use tool::{Ran, ToolOutcome, lex_tool_run, lex_tool_run_sure};
pub use words::{
    CommandLine, Commands, Rewrite, Rewriting, Task, parse_count, parse_number, parse_source_type,
    parse_tokens, read_listed, read_words,
};
