//! The program `js_lex`.
#![tactic(auto)]

use js_lex_tool::lex_main;
use std::process::ExitCode;

fn main(rt: HostRuntime) -> ExitCode {
    lex_main(&rt)
}
