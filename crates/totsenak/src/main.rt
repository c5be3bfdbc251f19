//! `totsenak`: looks at sources of JavaScript. `totsenak --help` tells what it does.
#![tactic(auto)]

use js_totsenak_files::totsenak_main;
use std::process::ExitCode;

fn main(rt: HostRuntime) -> ExitCode {
    totsenak_main(&rt)
}
