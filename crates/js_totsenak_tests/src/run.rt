//! Inputs that are told of, and what comes of those that are not.

use js_process::{SureIn, SureOut};
use js_text::SourceType;
use js_totsenak::{CLEAN, Command, FAULTY, RunFault, Syntax, UNTOLD, status_of, tell_of_input};
use std::alloc::Global;

/// The bytes of a source, what comes of it, what is written, and the exit status.
static RUNS: [(&'static [u8], Result<bool, RunFault>, &'static str, u8); 3] = [
    (b"<a>it's</a>", Ok(false), "", CLEAN),
    (
        b"/a/x",
        Ok(true),
        "f:1:4: unknown flag of a regular expression U+0078\n/a/x\n   ^\n",
        FAULTY,
    ),
    (b"\"a\xFF", Err(RunFault::NotUtf8(2)), "", UNTOLD),
];

fn run(alloc: Global, source: &[u8]) -> (Result<bool, RunFault>, SureOut) {
    let mut input = SureIn::new(source, 3);
    let mut output = SureOut::new(alloc, 10);
    let answer = tell_of_input(
        alloc,
        Command::Check,
        Syntax::Jsx,
        "f",
        SourceType::Module,
        &mut input,
        &mut output,
    );
    (answer, output)
}

#[test]
fn runs(rt: HostRuntime) {
    for &(source, expected, text, status) in &RUNS {
        let (answer, output) = run(rt.alloc(), source);
        assert!(rt;
            answer == expected && status_of(answer) == status,
            "{source:?}"
        );
        assert!(rt; output.written() == text.as_bytes(), "{source:?}");
    }
}
