//! A first look at the lexer: it lexes a string, and prints the tokens.
#![tactic(auto)]

use js_auto::GoalChooser;
use js_lists::chosen_lists;
use js_text::SourceType;

fn main(rt: HostRuntime) {
    let source = "let a = /b/g;".as_bytes();
    if let Ok(lists) = chosen_lists::<GoalChooser>(rt.alloc(), source, SourceType::Module) {
        for token in lists.tokens.as_slice() {
            let (start, end, kind) = (token.start(), token.end(), token.kind().name());
            let _ = println!(rt; "{start}..{end} {kind}");
        }
    }
}
