//! Runs of a program that makes one text of its input. No clause says that it succeeds where there is memory, nor what
//! becomes of words for which there was none.

ghost use Rattle.std.specs.Prelude.{⊤};

use js_lex_tool::status::{DONE, MEMORY, NOT_UTF8, USAGE};
use js_lex_tool::{SureIn, SureOut, TextMaker, text_run};
use std::alloc::{AllocError, Global};

/// Writes its input as it stands.
#[derive(Clone, Copy)]
struct Same;

impl TextMaker for Same {
    ghost may_make = { λ _ _ _. ⊤ };

    fn text(&self, alloc: Global, source: &str) -> Result<String, AllocError> {
        String::from_str(alloc, source)
    }
}

/// Words, as what they mean, an input, the status that comes of them, and what is written.
static MADE: [(Result<Option<Same>, AllocError>, &[u8], u8, &str); 4] = [
    (Ok(Some(Same)), b"a b", DONE, "a b"),
    (Ok(Some(Same)), b"a\xff", NOT_UTF8, ""),
    (Ok(None), b"a", USAGE, ""),
    (Err(AllocError), b"a", MEMORY, ""),
];

#[test]
fn made_texts(rt: HostRuntime) {
    for &(words, source, wanted, text) in &MADE {
        let mut input = SureIn::new(source, 2);
        let mut output = SureOut::new(rt.alloc(), 2);
        let status = text_run(rt.alloc(), words, &mut input, &mut output);
        assert_eq!(rt; status, wanted);
        assert_eq!(rt; output.written(), text.as_bytes());
    }
}
