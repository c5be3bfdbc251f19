//! What is told of sources, and sources that are written anew, written out.

use js_choose::ChoiceFault;
use js_text::SourceType;
use js_totsenak::Syntax::{self, JavaScript, Jsx};
use js_totsenak::{Command, Format, Rewriting, Rewritten, rewrite_source, tell};
use std::alloc::Global;
use std::test::Fail;

/// What is asked for of a source.
enum Asked {
    Told(Syntax, Command),
    Written(Rewriting),
}

use Asked::{Told, Written};

/// What is asked for of a source, the source, the text that comes of it, and whether the source is at fault.
static ROWS: [(Asked, &str, &str, bool); 30] = [
    (Told(JavaScript, Command::Check), "let a = 1;\n", "", false),
    (
        Told(JavaScript, Command::Check),
        "a\r\n\t\"😀\u{7}\" 3in x;\r",
        "f:2:8: a name or a digit right behind a number\n\t\"😀\u{FFFD}\" 3in x;\n\t       ^\n",
        true,
    ),
    (
        Told(JavaScript, Command::Check),
        "a\r3in",
        "f:2:2: a name or a digit right behind a number\n3in\n ^\n",
        true,
    ),
    (
        Told(JavaScript, Command::Check),
        "a\u{2028}/*",
        "f:2:1: comment without an end\n/*\n^\n",
        true,
    ),
    (
        Told(JavaScript, Command::Check),
        "/a/xy",
        "f:1:4: unknown flag of a regular expression U+0078\n/a/xy\n   ^\n",
        true,
    ),
    (
        Told(JavaScript, Command::Check),
        "a <!-- b",
        "f:1:3: warning: HTML comment in a module\na <!-- b\n  ^\n",
        false,
    ),
    (
        Told(JavaScript, Command::Check),
        "\u{FFFD}a",
        "f:1:1: the file appears to be binary\n",
        true,
    ),
    (
        Told(JavaScript, Command::Check),
        "<a>it's</a>",
        "f:1:6: string or template without an end\n<a>it's</a>\n     ^\n",
        true,
    ),
    (
        Told(JavaScript, Command::Tokens(Format::Lines)),
        "é = `\\\n${1}`;\r\n/a\\/b/g",
        "1:1 Ident é\n1:3 Eq =\n1:5 TemplateHead `\\\\\\n${\n2:3 Decimal 1\n2:4 TemplateTail }`\n2:6 Semicolon ;\n3:1 RegExp \
        /a\\\\/b/g\n3:8 Eof \n",
        false,
    ),
    (
        Told(JavaScript, Command::Tokens(Format::Lines)),
        "return /a/g",
        "1:1 Return return\n1:8 RegExp /a/g\n1:12 Eof \n",
        false,
    ),
    (
        Told(JavaScript, Command::Tokens(Format::Lines)),
        "",
        "1:1 Eof \n",
        false,
    ),
    (
        Told(JavaScript, Command::Values),
        "'a\\n\"' + \"\\ud800é😀\" + `b${c}d` + e",
        "\"a\\u000a\\u0022\"\n\"\\ud800\\u00e9\\ud83d\\ude00\"\n\"b\"\n\"d\"\n",
        false,
    ),
    // The part of a template behind a substitution has the value of the part, and its `}` has none.
    (
        Told(JavaScript, Command::Values),
        "`\\x61${'\u{0}'}\\x62`",
        "\"a\"\n\"\\u0000\"\n\"b\"\n",
        false,
    ),
    (
        Told(JavaScript, Command::Values),
        "'a\u{0}b'",
        "\"a\\u0000b\"\n",
        false,
    ),
    (
        Told(JavaScript, Command::Values),
        "a = /b/ + `\\u{`",
        "",
        false,
    ),
    // With JSX.

    (Told(Jsx, Command::Check), "<a>it's</a>", "", false),
    (
        Told(Jsx, Command::Check),
        "<a>\n></a>",
        "f:2:1: warning: a > in the text of JSX\n></a>\n^\n",
        false,
    ),
    (
        Told(Jsx, Command::Tokens(Format::Lines)),
        "<a>it's</a>",
        "1:1 LAngle <\n1:2 Ident a\n1:3 RAngle >\n1:4 JSXText it's\n1:8 LAngle <\n1:9 Slash /\n1:10 Ident a\n\
        1:11 RAngle >\n1:12 Eof \n",
        false,
    ),
    // As JSON.
    (
        Told(JavaScript, Command::Tokens(Format::Json)),
        "return /a/gyg",
        concat!(
            r#"{"type":"token","kind":"Return","start":0,"end":6,"line":1,"column":1,"newline_before":true,"#,
            r#""escaped":false,"separator":false,"value":"return"}"#,
            "\n",
            r#"{"type":"token","kind":"RegExp","start":7,"end":13,"line":1,"column":8,"newline_before":false,"#,
            r#""escaped":false,"separator":false,"pattern_end":9,"flags":"gy","flags_error":true}"#,
            "\n",
            r#"{"type":"diagnostic","severity":"error","name":"RegExpFlagTwice","#,
            r#""message":"repeated flag of a regular expression U+0067","start":12,"end":13,"line":1,"column":13}"#,
            "\n",
            r#"{"type":"token","kind":"Eof","start":13,"end":13,"line":1,"column":14,"newline_before":false,"#,
            r#""escaped":false,"separator":false}"#,
            "\n",
        ),
        false,
    ),
    (
        Told(JavaScript, Command::Tokens(Format::Json)),
        "1_0 /*é*/\r\n'\\ud800\"' <!-- x\n",
        concat!(
            r#"{"type":"token","kind":"Decimal","start":0,"end":3,"line":1,"column":1,"newline_before":true,"#,
            r#""escaped":false,"separator":true}"#,
            "\n",
            r#"{"type":"comment","kind":"SingleLineBlock","start":4,"end":10,"line":1,"column":5,"#,
            r#""content":"None","position":"Trailing","newline_before":false,"newline_after":true}"#,
            "\n",
            r#"{"type":"token","kind":"Str","start":12,"end":21,"line":2,"column":1,"newline_before":true,"#,
            r#""escaped":true,"separator":false,"value":"\ud800\u0022"}"#,
            "\n",
            r#"{"type":"comment","kind":"HtmlOpen","start":22,"end":28,"line":2,"column":11,"#,
            r#""content":"None","position":"Trailing","newline_before":false,"newline_after":true}"#,
            "\n",
            r#"{"type":"diagnostic","severity":"warning","name":"HtmlCommentInModule","#,
            r#""message":"HTML comment in a module","start":22,"end":26,"line":2,"column":11}"#,
            "\n",
            r#"{"type":"token","kind":"Eof","start":29,"end":29,"line":3,"column":1,"newline_before":true,"#,
            r#""escaped":false,"separator":false}"#,
            "\n",
        ),
        false,
    ),
    (
        Told(JavaScript, Command::Tokens(Format::Json)),
        "`\\u{`",
        concat!(
            r#"{"type":"token","kind":"NoSubstitutionTemplate","start":0,"end":5,"line":1,"column":1,"#,
            r#""newline_before":true,"escaped":true,"separator":false,"value":null}"#,
            "\n",
            r#"{"type":"token","kind":"Eof","start":5,"end":5,"line":1,"column":6,"newline_before":false,"#,
            r#""escaped":false,"separator":false}"#,
            "\n",
        ),
        false,
    ),
    (
        Told(JavaScript, Command::Tokens(Format::Json)),
        "\u{FFFD}a",
        concat!(
            r#"{"type":"diagnostic","severity":"error","name":"FileAppearsToBeBinary","#,
            r#""message":"the file appears to be binary","start":null,"end":null,"line":null,"column":null}"#,
            "\n",
            r#"{"type":"token","kind":"Eof","start":0,"end":4,"line":1,"column":1,"newline_before":true,"#,
            r#""escaped":false,"separator":false}"#,
            "\n",
        ),
        false,
    ),
    (
        Told(Jsx, Command::Tokens(Format::Json)),
        "<>'></>",
        concat!(
            r#"{"type":"token","kind":"LAngle","start":0,"end":1,"line":1,"column":1,"newline_before":true,"#,
            r#""escaped":false,"separator":false}"#,
            "\n",
            r#"{"type":"token","kind":"RAngle","start":1,"end":2,"line":1,"column":2,"newline_before":false,"#,
            r#""escaped":false,"separator":false}"#,
            "\n",
            r#"{"type":"token","kind":"JSXText","start":2,"end":4,"line":1,"column":3,"newline_before":false,"#,
            r#""escaped":false,"separator":false}"#,
            "\n",
            r#"{"type":"diagnostic","severity":"warning","name":"RightAngleInJsxText","#,
            r#""message":"a > in the text of JSX","start":3,"end":4,"line":1,"column":4}"#,
            "\n",
            r#"{"type":"token","kind":"LAngle","start":4,"end":5,"line":1,"column":5,"newline_before":false,"#,
            r#""escaped":false,"separator":false}"#,
            "\n",
            r#"{"type":"token","kind":"Slash","start":5,"end":6,"line":1,"column":6,"newline_before":false,"#,
            r#""escaped":false,"separator":false}"#,
            "\n",
            r#"{"type":"token","kind":"RAngle","start":6,"end":7,"line":1,"column":7,"newline_before":false,"#,
            r#""escaped":false,"separator":false}"#,
            "\n",
            r#"{"type":"token","kind":"Eof","start":7,"end":7,"line":1,"column":8,"newline_before":false,"#,
            r#""escaped":false,"separator":false}"#,
            "\n",
        ),
        false,
    ),
    // Written anew; what is told where the source is at fault.
    (
        Written(Rewriting::Strip),
        "a /* x */ b // c\n",
        "a   b  \n",
        false,
    ),
    (
        Written(Rewriting::Strip),
        "f()/* x\r\n */ /a//b\n`/* ${/* y */c} */`",
        "f()\n /a \n`/* ${ c} */`",
        false,
    ),
    (
        Written(Rewriting::Strip),
        "let a = /x/gg; // b",
        "f:1:13: repeated flag of a regular expression U+0067\nlet a = /x/gg; // b\n            ^\n",
        true,
    ),
    (
        Written(Rewriting::Squeeze),
        "a /* x */ + b // c\n;",
        "a+b\n;",
        false,
    ),
    (
        Written(Rewriting::Squeeze),
        "return /a/g in b - - c",
        "return/a/g in b - -c",
        false,
    ),
    (Written(Rewriting::Squeeze), " // a", "", false),
    (
        Written(Rewriting::Squeeze),
        "/*",
        "f:1:1: comment without an end\n/*\n^\n",
        true,
    ),
];

/// Whether this text comes of a source, and whether the source is at fault.
fn answers(
    alloc: Global,
    asked: &Asked,
    source: &[u8],
    text: &str,
) -> Result<(bool, bool), ChoiceFault> {
    let source_type = SourceType::Unambiguous;
    match asked {
        Told(syntax, command) => {
            let told = tell(alloc, *command, *syntax, "f", source, source_type)?;
            Ok((told.text.as_str() == text, told.is_faulty))
        }
        Written(rewriting) => {
            match rewrite_source(alloc, *rewriting, "f", source, source_type)? {
                Rewritten::Text(written) => Ok((written.as_str() == text, false)),
                Rewritten::Refused(told) => Ok((told.as_str() == text, true)),
            }
        }
    }
}

#[test]
fn told_and_written(rt: HostRuntime) -> Result<(), Fail> {
    for (row, (asked, source, text, is_faulty)) in ROWS.iter().enumerate() {
        let answer = answers(rt.alloc(), asked, source.as_bytes(), text)?;
        assert_eq!(rt; answer, (true, *is_faulty), "row {row}: {source:?}");
    }
    Ok(())
}
