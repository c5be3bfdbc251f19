//! Whole pages.

ghost use Rattle.std.specs.Prelude.{◌≡◌, IfOk, string_bytes};
ghost use Rattle.js_page.specs.Whole.{page_head};

use crate::title::push_title;
use std::alloc::{AllocError, Global};

/// The style of the elements, in light and in dark.
pub const STYLE: &str = ".totsenak{margin:0;padding:1em 1em 1em 0;overflow:auto;\n\
    font:14px/1.5 ui-monospace,monospace;white-space:pre;tab-size:4;counter-reset:line}\n\
    .totsenak i{font-style:normal}\n\
    .totsenak .k,.totsenak .l{font-weight:bold}\n\
    .totsenak a::before{counter-increment:line;content:counter(line);\n\
    display:inline-block;width:6ch;margin-right:2ch;text-align:right;font-weight:normal;user-select:none}\n\
    .totsenak a:target::before{outline:1px solid}\n\
    .totsenak b{font-weight:normal;unicode-bidi:isolate}\n\
    .totsenak b::before{content:attr(title);padding:0 2px;border:1px solid;border-radius:3px;font-size:10px}\n\
    .totsenak u{text-decoration:underline wavy;text-underline-offset:3px}\n\
    .totsenak u:empty::before{content:\"\\25B2\"}\n\
    .totsenak{color:#1f2328;background:#ffffff}\n\
    .totsenak .k{color:#a0111f}\n\
    .totsenak .w{color:#0a6067}\n\
    .totsenak .p{color:#7a3e00}\n\
    .totsenak .d{color:#0550ae}\n\
    .totsenak .s,.totsenak .t{color:#0a3069}\n\
    .totsenak .r{color:#116329}\n\
    .totsenak .o{color:#4d5560}\n\
    .totsenak .c{color:#5a636d}\n\
    .totsenak .j{color:#4b6113}\n\
    .totsenak .l{color:#7a4b00}\n\
    .totsenak .a{color:#6639ba}\n\
    .totsenak .u{color:#b00020}\n\
    .totsenak a::before{color:#5a636d}\n\
    .totsenak b::before{color:#b00020}\n\
    .totsenak u{text-decoration-color:#c4001d}\n\
    .totsenak u:empty::before{color:#c4001d}\n\
    @media (prefers-color-scheme:dark){\n\
    .totsenak{color:#e6edf3;background:#0d1117}\n\
    .totsenak .k{color:#ff8b82}\n\
    .totsenak .w{color:#6fdad0}\n\
    .totsenak .p{color:#ffa657}\n\
    .totsenak .d{color:#8cc8ff}\n\
    .totsenak .s,.totsenak .t{color:#a5d6ff}\n\
    .totsenak .r{color:#7ee787}\n\
    .totsenak .o{color:#a7b1bd}\n\
    .totsenak .c{color:#9da7b3}\n\
    .totsenak .j{color:#b5cf7a}\n\
    .totsenak .l{color:#e3b341}\n\
    .totsenak .a{color:#d2a8ff}\n\
    .totsenak .u{color:#ffa198}\n\
    .totsenak a::before{color:#9da7b3}\n\
    .totsenak b::before{color:#ffa198}\n\
    .totsenak u{text-decoration-color:#ff8b82}\n\
    .totsenak u:empty::before{color:#ff8b82}\n\
    }\n";

/// What stands before the title of a page.
const HEAD: &str = "<!doctype html>\n<html lang=en>\n<meta charset=utf-8>\n\
    <meta name=color-scheme content=\"light dark\">\n<meta name=viewport content=\"width=device-width\">\n<title>";

/// What stands behind the fragment of a page.
pub const PAGE_END: &str = "\n</html>\n";

/// What stands before the fragment of a page with a title. No character of the title stands for a mark.
pub fn page_head(alloc: Global, title: &str) -> Result<String, AllocError>
    ensures { IfOk result (λ text. string_bytes text ≡ page_head title.now) }
{
    let mut text = String::from_str(alloc, HEAD)?;
    push_title(&mut text, title)?;
    text.push_str("</title>\n<style>\n")?;
    text.push_str(STYLE)?;
    text.push_str("</style>\n")?;
    Ok(text)
}
