//! Sources as pages, written out.

use js_choose::ChoiceFault;
use js_html::{Form, html_of_source};
use js_text::SourceType;
use js_totsenak::Syntax;
use std::alloc::Global;
use std::test::Fail;

/// Sources with what stands between the tags of the `pre` and behind the anchor of the first line.
static SHOWN: [(Syntax, &str, &str); 11] = [
    (
        Syntax::JavaScript,
        "let a = 1;\n",
        "<i class=w>let</i> <i class=n>a</i> <i class=o>=</i> <i class=d>1</i><i class=o>;</i>\n\
         <a id=L2></a><i class=e></i>",
    ),
    (
        Syntax::JavaScript,
        "/*! l */ /** d */ /*#__PURE__*/f() // c",
        "<i class=l>/*! l */</i> <i class=j>/** d */</i> <i class=a>/*#__PURE__*/</i><i class=n>f</i>\
         <i class=o>(</i><i class=o>)</i> <i class=c>// c</i><i class=e></i>",
    ),
    (
        Syntax::JavaScript,
        "a<b&&'\"'",
        "<i class=n>a</i><i class=o>&lt;</i><i class=n>b</i><i class=o>&amp;&amp;</i>\
         <i class=s>&#39;&#34;&#39;</i><i class=e></i>",
    ),
    (
        Syntax::JavaScript,
        "`a${this.#b}\n`",
        "<i class=t>`a${</i><i class=k>this</i><i class=o>.</i><i class=p>#b</i><i class=t>}\n\
         <a id=L2></a>`</i><i class=e></i>",
    ),
    (
        Syntax::JavaScript,
        "a\r\rb\r\n\u{2028}c",
        "<i class=n>a</i>&#13;<a id=L2></a>&#13;<i class=n><a id=L3></a>b</i>&#13;\n\
         <a id=L4></a><b title=U+2028>\u{2028}</b><a id=L5></a><i class=n>c</i><i class=e></i>",
    ),
    (
        Syntax::JavaScript,
        "'\0'",
        "<i class=s>&#39;\u{2400}&#39;</i><i class=e></i>",
    ),
    (
        Syntax::JavaScript,
        "'\u{7}\u{202E}'//\u{E0041}",
        "<i class=s>&#39;<b title=U+0007>\u{7}</b><b title=U+202E>\u{202E}</b>&#39;</i>\
         <i class=c>//<b title=U+E0041>\u{E0041}</b></i><i class=e></i>",
    ),
    (
        Syntax::JavaScript,
        "/x/gg;",
        "<i class=r>/x/g<u title=\"repeated flag of a regular expression U+0067\">g</u></i>\
         <i class=o>;</i><i class=e></i>",
    ),
    (
        Syntax::JavaScript,
        "#!</pre>\n",
        "<i class=c>#!&lt;/pre></i>\n<a id=L2></a><i class=e></i>",
    ),
    (Syntax::JavaScript, "", "<i class=e></i>"),
    (
        Syntax::Jsx,
        "<a b=\"x\">don't</a>",
        "<i class=o>&lt;</i><i class=n>a</i> <i class=n>b</i><i class=o>=</i><i class=s>&#34;x&#34;</i>\
         <i class=o>></i><i class=x>don&#39;t</i><i class=o>&lt;</i><i class=o>/</i><i class=n>a</i>\
         <i class=o>></i><i class=e></i>",
    ),
];

/// What stands between the tags of the `pre` and behind the anchor of the first line of a fragment.
fn elements_in(fragment: &str) -> Option<&str> {
    let elements = fragment.strip_prefix("<pre class=totsenak><a id=L1></a>")?;
    elements.strip_suffix("</pre>")
}

/// Whether the fragment of a source has these elements.
fn shows(alloc: Global, syntax: Syntax, source: &str, elements: &str) -> Result<bool, ChoiceFault> {
    let form = Form::Fragment;
    let html = html_of_source(alloc, form, syntax, source.as_bytes(), SourceType::Script)?;
    Ok(elements_in(html.as_str()) == Some(elements))
}

#[test]
fn shows_each_token_and_comment(rt: HostRuntime) -> Result<(), Fail> {
    for &(syntax, source, elements) in &SHOWN {
        assert!(rt; shows(rt.alloc(), syntax, source, elements)?, "{source}");
    }
    Ok(())
}

/// Whether the page has its title with each mark escaped, and the fragment of its source.
fn is_titled(page: &str) -> bool {
    page.contains("<title>&lt;/title>&#34;&#39;&amp;\u{2400}&#13;</title>")
        && page.contains("<pre class=totsenak><a id=L1></a><i class=n>a</i><i class=e></i></pre>")
}

#[test]
fn escapes_titles(rt: HostRuntime) -> Result<(), Fail> {
    let form = Form::Page("</title>\"'&\0\r");
    let page = html_of_source(
        rt.alloc(),
        form,
        Syntax::JavaScript,
        b"a",
        SourceType::Script,
    )?;
    assert!(rt; is_titled(page.as_str()));
    Ok(())
}

#[test]
fn tells_the_fault_of_a_source(rt: HostRuntime) -> Result<(), Fail> {
    let form = Form::Fragment;
    let html = html_of_source(
        rt.alloc(),
        form,
        Syntax::JavaScript,
        b"a\xff",
        SourceType::Script,
    );
    assert!(rt; matches!(html, Err(ChoiceFault::NotUtf8(1))));
    Ok(())
}
