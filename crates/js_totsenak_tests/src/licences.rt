//! Licences of sources, written out.

use js_auto::GoalChooser;
use js_choose::ChoiceFault;
use js_licences::{Licences, licences_json, licences_text};
use js_text::SourceType;
use std::alloc::{AllocError, Global};
use std::test::Fail;

/// Sources with their names.
static SOURCES: [(&'static str, &'static str); 4] = [
    (
        "a.js",
        "/*! One */\nlet a = 1; // @license Two\r\n/* none */ /** three\n * @preserve */ f();",
    ),
    (
        "b.js",
        "`/*! no comment */${/*! One */ a}`; // @license Two\n//! Four \"\u{7}\u{e9}\n/*! One */",
    ),
    ("c.js", "/a/ /*! One\r\rmore */"),
    ("d.js", ""),
];

/// What is told of the licences of the sources.
static LINES: &'static str = "a.js:1\nb.js:1\nb.js:3\n/*! One */\n\n\
    a.js:2\nb.js:1\n// @license Two\n\n\
    a.js:3\n/** three\n * @preserve */\n\n\
    b.js:2\n//! Four \"\u{FFFD}\u{e9}\n\n\
    c.js:1\n/*! One\n\nmore */\n\n";

/// The same as JSON.
static JSON: &'static str = "{\"text\":\"/*! One */\",\"places\":[{\"file\":\"a.js\",\"line\":1},\
    {\"file\":\"b.js\",\"line\":1},{\"file\":\"b.js\",\"line\":3}]}\n\
    {\"text\":\"// @license Two\",\"places\":[{\"file\":\"a.js\",\"line\":2},{\"file\":\"b.js\",\"line\":1}]}\n\
    {\"text\":\"/** three\\u000a * @preserve */\",\"places\":[{\"file\":\"a.js\",\"line\":3}]}\n\
    {\"text\":\"//! Four \\u0022\\u0007\\u00e9\",\"places\":[{\"file\":\"b.js\",\"line\":2}]}\n\
    {\"text\":\"/*! One\\u000d\\u000dmore */\",\"places\":[{\"file\":\"c.js\",\"line\":1}]}\n";

/// The licences of the sources.
fn licences_of_sources(alloc: Global) -> Result<Licences, Fail> {
    let mut licences = Licences::new(alloc);
    for (name, source) in &SOURCES {
        licences.add::<GoalChooser>(name, source.as_bytes(), SourceType::Unambiguous)?;
    }
    Ok(licences)
}

/// Whether these are the licences of the sources, as lines and as JSON.
fn are_listed(alloc: Global, licences: &Licences) -> Result<bool, AllocError> {
    let lines = licences_text(alloc, licences)?;
    let json = licences_json(alloc, licences)?;
    Ok(lines.as_str() == LINES && json.as_str() == JSON)
}

#[test]
fn lists_each_licence_once(rt: HostRuntime) -> Result<(), Fail> {
    let licences = licences_of_sources(rt.alloc())?;
    assert!(rt; are_listed(rt.alloc(), &licences)?);
    Ok(())
}

/// Whether the licence of one source is there still behind another source that is at fault.
fn stays(licences: &mut Licences) -> Result<bool, ChoiceFault> {
    licences.add::<GoalChooser>("a", b"/*! x */", SourceType::Module)?;
    let added = licences.add::<GoalChooser>("b", b"/*! y */\xff", SourceType::Module);
    if added != Err(ChoiceFault::NotUtf8(8)) || licences.len() != 1 {
        return Ok(false);
    }
    let licence = licences.licence(0);
    Ok(licence.text == "/*! x */" && licence.places.len() == 1)
}

#[test]
fn stays_as_it_was_for_a_source_at_fault(rt: HostRuntime) -> Result<(), Fail> {
    let mut licences = Licences::new(rt.alloc());
    assert!(rt; stays(&mut licences)?);
    Ok(())
}
