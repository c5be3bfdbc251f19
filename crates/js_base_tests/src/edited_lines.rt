//! Edits of a text, and its lines behind them.

ghost use Rattle.std.specs.Prelude.{IfOk, IfSome, string_bytes};
ghost use Rattle.js_edited_lines.specs.Edited.{AreLinesOf};

use js_edited_lines::EditedLines;
use js_lines::{ColumnUnit, LineEnds, LineTable};
use std::alloc::{AllocError, Global};
use std::test::Fail;

/// An edit of a text: what ends a line, the text before and behind it, the places from which and up to which it is
/// dropped, what is put there, and where the lines begin then.
#[derive(Debug)]
struct Edit {
    ends: LineEnds,
    old: &'static str,
    from: usize,
    to: usize,
    with: &'static str,
    new: &'static str,
    starts: &'static [u32],
}

static EDITS: [Edit; 16] = [
    // A CR LF split, and joined.
    Edit {
        ends: LineEnds::EcmaScript,
        old: "a\r\nb",
        from: 2,
        to: 2,
        with: "x",
        new: "a\rx\nb",
        starts: &[0, 2, 4],
    },
    Edit {
        ends: LineEnds::EcmaScript,
        old: "a\rx\nb",
        from: 2,
        to: 3,
        with: "",
        new: "a\r\nb",
        starts: &[0, 3],
    },
    Edit {
        ends: LineEnds::EcmaScript,
        old: "a\rb",
        from: 2,
        to: 2,
        with: "\n",
        new: "a\r\nb",
        starts: &[0, 3],
    },
    Edit {
        ends: LineEnds::LineFeeds,
        old: "a\rb",
        from: 2,
        to: 2,
        with: "\n",
        new: "a\r\nb",
        starts: &[0, 3],
    },
    Edit {
        ends: LineEnds::LanguageServer,
        old: "a\n",
        from: 1,
        to: 1,
        with: "\r",
        new: "a\r\n",
        starts: &[0, 3],
    },
    // One of its halves dropped.
    Edit {
        ends: LineEnds::EcmaScript,
        old: "a\r\nb",
        from: 2,
        to: 3,
        with: "",
        new: "a\rb",
        starts: &[0, 2],
    },
    Edit {
        ends: LineEnds::EcmaScript,
        old: "a\r\nb",
        from: 1,
        to: 2,
        with: "",
        new: "a\nb",
        starts: &[0, 2],
    },
    Edit {
        ends: LineEnds::LineFeeds,
        old: "a\r\nb",
        from: 2,
        to: 3,
        with: "",
        new: "a\rb",
        starts: &[0],
    },
    // At the start, and at the end.
    Edit {
        ends: LineEnds::EcmaScript,
        old: "one\ntwo",
        from: 0,
        to: 0,
        with: "\u{2028}",
        new: "\u{2028}one\ntwo",
        starts: &[0, 3, 7],
    },
    Edit {
        ends: LineEnds::LanguageServer,
        old: "\nab",
        from: 0,
        to: 1,
        with: "",
        new: "ab",
        starts: &[0],
    },
    Edit {
        ends: LineEnds::EcmaScript,
        old: "one",
        from: 3,
        to: 3,
        with: "\n",
        new: "one\n",
        starts: &[0, 4],
    },
    Edit {
        ends: LineEnds::LanguageServer,
        old: "",
        from: 0,
        to: 0,
        with: "\r",
        new: "\r",
        starts: &[0, 1],
    },
    // Several lines, and characters of more bytes than one.
    Edit {
        ends: LineEnds::EcmaScript,
        old: "a\nb\nc\nd",
        from: 1,
        to: 6,
        with: "",
        new: "ad",
        starts: &[0],
    },
    Edit {
        ends: LineEnds::EcmaScript,
        old: "a\nb\nc\nd",
        from: 2,
        to: 4,
        with: "x\ny\n",
        new: "a\nx\ny\nc\nd",
        starts: &[0, 2, 4, 6, 8],
    },
    Edit {
        ends: LineEnds::EcmaScript,
        old: "😀\n😀",
        from: 4,
        to: 5,
        with: "😀\r",
        new: "😀😀\r😀",
        starts: &[0, 9],
    },
    Edit {
        ends: LineEnds::LanguageServer,
        old: "a\u{2028}\nb",
        from: 1,
        to: 4,
        with: "\u{2029}",
        new: "a\u{2029}\nb",
        starts: &[0, 5],
    },
];

/// What is put into a text in turn.
static PIECES: [&'static str; 9] = [
    "\n", "\r", "a", "😀", "\r\n", "\u{2028}", "", "b\nc\r", "é\n\n",
];

/// A text with other characters in the place of some, whose lines are told of it. None: it cannot be cut there.
fn replaced(
    alloc: Global,
    text: &str,
    lines: &mut EditedLines,
    from: usize,
    to: usize,
    with: &str,
) -> Result<Option<String>, AllocError>
    requires { AreLinesOf lines.old text.now }
    ensures { IfOk result (λ found. IfSome found (λ new. AreLinesOf lines.new (string_bytes new))) }
{
    if from > to {
        return Ok(None);
    }
    if !text.is_char_boundary(from) {
        return Ok(None);
    }
    if !text.is_char_boundary(to) {
        return Ok(None);
    }
    let mut new = String::from_str(alloc, &text[..from])?;
    new.push_str(with)?;
    new.push_str(&text[to..])?;
    if new.len() > 1000 {
        return Ok(None);
    }
    lines.edit(new.as_str(), from as u32, to as u32, with.len() as u32)?;
    Ok(Some(new))
}

/// The lines of a short text.
fn lines_of(alloc: Global, text: &str, ends: LineEnds) -> Result<Option<EditedLines>, AllocError>
    ensures { IfOk result (λ found. IfSome found (λ lines. AreLinesOf lines text.now)) }
{
    if text.len() > 1000 {
        return Ok(None);
    }
    Ok(Some(EditedLines::new(alloc, text, ends)?))
}

/// A text that is edited once, and its lines.
fn edited(alloc: Global, edit: &Edit) -> Result<Option<(String, EditedLines)>, AllocError> {
    let Some(mut lines) = lines_of(alloc, edit.old, edit.ends)? else {
        return Ok(None);
    };
    match replaced(alloc, edit.old, &mut lines, edit.from, edit.to, edit.with)? {
        Some(text) => Ok(Some((text, lines))),
        None => Ok(None),
    }
}

/// Whether the lines of a text begin at these places.
fn begin_at(lines: &EditedLines, starts: &[u32]) -> bool {
    let mut line = 0u32;
    for start in starts {
        if lines.line_start(line) != Some(*start) {
            return false;
        }
        line = line.wrapping_add(1);
    }
    lines.line_count() == starts.len() && lines.line_start(line).is_none()
}

#[test]
fn an_edit_is_known_by_its_places(rt: HostRuntime) -> Result<(), Fail> {
    for edit in &EDITS {
        let found = edited(rt.alloc(), edit)?;
        assert!(rt; found.is_some(), "{edit:?}");
        if let Some((text, lines)) = found {
            assert_eq!(rt; text.as_str(), edit.new);
            assert!(rt; begin_at(&lines, edit.starts), "{edit:?}");
        }
    }
    Ok(())
}

/// Whether two ways to keep the lines of a short text tell the same of each place and line, and of those behind it.
fn tell_the_same(text: &str, lines: &EditedLines, table: &LineTable<'_>) -> bool
    requires { AreLinesOf lines.now text.now }
{
    let unit = ColumnUnit::Utf16Units;
    for offset in 0..200u32 {
        let position = table.position(offset, unit);
        if lines.position(text, offset, unit) != position {
            return false;
        }
        if lines.offset(text, position, unit) != table.offset(position, unit) {
            return false;
        }
    }
    for line in 0..100u32 {
        if lines.line_text(text, line) != table.line_text(line) {
            return false;
        }
        if lines.line_start(line) != table.line_start(line) {
            return false;
        }
    }
    lines.line_count() == table.line_count()
}

/// Whether the lines of a text are told as a table that is made anew tells them.
fn are_told(
    alloc: Global,
    text: &str,
    lines: &EditedLines,
    ends: LineEnds,
) -> Result<bool, AllocError>
    requires { AreLinesOf lines.now text.now }
{
    if text.len() > 1000 {
        return Ok(false);
    }
    let table = LineTable::new(alloc, text, ends)?;
    Ok(tell_the_same(text, lines, &table))
}

/// Whether the lines of a text are told right behind each of many edits.
fn stay_told(alloc: Global, ends: LineEnds) -> Result<bool, AllocError> {
    let mut text = String::from_str(alloc, "a\r\nb\u{2028}😀c\rd\n")?;
    let Some(mut lines) = lines_of(alloc, text.as_str(), ends)? else {
        return Ok(false);
    };
    for step in 0..200usize {
        let from = text.as_str().floor_char_boundary(step * 7919 % 61);
        let to = text.as_str().ceil_char_boundary(from + step % 7);
        let Some(new) = replaced(
            alloc,
            text.as_str(),
            &mut lines,
            from,
            to,
            PIECES[step * 5 % 9],
        )?
        else {
            return Ok(false);
        };
        text = new;
        if !are_told(alloc, text.as_str(), &lines, ends)? {
            return Ok(false);
        }
    }
    Ok(true)
}

#[test]
fn lines_are_told_behind_many_edits(rt: HostRuntime) -> Result<(), Fail> {
    assert!(rt; stay_told(rt.alloc(), LineEnds::EcmaScript)?);
    assert!(rt; stay_told(rt.alloc(), LineEnds::LineFeeds)?);
    assert!(rt; stay_told(rt.alloc(), LineEnds::LanguageServer)?);
    Ok(())
}
